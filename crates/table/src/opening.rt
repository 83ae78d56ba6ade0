// Opening bytes as a binary table, block by block.
ghost use Rattle.std.specs.Prelude.{◌≡◌, ◌+◌, ◌*◌, ◌<◌, ◌≤◌, ◌++◌, length, Ok};
ghost use Rattle.table.specs.Opening.{rows_read, block_rows, block_answer, opened, ReadsBack, OnlyThat};
ghost use Rattle.table.specs.Opened.{rows_answered};

use crate::block::{BLOCK_BYTES, Block};
use crate::holder::{MAX_ROWS, Row};
use crate::opening::block::{
    body_right, count_right, first_stray, least_after, row_at, sums_right,
};
use arrayvec::ArrayVec;
use fault::{Fault, Question};

mod block;

// The longest table: 17 blocks.
const MAX_BYTES: usize = 8704;

// Reads rows that there is room for, 8 bytes each, and puts them behind those found.
fn read(found: &mut ArrayVec<Row, MAX_ROWS>, places: &[u8], count: usize)
    requires bytes { 8 * count ≤ length places.now }
    requires room { length found.old.items + count ≤ 1024 }
    ensures { found.new.items ≡ found.old.items ++ rows_read count places.now }
{
    for place in places.chunks_exact(8).take(count) {
        found.push(row_at(place));
    }
}

// Takes the rows of the next block, or says which question refuses it.
fn take_block(
    found: &mut ArrayVec<Row, MAX_ROWS>,
    bytes: &[u8],
    number: usize,
    left: usize,
) -> Result<(), Fault>
    requires bytes { length bytes.now ≡ 512 }
    requires number { number < 17 }
    ensures answer { result ≡ block_answer left number found.old.items bytes.now }
    ensures rows { result ≡ Ok tt → found.new.items ≡ found.old.items ++ block_rows bytes.now }
{
    let line = number as u32 + 1;
    if !sums_right(bytes) {
        return Err(Fault::at(line, 0, Question::OpenSums));
    }
    let before = found.len();
    let count = usize::from(bytes[2]);
    if !count_right(left, before, count) {
        return Err(Fault::at(line, 0, Question::OpenLayout));
    }
    let least = least_after(found);
    read(found, &bytes[8..], count);
    let rows = &found[before..];
    let block = Block {
        number: number as u16,
        rows,
    };
    if !body_right(bytes, &block) {
        return Err(Fault::at(line, 0, Question::OpenLayout));
    }
    let stray = first_stray(least, rows);
    if stray != count {
        return Err(Fault::at(line, stray as u32 + 1, Question::OpenOrder));
    }
    Ok(())
}

// The rows of a binary table, or the first question that refuses its bytes.
//
// Rows that rise come back as they were written, and no other bytes than those that writing gives
// are accepted.
pub fn open(bytes: &[u8]) -> Result<ArrayVec<Row, MAX_ROWS>, Fault>
    ensures answer { rows_answered result ≡ opened bytes.now }
    ensures back { ReadsBack }
    ensures only { OnlyThat }
{
    if bytes.len() % BLOCK_BYTES != 0 || bytes.len() > MAX_BYTES {
        return Err(Fault::plain(Question::OpenLength));
    }
    let blocks = bytes.len() / BLOCK_BYTES;
    let mut found = ArrayVec::new();
    for (number, block) in bytes.chunks_exact(BLOCK_BYTES).enumerate() {
        take_block(&mut found, block, number, blocks - number - 1)?;
    }
    Ok(found)
}
