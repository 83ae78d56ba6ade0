// The questions to one block.
ghost use Rattle.std.specs.Prelude.{◌≡◌, ◌+◌, ◌≤◌, length, drop};
ghost use Rattle.table.specs.Opening.{row_read, row_after, least_after, row_follows, first_stray, sums_right, count_right, body_right};

use crate::block::{BLOCK_ROWS, Block, SUMMED_BYTES, sum_bytes};
use crate::holder::{MAX_COUNT, MAX_ROWS, Row};

// The least count and level that a row may have.
pub type Least = (u64, u16);

// The row in a place of 8 bytes.
pub fn row_at(place: &[u8]) -> Row
    requires { length place.now ≡ 8 }
    ensures { result ≡ row_read place.now }
{
    let [c0, c1, c2, c3, l0, l1, ..] = place else {
        unreachable!();
    };
    (
        u32::from_le_bytes([*c0, *c1, *c2, *c3]),
        u16::from_le_bytes([*l0, *l1]),
    )
}

pub fn sums_right(bytes: &[u8]) -> bool
    ensures { result ≡ sums_right bytes.now }
{
    let (summed, sums) = bytes.split_at(SUMMED_BYTES.min(bytes.len()));
    sums == sum_bytes(summed).as_slice()
}

// Whether a block may have so many rows, with so many blocks behind it and rows before it.
pub fn count_right(left: usize, before: usize, count: usize) -> bool
    requires { before ≤ 1024 }
    ensures { result ≡ count_right left before count }
{
    1 <= count
        && count <= BLOCK_ROWS
        && (left == 0 || count == BLOCK_ROWS)
        && before + count <= MAX_ROWS
}

// Whether the bytes are, but for the sums, those of a block.
pub fn body_right(bytes: &[u8], block: &Block<'_>) -> bool
    requires { length bytes.now ≡ 512 }
    ensures { result ≡ body_right block.now.number bytes.now block.now.rows.now }
{
    let [m0, m1, count, zero, n0, n1, z0, z1, rest @ ..] = bytes else {
        unreachable!();
    };
    let head = [*m0, *m1, *count, *zero, *n0, *n1, *z0, *z1];
    head == block.head() && &rest[..500] == block.places().as_slice()
}

fn row_after(row: Row) -> Least
    ensures { result ≡ row_after row }
{
    let (count, level) = row;
    (u64::from(count) + 1, level)
}

// What a row behind these may have at least.
pub fn least_after(rows: &[Row]) -> Least
    ensures { result ≡ least_after (0, 0) rows.now }
{
    match rows.last() {
        None => (0, 0),
        Some(row) => row_after(*row),
    }
}

fn row_follows(least: Least, row: Row) -> bool
    ensures { result ≡ row_follows least row }
{
    let (least_count, least_level) = least;
    let (count, level) = row;
    least_count <= u64::from(count) && count <= MAX_COUNT && least_level <= level
}

// How many rows stand before the first that is out of order. No Option: where none is, all rows do.
pub fn first_stray(mut least: Least, rows: &[Row]) -> usize
    ensures { result ≡ first_stray least rows.now }
{
    for (i, row) in rows.iter().enumerate() {
        if !row_follows(least, *row) {
            return i;
        }
        least = row_after(*row);
    }
    rows.len()
}
