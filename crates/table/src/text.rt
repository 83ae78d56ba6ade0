// The text holder: a table in lent bytes, one line a row.
ghost use Rattle.std.specs.Prelude.{◌≡◌, ◌+◌, ◌*◌, ◌≤◌, length, take, decimal};
ghost use Rattle.table.specs.Text.{row_text, table_text, text_room, over};

use crate::holder::Row;
use crate::rows::Rows;
use itoa::write_digits;

mod calls;

// How many digits a number has.
fn digits(n: u32) -> usize
    ensures { result ≡ length (decimal n) }
{
    if n < 10 {
        1
    } else if n < 100 {
        2
    } else if n < 1_000 {
        3
    } else if n < 10_000 {
        4
    } else {
        digits(n / 10_000) + 4
    }
}

// Lent bytes of which the first are in use. Their number stands beside them, since the caller lends the memory.
#[derive(Drop)]
struct Page<'a> {
    bytes: &'a mut [u8],
    used: usize,
}

impl<'a> Page<'a> {
    // Writes the line of a row behind the bytes in use. Its digits are counted first, as they are written from the last on.
    fn append_row(&mut self, row: Row)
        requires { self.old.used + length (row_text row) ≤ length self.old.bytes.now }
        ensures used { self.new.used ≡ self.old.used + length (row_text row) }
        ensures bytes { self.new.bytes.now ≡ over self.old.bytes.now self.old.used (row_text row) }
        ensures room { length self.new.bytes.now ≡ length self.old.bytes.now }
    {
        let (count, level) = row;
        let end = self.used + digits(count) + 1 + digits(u32::from(level));
        self.bytes[end] = b'\n';
        let space = write_digits(u64::from(level), self.bytes, end) - 1;
        self.bytes[space] = b' ';
        write_digits(u64::from(count), self.bytes, space);
        self.used = end + 1;
    }
}

// A table over lent bytes. The rows stand beside their text, so that asking for one reads no text.
#[derive(Drop)]
pub struct TextTable<'a> {
    page: Page<'a>,
    rows: Rows,
    ghost fits: { length rows ≤ text_room page.bytes.now },
    ghost short: { page.used ≤ 15 * length rows },
    // The bytes in use are the text of the rows.
    ghost text: { take page.used page.bytes.now ≡ table_text rows },
}
