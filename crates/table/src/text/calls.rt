// The calls of the text holder.
ghost use Rattle.std.specs.Prelude.{◌≡◌, ◌<◌, ◌≤◌, [], ◌∷◌, ◌++◌, length};
ghost use Rattle.table.specs.Text.{table_text, text_room, text_extended, OneReading};
ghost use Rattle.table.specs.Lent.{text_rows, text_bytes, text_bounded, text_within};

use crate::holder::{Holder, MAX_ROWS, Row, check_put};
use crate::rows::Rows;
use crate::text::{Page, TextTable};
use fault::Fault;

// The longest row: 8 digits, a space, 5 digits and a newline.
const ROW_BYTES: usize = 15;

impl<'a> TextTable<'a> {
    // A table with no rows, whatever the bytes are.
    pub fn new(bytes: &'a mut [u8]) -> TextTable<'a>
        ensures rows { text_rows result ≡ [] }
        ensures bytes { text_bytes result ≡ bytes.old }
    {
        TextTable {
            page: Page { bytes, used: 0 },
            rows: Rows::new(),
        }
    }

    // The bytes in use, for printing. They say which rows there are: no other rows have the same text.
    pub fn text(&self) -> &[u8]
        ensures value { result.now ≡ table_text (text_rows self.now) }
        ensures reading { OneReading }
    {
        &self.page.bytes[..self.page.used]
    }

    // Adds a row that is in range and that there is room for.
    fn push(&mut self, count: u32, level: u16)
        requires small { count ≤ 16777215 }
        requires room { length (text_rows self.old) < text_room (text_bytes self.old) }
        ensures rows { text_rows self.new ≡ text_rows self.old ++ (count, level) ∷ [] }
        ensures room { text_room (text_bytes self.new) ≡ text_room (text_bytes self.old) }
        ensures bytes { text_bytes self.new ≡ text_extended (text_bytes self.old) (text_rows self.old) (count, level) }
    {
        let row = (count, level);
        self.page.append_row(row);
        self.rows.push(row);
    }
}

impl<'a> Holder for TextTable<'a> {
    ghost listed = { text_rows };

    ghost room = { λ s. text_room (text_bytes s) };

    ghost memory = { text_bytes };

    ghost bounded = { text_bounded };

    ghost within = { text_within };

    ghost cleared = { λ bs _. bs };

    ghost extended = { text_extended };

    fn clear(&mut self) {
        self.page.used = 0;
        self.rows.clear();
    }

    fn put(&mut self, count: u32, level: u16) -> Result<(), Fault> {
        check_put(self.rows.as_slice(), self.capacity(), count)?;
        self.push(count, level);
        Ok(())
    }

    fn row(&self, i: usize) -> Option<Row> {
        self.rows.as_slice().get(i).copied()
    }

    fn len(&self) -> usize {
        self.rows.len()
    }

    fn capacity(&self) -> usize {
        (self.page.bytes.len() / ROW_BYTES).min(MAX_ROWS)
    }
}
