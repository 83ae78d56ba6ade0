// The calls of the binary holder.
ghost use Rattle.std.specs.Prelude.{◌≡◌, ◌<◌, ◌≤◌, [], ◌∷◌, ◌++◌, length};
ghost use Rattle.table.specs.Binary.{binary_bytes, binary_room, binary_extended};
ghost use Rattle.table.specs.Opening.{opened};
ghost use Rattle.table.specs.Opened.{rows_or_none};
ghost use Rattle.table.specs.Held.{binary_rows, binary_memory, binary_bounded, binary_within};

use crate::binary::BinaryTable;
use crate::block::{BLOCK_BYTES, BLOCK_ROWS, Block, write};
use crate::holder::{Holder, MAX_ROWS, Row, check_put};
use crate::opening::open;
use crate::rows::Rows;
use fault::Fault;

impl<'a> BinaryTable<'a> {
    // A table with no rows, whatever the bytes are.
    pub fn new(bytes: &'a mut [u8]) -> BinaryTable<'a>
        ensures rows { binary_rows result ≡ [] }
        ensures bytes { binary_memory result ≡ bytes.old }
    {
        BinaryTable {
            bytes,
            rows: Rows::new(),
        }
    }

    // The table that the bytes are, or one with no rows where they are none. Puts go on behind its
    // last row.
    pub fn reopen(bytes: &'a mut [u8]) -> BinaryTable<'a>
        ensures rows { binary_rows result ≡ rows_or_none (opened bytes.old) }
        ensures bytes { binary_memory result ≡ bytes.old }
    {
        let Ok(found) = open(bytes) else {
            return BinaryTable::new(bytes);
        };
        BinaryTable {
            bytes,
            rows: Rows::of(&found),
        }
    }

    // The blocks in use.
    pub fn blocks(&self) -> &[u8]
        ensures { result.now ≡ binary_bytes (binary_rows self.now) }
    {
        &self.bytes[..BLOCK_BYTES * self.rows.len().div_ceil(BLOCK_ROWS)]
    }

    // Adds a row that there is room for, and writes the block that it falls into.
    fn push(&mut self, count: u32, level: u16)
        requires { length (binary_rows self.old) < binary_room (binary_memory self.old) }
        ensures rows { binary_rows self.new ≡ binary_rows self.old ++ (count, level) ∷ [] }
        ensures room { binary_room (binary_memory self.new) ≡ binary_room (binary_memory self.old) }
        ensures bytes { binary_memory self.new ≡ binary_extended (binary_memory self.old) (binary_rows self.old) (count, level) }
    {
        let BinaryTable { bytes, rows } = self;
        let number = rows.len() / BLOCK_ROWS;
        rows.push((count, level));
        let block = Block {
            number: number as u16,
            rows: &rows.as_slice()[BLOCK_ROWS * number..],
        };
        write(bytes, BLOCK_BYTES * number, &block.bytes());
    }
}

impl<'a> Holder for BinaryTable<'a> {
    ghost listed = { binary_rows };

    ghost room = { λ s. binary_room (binary_memory s) };

    ghost memory = { binary_memory };

    ghost bounded = { binary_bounded };

    ghost within = { binary_within };

    ghost cleared = { λ bs _. bs };

    ghost extended = { binary_extended };

    fn clear(&mut self) {
        self.rows.clear();
    }

    fn put(&mut self, count: u32, level: u16) -> Result<(), Fault> {
        check_put(self.rows.as_slice(), self.capacity(), count)?;
        self.push(count, level);
        Ok(())
    }

    fn row(&self, i: usize) -> Option<Row> {
        self.rows.as_slice().get(i).copied()
    }

    fn len(&self) -> usize {
        self.rows.len()
    }

    fn capacity(&self) -> usize {
        (self.bytes.len() / BLOCK_BYTES * BLOCK_ROWS).min(MAX_ROWS)
    }
}
