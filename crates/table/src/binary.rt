// The binary holder: a table in lent bytes, in blocks of 512.
ghost use Rattle.std.specs.Prelude.{◌≡◌, ◌*◌, ◌≤◌, length, take};
ghost use Rattle.table.specs.Binary.{block_count, binary_bytes, binary_room};

use crate::rows::Rows;

mod calls;

pub use crate::block::sum_bytes;

// A table over lent bytes. The rows stand beside their blocks, so that asking for one reads no block.
#[derive(Drop)]
pub struct BinaryTable<'a> {
    bytes: &'a mut [u8],
    rows: Rows,
    ghost fits: { length rows ≤ binary_room bytes.now },
    // The blocks in use are the blocks of the rows.
    ghost blocks: { take (512 * block_count (length rows)) bytes.now ≡ binary_bytes rows },
}
