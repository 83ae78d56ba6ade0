// The bytes of one block.
ghost use Rattle.std.specs.Prelude.{◌≡◌, ◌+◌, ◌*◌, ◌≤◌, length};
ghost use Rattle.std.specs.List.{flat_map};
ghost use Rattle.table.specs.Text.{over};
ghost use Rattle.table.specs.Binary.{row_bytes, block_head, block_places, block_body, sum_bytes, block_bytes};

use crate::holder::Row;

pub const BLOCK_BYTES: usize = 512;

// The most rows in a block.
pub const BLOCK_ROWS: usize = 62;

// The bytes that the sums are taken of: all but the sums themselves.
pub const SUMMED_BYTES: usize = 508;

// Both sums, as they stand at the end of a block whose other bytes these are.
pub fn sum_bytes(bytes: &[u8]) -> [u8; 4]
    ensures { result ≡ sum_bytes bytes.now }
{
    let mut first: u16 = 0;
    let mut second: u16 = 0;
    for byte in bytes {
        first = first.wrapping_add(u16::from(*byte));
        second = second.wrapping_add(first);
    }
    let [a, b] = first.to_le_bytes();
    let [c, d] = second.to_le_bytes();
    [a, b, c, d]
}

// Writes bytes over others from a place on.
pub fn write(bytes: &mut [u8], at: usize, part: &[u8])
    requires { at + length part.now ≤ length bytes.old }
    ensures { bytes.new ≡ over bytes.old at part.now }
{
    let end = at + part.len();
    bytes[at..end].copy_from_slice(part);
}

fn row_bytes(row: Row) -> [u8; 8]
    ensures { result ≡ row_bytes row }
{
    let (count, level) = row;
    let [c0, c1, c2, c3] = count.to_le_bytes();
    let [l0, l1] = level.to_le_bytes();
    [c0, c1, c2, c3, l0, l1, 0, 0]
}

// Writes rows over the first bytes, 8 for each.
fn write_rows(bytes: &mut [u8], rows: &[Row])
    requires { 8 * length rows.now ≤ length bytes.old }
    ensures { bytes.new ≡ over bytes.old 0 (flat_map row_bytes rows.now) }
{
    // By `chunks_exact_mut` the proof does not close: no clause says what was written through the chunks.
    for (i, row) in rows.iter().enumerate() {
        write(bytes, 8 * i, &row_bytes(*row));
    }
}

// A block by its number and its rows.
#[derive(Clone, Copy)]
pub struct Block<'a> {
    pub number: u16,
    pub rows: &'a [Row],
    ghost few: { length rows.now ≤ 62 },
}

impl<'a> Block<'a> {
    // Its head: the mark, how many rows it has, and its number.
    pub fn head(&self) -> [u8; 8]
        ensures { result ≡ block_head self.now.number (length self.now.rows.now) }
    {
        let [n0, n1] = self.number.to_le_bytes();
        [0x4D, 0x54, self.rows.len() as u8, 0, n0, n1, 0, 0]
    }

    // What stands between the head and the sums.
    pub fn places(&self) -> [u8; 500]
        ensures { result ≡ block_places self.now.rows.now }
    {
        let mut places = [0; 500];
        write_rows(&mut places, self.rows);
        places
    }

    // All of it but its sums.
    fn body(&self) -> [u8; SUMMED_BYTES]
        ensures { result ≡ block_body self.now.number self.now.rows.now }
    {
        let mut body = [0; SUMMED_BYTES];
        write(&mut body, 0, &self.head());
        write(&mut body, 8, &self.places());
        body
    }

    // All of its bytes.
    pub fn bytes(&self) -> [u8; BLOCK_BYTES]
        ensures { result ≡ block_bytes self.now.number self.now.rows.now }
    {
        let body = self.body();
        let mut bytes = [0; BLOCK_BYTES];
        write(&mut bytes, 0, &body);
        write(&mut bytes, SUMMED_BYTES, &sum_bytes(&body));
        bytes
    }
}
