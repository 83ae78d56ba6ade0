// What every holder of rows means and does.
ghost use Rattle.std.specs.Prelude.{◌≡◌, ℕ, ◌≤◌, List, [], ◌∷◌, ◌++◌, length, drop};
ghost use Rattle.std.specs.List.{slice_get};
ghost use Rattle.std.specs.Iterator.{YieldsFirst, item_count};
ghost use Rattle.table.specs.Rows.{put_answer, once_accepted};

use fault::{Fault, Question};

// A row: its count, at most MAX_COUNT, and its level.
pub type Row = (u32, u16);

pub const MAX_COUNT: u32 = 16_777_215;

// The most rows that any holder has room for.
pub const MAX_ROWS: usize = 1024;

// A holder keeps rows in the order they were put, as many as its capacity allows.
pub trait Holder {
    // Its rows, first put first.
    ghost listed: { Self → List (ℕ × ℕ) };

    // Its capacity, which nothing changes.
    ghost room: { Self → ℕ };

    // The memory that it writes; a holder that writes none has no bytes.
    ghost memory: { Self → List ℕ };

    // What clear makes of these bytes, with these rows held.
    ghost cleared: { List ℕ → List (ℕ × ℕ) → List ℕ };

    // What one more row makes of these bytes, with these rows held.
    ghost extended: { List ℕ → List (ℕ × ℕ) → ℕ × ℕ → List ℕ };

    // What each holder shows of itself: its capacity is at most 1,024, and it has no more rows than that.
    ghost bounded: { (s : Self) → room s ≤ 1024 };

    ghost within: { (s : Self) → length (listed s) ≤ room s };

    // Leaves no rows.
    fn clear(&mut self)
        ensures rows { listed self.new ≡ [] }
        ensures room { room self.new ≡ room self.old }
        ensures memory { memory self.new ≡ cleared (memory self.old) (listed self.old) };

    // Adds a row at the end, or changes nothing at all.
    fn put(&mut self, count: u32, level: u16) -> Result<(), Fault>
        ensures answer { result ≡ put_answer (room self.old) (listed self.old) count }
        ensures rows { listed self.new ≡ once_accepted result (listed self.old ++ (count, level) ∷ []) (listed self.old) }
        ensures room { room self.new ≡ room self.old }
        ensures memory { memory self.new ≡ once_accepted result (extended (memory self.old) (listed self.old) (count, level)) (memory self.old) };

    // Row i, counted from 0, where there are more than i rows.
    fn row(&self, i: usize) -> Option<Row>
        ensures { result ≡ slice_get (listed self.now) i };

    // The number of rows.
    fn len(&self) -> usize
        ensures { result ≡ length (listed self.now) };

    // The most rows that it can keep.
    fn capacity(&self) -> usize
        ensures { result ≡ room self.now };
}

// Goes over the rows of a holder, first to last.
#[derive(Drop)]
pub struct Iter<'a, H> {
    holder: &'a H,
    next: usize,
}

impl<'a, H: Holder> Iterator for Iter<'a, H> {
    type Item = Row;

    ghost next_gives = { YieldsFirst (λ s. drop s.next (H.listed s.holder.now)) };

    ghost remaining = { item_count (λ s. drop s.next (H.listed s.holder.now)) };

    fn next(&mut self) -> Option<Row> {
        let row = self.holder.row(self.next)?;
        self.next += 1;
        Some(row)
    }
}

// The rows of a holder, first to last.
pub fn rows<H: Holder>(holder: &H) -> Iter<'_, H>
    ensures { drop result.next (H.listed result.holder.now) ≡ H.listed holder.now }
{
    Iter { holder, next: 0 }
}

// Whether a row of this count may be put behind the rows of a holder: the first question that
// refuses it, else nothing.
pub(crate) fn check_put(rows: &[Row], capacity: usize, count: u32) -> Result<(), Fault>
    ensures { result ≡ put_answer capacity rows.now count }
{
    if count > MAX_COUNT {
        return Err(Fault::plain(Question::PutCount));
    }
    if rows.len() >= capacity {
        return Err(Fault::plain(Question::PutRoom));
    }
    Ok(())
}
