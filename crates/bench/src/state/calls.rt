// What a bench does.
ghost use Rattle.std.specs.Prelude.{◌≡◌, ℕ, List, [], ◌∷◌};
ghost use Rattle.table.specs.Convert.{conversion};
ghost use Rattle.table.specs.Rows.{once_accepted, bytes_after};
ghost use Rattle.bench.specs.Held.{places_of, with_point, without, memory_with, memory_without, add_answer, drop_answer, lay_answer, laid_rows};
ghost use Rattle.bench.specs.Runs.{History};
ghost use Rattle.bench.specs.Runs.Event.{added, dropped, laid, converted};
ghost use Rattle.bench.specs.State.{held_of, memory_of, Kept};

use crate::list::PointList;
use crate::rows::lay_rows;
use crate::state::Bench;
use fault::{Fault, Question};
use fit::Entry;
use loss::Loss;
use table::convert::convert;
use table::holder::{Holder, MAX_COUNT};

// The clauses `top`, `room` and `places` are written at each call: no invariant can say that a value stays.
impl<'a, P: Copy> Bench<'a, P> {
    // A bench with no points, whatever stands in the memory.
    pub fn open(memory: &'a mut [Entry<P>], top: u16) -> Bench<'a, P>
        ensures held { held_of result ≡ [] }
        ensures memory { memory_of result ≡ memory.old }
        ensures top { result.top ≡ top }
        ensures law { (room : ℕ) → Kept result room [] [] }
    {
        Bench {
            list: PointList::new(memory),
            top,
        }
    }

    // Takes a point in at its count, among those held by rising count.
    pub fn add(&mut self, count: u32, point: P) -> Result<(), Fault>
        ensures answer { result ≡ add_answer (places_of (memory_of self.old)) (held_of self.old) count }
        ensures held { held_of self.new ≡ once_accepted result (with_point (record { count = count; point = point }) (held_of self.old)) (held_of self.old) }
        ensures memory { memory_of self.new ≡ once_accepted result (memory_with (record { count = count; point = point }) (held_of self.old) (memory_of self.old)) (memory_of self.old) }
        ensures top { self.new.top ≡ self.old.top }
        ensures places { places_of (memory_of self.new) ≡ places_of (memory_of self.old) }
        ensures law { (room : ℕ) (rs : List (ℕ × ℕ)) (h : History P) → Kept self.old room rs h → Kept self.new room rs (added count point result ∷ h) }
    {
        if count > MAX_COUNT {
            return Err(Fault::plain(Question::AddCount));
        }
        let Err(at) = self.list.find(count) else {
            return Err(Fault::plain(Question::AddTwice));
        };
        if self.list.is_full() {
            return Err(Fault::plain(Question::AddFull));
        }
        self.list.insert(at, Entry { count, point });
        Ok(())
    }

    // Lets the point of a count go. Its place can be filled again.
    #[tactic(auto, using(crate::proofs::Places::taken_at, crate::proofs::Steps::step_drop))]
    pub fn drop(&mut self, count: u32) -> Result<(), Fault>
        ensures answer { result ≡ drop_answer (held_of self.old) count }
        ensures held { held_of self.new ≡ once_accepted result (without count (held_of self.old)) (held_of self.old) }
        ensures memory { memory_of self.new ≡ once_accepted result (memory_without count (held_of self.old) (memory_of self.old)) (memory_of self.old) }
        ensures top { self.new.top ≡ self.old.top }
        ensures places { places_of (memory_of self.new) ≡ places_of (memory_of self.old) }
        ensures law { (room : ℕ) (rs : List (ℕ × ℕ)) (h : History P) → Kept self.old room rs h → Kept self.new room rs (dropped count result ∷ h) }
    {
        let Ok(at) = self.list.find(count) else {
            return Err(Fault::plain(Question::DropNone));
        };
        self.list.remove(at);
        Ok(())
    }

    // Lays the table of the points held in a holder: a row for each, by rising count, in the place of the rows there.
    pub fn lay<L: Loss<Point = P>, H: Holder>(&self, loss: &L, holder: &mut H) -> Result<(), Fault>
        ensures answer { result ≡ lay_answer (H.room holder.old) (held_of self.now) }
        ensures rows { H.listed holder.new ≡ once_accepted result (laid_rows (L.slope loss.now) self.now.top (held_of self.now)) (H.listed holder.old) }
        ensures room { H.room holder.new ≡ H.room holder.old }
        ensures memory { H.memory holder.new ≡ once_accepted result (bytes_after H.extended (H.cleared (H.memory holder.old) (H.listed holder.old)) [] (laid_rows (L.slope loss.now) self.now.top (held_of self.now))) (H.memory holder.old) }
        ensures law { (h : History P) → Kept self.now (H.room holder.old) (H.listed holder.old) h → Kept self.now (H.room holder.new) (H.listed holder.new) (laid (L.cost loss.now) result (H.listed holder.new) ∷ h) }
    {
        let points = self.list.points();
        if points.is_empty() {
            return Err(Fault::plain(Question::LayNone));
        }
        if holder.capacity() < points.len() {
            return Err(Fault::plain(Question::LayRoom));
        }
        lay_rows(loss, points, self.top, holder)
    }

    // The level of a count by the rows of a holder.
    #[tactic(auto, using(crate::proofs::Steps::step_convert))]
    pub fn convert<H: Holder>(&self, holder: &H, count: u32) -> Result<u16, Fault>
        ensures answer { result ≡ conversion (H.listed holder.now) count }
        ensures law { (h : History P) → Kept self.now (H.room holder.now) (H.listed holder.now) h → Kept self.now (H.room holder.now) (H.listed holder.now) (converted count result ∷ h) }
    {
        convert(holder, count)
    }
}
