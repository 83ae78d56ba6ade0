// The point list: entries by rising count, in lent memory.
ghost use Rattle.std.specs.Prelude.{◌≡◌, ◌+◌, ◌<◌, ◌≤◌, Err, not, [], ◌++◌, length, take, drop, nat_lt};
ghost use Rattle.std.specs.List.{insert, remove};
ghost use Rattle.std.specs.List.Sorted.{IsSearchInRange};
ghost use Rattle.bench.specs.Held.{places_of, found_place, Ordered, Ordered-prop, with_point, memory_with};

use fit::Entry;

// The most points that a list holds, whatever its memory.
pub(super) const MAX_POINTS: usize = 1024;

// The points held: the first `held` entries of a slice, by rising count. The slice stands beside that number, and is no
// Vec, since the caller lends the memory.
#[derive(Drop)]
pub(super) struct PointList<'a, P> {
    entries: &'a mut [Entry<P>],
    held: usize,
    ghost few: { held ≤ places_of entries.now },
    ghost order: { Ordered (take held entries.now) } by { Ordered-prop (take held entries.now) },
}

impl<'a, P: Copy> PointList<'a, P> {
    // A list of no points, whatever stands in the memory.
    pub(super) fn new(entries: &'a mut [Entry<P>]) -> PointList<'a, P>
        ensures none { take result.held result.entries.now ≡ [] }
        ensures memory { result.entries.now ≡ entries.old }
    {
        PointList { entries, held: 0 }
    }

    // The points.
    pub(super) fn points(&self) -> &[Entry<P>]
        ensures { result.now ≡ take self.now.held self.now.entries.now }
    {
        &self.entries[..self.held]
    }

    // Is there no place for one point more?
    pub(super) fn is_full(&self) -> bool
        ensures { result ≡ not (nat_lt (length (take self.now.held self.now.entries.now)) (places_of self.now.entries.now)) }
    {
        self.held >= self.entries.len().min(MAX_POINTS)
    }

    // Where the point of a count stands, or else where it would.
    pub(super) fn find(&self, count: u32) -> Result<usize, usize>
        ensures bound { IsSearchInRange result (length (take self.now.held self.now.entries.now)) }
        ensures place { result ≡ found_place count (take self.now.held self.now.entries.now) }
    {
        // Those of lower count lie first.
        let points = self.points();
        let at = points.partition_point(|e| e.count < count);
        match points.get(at) {
            Some(e) if e.count == count => Ok(at),
            _ => Err(at),
        }
    }

    // One point more, at the place where it belongs.
    #[tactic(auto, using(crate::proofs::Places::put_at, crate::proofs::Orders::held_with, crate::proofs::Orders::ordered_with))]
    pub(super) fn insert(&mut self, at: usize, entry: Entry<P>)
        requires range { entry.count ≤ 16777215 }
        requires bound { at ≤ self.old.held }
        requires place { Err at ≡ found_place entry.count (take self.old.held self.old.entries.now) }
        requires room { self.old.held < places_of self.old.entries.now }
        ensures points { take self.new.held self.new.entries.now ≡ with_point entry (take self.old.held self.old.entries.now) }
        ensures memory { self.new.entries.now ≡ memory_with entry (take self.old.held self.old.entries.now) self.old.entries.now }
        ensures places { length self.new.entries.now ≡ length self.old.entries.now }
    {
        insert(self.entries, self.held, at, entry);
        self.held += 1;
    }

    // One point less.
    #[tactic(auto, using(crate::proofs::Orders::held_removed, crate::proofs::Orders::ordered_removed))]
    pub(super) fn remove(&mut self, at: usize)
        requires { at < self.old.held }
        ensures points { take self.new.held self.new.entries.now ≡ remove (take self.old.held self.old.entries.now) at }
        ensures memory { self.new.entries.now ≡ remove (take self.old.held self.old.entries.now) at ++ (take 1 (drop at self.old.entries.now) ++ drop self.old.held self.old.entries.now) }
        ensures places { length self.new.entries.now ≡ length self.old.entries.now }
    {
        remove(self.entries, self.held, at);
        self.held -= 1;
    }
}

// Puts an entry at a place of the first `held` entries; those from there on move up by one.
#[tactic(auto, using(crate::proofs::Gaps::gap_opened))]
fn insert<P: Copy>(entries: &mut [Entry<P>], held: usize, at: usize, entry: Entry<P>)
    requires { (at ≤ held) × (held < length entries.old) }
    ensures { entries.new ≡ insert (take held entries.old) at entry ++ drop (held + 1) entries.old }
{
    entries[at..held + 1].rotate_right(1);
    entries[at] = entry;
}

// Takes the entry at a place out of the first `held`; those behind it move down by one, and it stands behind them.
#[tactic(auto, using(crate::proofs::Gaps::gap_closed))]
fn remove<P: Copy>(entries: &mut [Entry<P>], held: usize, at: usize)
    requires { (at < held) × (held ≤ length entries.old) }
    ensures { entries.new ≡ remove (take held entries.old) at ++ (take 1 (drop at entries.old) ++ drop held entries.old) }
{
    entries[at..held].rotate_left(1);
}
