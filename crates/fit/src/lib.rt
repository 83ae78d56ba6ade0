// The fit: pools points, taken by rising count, into the cheapest table of levels that never falls.
#![tactic(auto)]

ghost use Rattle.std.specs.Prelude.{◌≡◌, ◌+◌, ◌-◌, ◌<◌, ◌≤◌, true, ◌∷◌, ◌++◌, length, take, drop, replicate, is_ok, if◌then◌else◌, MatchOption};
ghost use Rattle.fit.specs.Best.{summed_step};
ghost use Rattle.fit.specs.Calls.{fit_answer};
ghost use Rattle.fit.specs.Cheapest.{LeastCheapest};
ghost use Rattle.fit.specs.Crossings.{crossing_of};
ghost use Rattle.fit.specs.MaxMin.{fitted};
ghost use Rattle.fit.specs.Entries.{points_of};

use loss::Loss;
use std::iter::repeat_n;

#[cfg(test)]
mod tests;

// A point and the detector's count that it stands at.
#[derive(Clone, Copy, Debug)]
pub struct Entry<P> {
    pub count: u32,
    pub point: P,
}

// Points one behind the other, and the loss under which they are fitted.
#[derive(Drop)]
struct Run<'a, L: Loss> {
    loss: &'a L,
    entries: &'a [Entry<L::Point>],
    ghost few: { length entries.now ≤ 1024 },
}

impl<'a, L: Loss> Run<'a, L> {
    // The points from `start` to `end`.
    fn part(&self, start: usize, end: usize) -> Run<'a, L>
        requires { (start ≤ end) × (end ≤ length self.now.entries.now) }
        ensures loss { result.loss.now ≡ self.now.loss.now }
        ensures entries { result.entries.now ≡ take (end - start) (drop start self.now.entries.now) }
    {
        Run {
            loss: self.loss,
            entries: &self.entries[start..end],
        }
    }

    // The steps of the points at one level, added up.
    fn summed(&self, level: u16) -> i64
        ensures { result ≡ summed_step (L.slope self.now.loss.now) (points_of self.now.entries.now) level }
    {
        let mut sum: i64 = 0;
        for e in self.entries {
            sum += self.loss.step(&e.point, level);
        }
        sum
    }

    // The block of the points from `start` to `end`, at the crossing that the search finds for them.
    fn block(&self, start: usize, end: usize, search: Search, guess: u16) -> Block
        requires { (start ≤ end) × (end ≤ length self.now.entries.now) }
        ensures start { result.start ≡ start }
        ensures end { result.end ≡ end }
        ensures level { result.crossing.level ≡ crossing_of (L.slope self.now.loss.now) (take (end - start) (drop start self.now.entries.now)) search.from search.to }
    {
        let crossing = search.crossing(&self.part(start, end), guess);
        Block {
            start,
            end,
            crossing,
        }
    }
}

// Where the summed step of a run stops being below 0, with the summed steps just under that level and at it, as far as
// they were asked for. The two sums only tell a later search where to begin.
#[derive(Clone, Copy)]
struct Crossing {
    level: u16,
    under: i64,
    over: i64,
}

impl Crossing {
    // How fast the summed step grows about the level.
    fn growth(&self) -> i64 {
        self.over.wrapping_sub(self.under)
    }

    // Where the summed step of this run and the next together would cross 0 if each went on growing as it does about
    // its own level. Under squares that is the crossing itself.
    fn meeting(&self, next: &Crossing) -> u16 {
        let span = i64::from(self.level) - i64::from(next.level);
        let growth = self.growth().wrapping_add(next.growth());
        let lack = self
            .growth()
            .wrapping_mul(span)
            .wrapping_sub(self.over)
            .wrapping_sub(next.over);
        let rise = lack
            .wrapping_add(growth.wrapping_sub(1))
            .checked_div(growth)
            .unwrap_or(0);
        u16::try_from(rise.wrapping_add(i64::from(next.level))).unwrap_or(next.level)
    }
}

// A search for the least level from `from` to below `to` at which the summed step of a run is 0 or more, else `to`. It
// keeps the summed steps just under `from` and at `to`, as far as they were asked for.
#[derive(Clone, Copy)]
struct Search {
    from: u16,
    to: u16,
    under: i64,
    over: i64,
}

impl Search {
    fn between(low: u16, high: u16) -> Search
        ensures from { result.from ≡ low }
        ensures to { result.to ≡ high }
    {
        Search {
            from: low,
            to: high,
            under: 0,
            over: 0,
        }
    }

    // The level to ask at next, of those that are left: the nearest to a guess, else the middle.
    fn next_level(&self, guess: Option<u16>) -> Option<u16>
        ensures { MatchOption result (self.now.to ≤ self.now.from) (λ l. (self.now.from ≤ l) × (l < self.now.to)) }
    {
        if self.from >= self.to {
            return None;
        }
        match guess {
            Some(guess) => Some(guess.max(self.from).min(self.to - 1)),
            None => Some(self.from + (self.to - self.from) / 2),
        }
    }

    // Asks for the summed step at one of the levels that are left.
    fn narrow<L: Loss>(&mut self, run: &Run<L>, level: u16)
        requires { (self.old.from ≤ level) × (level < self.old.to) }
        ensures found { crossing_of (L.slope run.now.loss.now) run.now.entries.now self.new.from self.new.to ≡ crossing_of (L.slope run.now.loss.now) run.now.entries.now self.old.from self.old.to }
        ensures fewer { self.new.to - self.new.from < self.old.to - self.old.from }
    {
        let sum = run.summed(level);
        if sum < 0 {
            self.from = level + 1;
            self.under = sum;
        } else {
            self.to = level;
            self.over = sum;
        }
    }

    // Asks at the guess and at its neighbour, and then halves what is left.
    #[tactic(auto, using(crate::proofs::Bests::first_up_none))]
    fn crossing<L: Loss>(mut self, run: &Run<L>, guess: u16) -> Crossing
        ensures { result.level ≡ crossing_of (L.slope run.now.loss.now) run.now.entries.now self.from self.to }
    {
        let mut guesses = repeat_n(guess, 2);
        while let Some(level) = self.next_level(guesses.next()) {
            self.narrow(run, level);
        }
        Crossing {
            level: self.from,
            under: self.under,
            over: self.over,
        }
    }
}

// Neighbouring points that share a level: those from `start` up to `end`.
#[derive(Clone, Copy)]
struct Block {
    start: usize,
    end: usize,
    crossing: Crossing,
}

impl Block {
    // Gives the level to the places of its points.
    fn write(&self, levels: &mut [u16])
        requires { (self.now.start ≤ self.now.end) × (self.now.end ≤ length levels.old) }
        ensures { levels.new ≡ take self.now.start levels.old ++ (replicate (self.now.end - self.now.start) self.now.crossing.level ++ drop self.now.end levels.old) }
    {
        levels[self.start..self.end].fill(self.crossing.level);
    }
}

// The blocks so far, the newest at `depth - 1`. No ArrayVec by a rule of the project: the stack is a plain array of records,
// of which a pooling changes one.
#[derive(Clone, Copy)]
struct Stack {
    blocks: [Block; 1024],
    depth: usize,
    ghost within: { depth ≤ 1024 },
}

impl Stack {
    ghost use Rattle.fit.specs.Pooling.{newest_first, falling_two, spread, Covers, Stacked};

    fn new() -> Stack
        ensures { result.depth ≡ 0 }
    {
        let none = Block {
            start: 0,
            end: 0,
            crossing: Crossing {
                level: 0,
                under: 0,
                over: 0,
            },
        };
        Stack {
            blocks: [none; 1024],
            depth: 0,
        }
    }

    fn push(&mut self, block: Block)
        requires { self.old.depth < 1024 }
        ensures newest { newest_first self.new ≡ block ∷ newest_first self.old }
        ensures depth { self.new.depth ≡ self.old.depth + 1 }
    {
        let at = self.depth;
        self.blocks[at] = block;
        self.depth = at + 1;
    }

    // The two newest blocks become one.
    fn pool(&mut self, both: Block)
        requires { 2 ≤ self.old.depth }
        ensures newest { newest_first self.new ≡ both ∷ drop 2 (newest_first self.old) }
        ensures depth { self.new.depth + 1 ≡ self.old.depth }
    {
        self.depth -= 2;
        self.push(both);
    }

    // The two newest blocks, the older first, where the newest is lower than the one before.
    fn falling(&self) -> Option<(Block, Block)>
        ensures { result ≡ falling_two (newest_first self.now) }
    {
        match &self.blocks[..self.depth] {
            [.., before, newest] if newest.crossing.level < before.crossing.level => {
                Some((*before, *newest))
            }
            _ => None,
        }
    }

    // Takes in the point at `at` of the run, the first that is not in a block yet: it enters as a block of its own, and
    // blocks are pooled while the newest is lower than the one before.
    fn enter<L: Loss>(&mut self, run: &Run<L>, at: usize, top: u16)
        requires at { at < length run.now.entries.now }
        requires stacked { Stacked (L.slope run.now.loss.now) top (newest_first self.old) (points_of (take at run.now.entries.now)) }
        ensures { Stacked (L.slope run.now.loss.now) top (newest_first self.new) (points_of (take (at + 1) run.now.entries.now)) }
    {
        self.push(run.block(at, at + 1, Search::between(0, top), top / 2));
        while let Some((before, newest)) = self.falling() {
            let search = Search::between(newest.crossing.level, before.crossing.level);
            let guess = before.crossing.meeting(&newest.crossing);
            self.pool(run.block(before.start, newest.end, search, guess));
        }
    }

    // Writes the level of each point: its block's.
    fn write(&self, levels: &mut [u16])
        requires { Covers (newest_first self.now) (length levels.old) }
        ensures { levels.new ≡ spread (newest_first self.now) }
    {
        for block in &self.blocks[..self.depth] {
            block.write(levels);
        }
    }
}

// Why a fit is refused.
#[derive(Clone, Copy, PartialEq, Eq, Debug)]
pub enum Misfit {
    // There are more than 1,024 points.
    TooMany,
    // There is not one place for each point.
    Places,
}

// Fits the points, which stand by rising count, under a loss: writes the level of each, from 0 to `top`, into its place
// of `levels`. A refusal writes nothing.
pub fn fit<L: Loss>(
    loss: &L,
    entries: &[Entry<L::Point>],
    top: u16,
    levels: &mut [u16],
) -> Result<(), Misfit>
    ensures value { result ≡ fit_answer (length entries.now) (length levels.old) }
    ensures after { levels.new ≡ (if is_ok result then fitted (L.slope loss.now) top (points_of entries.now) else levels.old) }
    ensures cheapest { is_ok result ≡ true → LeastCheapest (L.cost loss.now) top (points_of entries.now) levels.new }
{
    if entries.len() > 1024 {
        return Err(Misfit::TooMany);
    }
    if levels.len() != entries.len() {
        return Err(Misfit::Places);
    }
    let run = Run { loss, entries };
    let mut stack = Stack::new();
    // By place: a block says by places of the run which points are its own.
    for i in 0..entries.len() {
        stack.enter(&run, i, top);
    }
    stack.write(levels);
    Ok(())
}
