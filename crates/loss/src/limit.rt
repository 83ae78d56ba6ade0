// A layer over any loss.
ghost use Rattle.loss.specs.Limits.{pull_cut, steps_below};
ghost use Rattle.std.specs.Prelude.{◌≡◌};
ghost use Rattle.std.proofs.Common.{rules};

use super::Loss;

// The loss below, with no step greater than the limit either way, so that no point pulls harder than that.
#[derive(Clone, Copy, PartialEq, Eq, Debug)]
pub struct PullLimit<L> {
    below: L,
    limit: u32,
}

impl<L> PullLimit<L> {
    pub fn new(below: L, limit: u32) -> PullLimit<L>
        ensures { result ≡ record { below = below; limit = limit } }
    {
        PullLimit { below, limit }
    }
}

impl<L: Loss> Loss for PullLimit<L> {
    type Point = L::Point;

    const FIELDS: usize = L::FIELDS;

    ghost cost = { λ s p. steps_below (λ l. pull_cut s.limit (L.Loss.slope s.below p l)) };

    ghost slope = { λ s p l. pull_cut s.limit (L.Loss.slope s.below p l) };

    ghost difference = { Prim.search rules };

    ghost convex = { Prim.search rules };

    fn step(&self, point: &L::Point, level: u16) -> i64 {
        let limit = i64::from(self.limit);
        self.below.step(point, level).clamp(-limit, limit)
    }
}
