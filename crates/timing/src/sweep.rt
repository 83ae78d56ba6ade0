// Sweeps made up from a fixed sequence of numbers, the same at each run.
ghost use Rattle.std.specs.Prelude.{◌<◌};

use crate::stop::Stop;
use fault::Fault;
use fit::Entry;
use loss::{Band, Reading};
use measure::Order;
use std::alloc::Global;

// What a sweep is made from, and how often it is fitted where time is taken.
#[derive(Clone, Copy)]
pub struct Sweep {
    pub shape: Order,
    pub points: u32,
    pub turns: Option<u32>,
}

// A linear congruential generator of 64 bits, of which the upper 31 are given out.
#[derive(Clone, Copy)]
struct Numbers(u64);

impl Numbers {
    // The next number, brought below an end.
    fn below(&mut self, end: u32) -> u32
        requires { 0 < end }
        ensures { result < end }
    {
        self.0 = self
            .0
            .wrapping_mul(6_364_136_223_846_793_005)
            .wrapping_add(1_442_695_040_888_963_407);
        ((self.0 >> 33) % u64::from(end)) as u32
    }
}

// One point: the level read, how far a band goes up from it, and the weight.
#[derive(Clone, Copy)]
pub struct Made {
    level: u32,
    reach: u32,
    weight: u32,
}

impl TryFrom<Made> for Reading {
    type Error = Fault;

    fn try_from(made: Made) -> Result<Reading, Fault> {
        Reading::new(made.level, made.weight)
    }
}

impl TryFrom<Made> for Band {
    type Error = Fault;

    fn try_from(made: Made) -> Result<Band, Fault> {
        let high = made.level.saturating_add(made.reach).min(65_535);
        Band::new(made.level, high, made.weight)
    }
}

impl Sweep {
    // The i-th point.
    fn made(&self, numbers: &mut Numbers, i: u32) -> Made {
        let rise = 65_536 / self.points.max(1);
        let level = match self.shape {
            Order::Random => numbers.below(65_536),
            Order::Rising => rise.saturating_mul(i).saturating_add(numbers.below(4_096)),
            Order::Falling => {
                let left = self.points.saturating_sub(i).saturating_sub(1);
                rise.saturating_mul(left)
                    .saturating_add(numbers.below(4_096))
            }
        };
        Made {
            level: level.min(65_535),
            reach: numbers.below(4_096),
            weight: numbers.below(1_000) + 1,
        }
    }

    // The points, as readings or as bands.
    pub fn entries<P: TryFrom<Made, Error = Fault> + Drop>(
        &self,
        heap: Global,
    ) -> Result<Vec<Entry<P>>, Stop> {
        let mut numbers = Numbers(u64::from(self.points));
        let mut entries = Vec::new(heap);
        for count in 0..self.points {
            let point = P::try_from(self.made(&mut numbers, count))?;
            entries.push(Entry { count, point })?;
        }
        Ok(entries)
    }
}
