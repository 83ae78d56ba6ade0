// What a level costs a point: the trait that every loss keeps, and the losses of the bench.
#![tactic(auto)]

ghost use Rattle.std.specs.Prelude.{◌≡◌, ℕ, suc, ◌^◌, ◌<◌, ℤ, pos, ◌+ℤ◌, neg_ℤ, ◌≤ℤ◌};

pub mod limit;
pub mod losses;
pub mod readings;
pub mod spans;

pub use limit::PullLimit;
pub use losses::{Absolute, Bands, Squares};
pub use readings::{Reading, TOP_LEVEL, TOP_WEIGHT};
pub use spans::Band;

// A loss gives each point a whole-number cost at every level from 0 to 65,536, and answers the step from a level to
// the next. Nothing else of a loss is known to the code that fits.
pub trait Loss {
    // What the loss measures, as a reading or a band.
    type Point;

    // How many fields such a point takes on a line of input.
    const FIELDS: usize;

    ghost cost: { Self → Self.Point → ℕ → ℤ };

    ghost slope: { Self → Self.Point → ℕ → ℤ };

    // The cost one level up less the cost at this level.
    fn step(&self, point: &Self::Point, level: u16) -> i64
        ensures value { result ≡ slope self.now point.now level }
        ensures low { neg_ℤ (pos (2 ^ 36)) ≤ℤ result }
        ensures high { result ≤ℤ pos (2 ^ 36) };

    ghost difference: { (s : Self) (p : Self.Point) (l : ℕ) → l < 2 ^ 16 → cost s p (suc l) ≡ cost s p l +ℤ slope s p l };

    ghost convex: { (s : Self) (p : Self.Point) (l : ℕ) → suc l < 2 ^ 16 → slope s p l ≤ℤ slope s p (suc l) };
}

#[cfg(test)]
mod tests {
    use super::*;
    use fault::Fault;
    use std::test::Fail;

    // The number of the question that refused, if one did.
    fn refused<P: Drop>(made: Result<P, Fault>) -> Option<u8> {
        Some(made.err()?.question.number())
    }

    #[test]
    fn only_points_in_range_are_made(rt: HostRuntime) {
        assert_eq!(rt; refused(Reading::new(65_535, 1)), None);
        assert_eq!(rt; refused(Reading::new(0, 1_000)), None);
        assert_eq!(rt; refused(Reading::new(65_536, 1)), Some(22));
        assert_eq!(rt; refused(Reading::new(0, 0)), Some(22));
        assert_eq!(rt; refused(Reading::new(0, 1_001)), Some(22));
        assert_eq!(rt; refused(Band::new(7, 7, 1)), None);
        assert_eq!(rt; refused(Band::new(0, 65_535, 1_000)), None);
        assert_eq!(rt; refused(Band::new(8, 7, 1)), Some(23));
        assert_eq!(rt; refused(Band::new(7, 65_536, 1)), Some(22));
        assert_eq!(rt; refused(Band::new(8, 7, 0)), Some(22));
    }

    #[test]
    fn a_point_keeps_its_numbers(rt: HostRuntime) -> Result<(), Fail> {
        let reading = Reading::new(40, 3)?;
        assert_eq!(rt; (reading.level(), reading.weight()), (40, 3));
        let band = Band::new(10, 20, 5)?;
        assert_eq!(rt; (band.low(), band.high(), band.weight()), (10, 20, 5));
        Ok(())
    }

    #[test]
    fn steps_by_hand(rt: HostRuntime) -> Result<(), Fail> {
        let reading = Reading::new(40, 3)?;
        assert_eq!(rt; Squares.step(&reading, 39), -3);
        assert_eq!(rt; Squares.step(&reading, 42), 15);
        assert_eq!(rt; Absolute.step(&reading, 39), -3);
        assert_eq!(rt; Absolute.step(&reading, 40), 3);
        let band = Band::new(10, 20, 5)?;
        assert_eq!(rt; Bands.step(&band, 9), -5);
        assert_eq!(rt; Bands.step(&band, 10), 0);
        assert_eq!(rt; Bands.step(&band, 19), 0);
        assert_eq!(rt; Bands.step(&band, 20), 5);
        Ok(())
    }

    #[test]
    fn a_limit_cuts_either_way(rt: HostRuntime) -> Result<(), Fail> {
        let reading = Reading::new(40, 3)?;
        let ten = PullLimit::new(Squares, 10);
        assert_eq!(rt; ten.step(&reading, 0), -10);
        assert_eq!(rt; ten.step(&reading, 40), 3);
        assert_eq!(rt; ten.step(&reading, 42), 10);
        assert_eq!(rt; PullLimit::new(ten, 4).step(&reading, 0), -4);
        assert_eq!(rt; PullLimit::new(ten, 99).step(&reading, 0), -10);
        assert_eq!(rt; PullLimit::new(ten, 0).step(&reading, 42), 0);
        Ok(())
    }

    #[test]
    fn fields_of_a_line(rt: HostRuntime) {
        assert_eq!(rt;
            (
                <Squares as Loss>::FIELDS,
                <Absolute as Loss>::FIELDS,
                <Bands as Loss>::FIELDS
            ),
            (4, 4, 5)
        );
        assert_eq!(rt; <PullLimit<Bands> as Loss>::FIELDS, 5);
    }
}
