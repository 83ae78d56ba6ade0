// The points that lines give.
ghost use Rattle.std.specs.Prelude.{◌≡◌, ℕ, List, Result as Outcome};
ghost use Rattle.fault.specs.declared.Fault.{Fault as Refusal};
ghost use Rattle.lines.specs.Points.{reading_told, band_told};

use crate::line::Line;
use fault::{Fault, Question};
use loss::{Band, Reading, TOP_LEVEL, TOP_WEIGHT};

// A kind of point that a line can give, behind its letter and its count.
pub trait LinePoint: Copy {
    // The point of the line of this number and these bytes, or its refusal.
    ghost told: { ℕ → List ℕ → Outcome Self Refusal };

    fn read(line: &Line<'_>) -> Result<Self, Fault>
        ensures { result ≡ told line.now.number line.now.bytes.now };
}

impl LinePoint for Reading {
    ghost told = { reading_told };

    fn read(line: &Line<'_>) -> Result<Reading, Fault> {
        let level = line.number(2, 0..=TOP_LEVEL)?;
        let weight = line.number(3, 1..=TOP_WEIGHT)?;
        Reading::new(level, weight)
    }
}

impl LinePoint for Band {
    ghost told = { band_told };

    fn read(line: &Line<'_>) -> Result<Band, Fault> {
        let low = line.number(2, 0..=TOP_LEVEL)?;
        let high = line.number(3, 0..=TOP_LEVEL)?;
        let weight = line.number(4, 1..=TOP_WEIGHT)?;
        if low > high {
            return Err(line.fault(Question::BandEnds, line.column(2)));
        }
        Band::new(low, high, weight)
    }
}
