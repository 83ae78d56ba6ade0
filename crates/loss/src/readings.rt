// Readings. Their fields are closed, so that each one that exists was made by `new`, within its ranges.
ghost use Rattle.loss.specs.Points.{reading_of, SoundReading};
ghost use Rattle.std.specs.Prelude.{◌≡◌, IfOk};

use fault::{Fault, Question};

// The greatest level of any point.
pub const TOP_LEVEL: u32 = 65_535;

// The greatest weight of any point.
pub const TOP_WEIGHT: u32 = 1_000;

// One measured level, and how much it weighs.
#[derive(Clone, Copy, PartialEq, Eq, Debug)]
pub struct Reading {
    level: u16,
    weight: u16,
}

impl Reading {
    // A level up to 65,535 with a weight from 1 to 1,000.
    pub fn new(level: u32, weight: u32) -> Result<Reading, Fault>
        ensures value { result ≡ reading_of level weight }
        ensures ranges { IfOk result SoundReading }
    {
        if level > TOP_LEVEL || weight < 1 || weight > TOP_WEIGHT {
            return Err(Fault::plain(Question::PointRange));
        }
        Ok(Reading {
            level: level as u16,
            weight: weight as u16,
        })
    }

    // The lightest reading of level 0, for a place that no point has filled yet.
    pub fn lightest() -> Reading
        ensures value { result ≡ record { level = 0; weight = 1 } }
        ensures ranges { SoundReading result }
    {
        Reading {
            level: 0,
            weight: 1,
        }
    }

    pub fn level(&self) -> u16
        ensures { result ≡ self.now.level }
    {
        self.level
    }

    pub fn weight(&self) -> u16
        ensures { result ≡ self.now.weight }
    {
        self.weight
    }
}
