// Bands of levels. Their fields are closed too.
ghost use Rattle.loss.specs.Points.{band_of, SoundBand};
ghost use Rattle.std.specs.Prelude.{◌≡◌, IfOk};

use super::readings::{TOP_LEVEL, TOP_WEIGHT};
use fault::{Fault, Question};

// All levels from `low` to `high`, and how much they weigh.
#[derive(Clone, Copy, PartialEq, Eq, Debug)]
pub struct Band {
    low: u16,
    high: u16,
    weight: u16,
}

impl Band {
    // Two levels up to 65,535, the lower one first, with a weight from 1 to 1,000.
    pub fn new(low: u32, high: u32, weight: u32) -> Result<Band, Fault>
        ensures value { result ≡ band_of low high weight }
        ensures ranges { IfOk result SoundBand }
    {
        if low > TOP_LEVEL || high > TOP_LEVEL || weight < 1 || weight > TOP_WEIGHT {
            return Err(Fault::plain(Question::PointRange));
        }
        if low > high {
            return Err(Fault::plain(Question::BandEnds));
        }
        Ok(Band {
            low: low as u16,
            high: high as u16,
            weight: weight as u16,
        })
    }

    // The lightest band of level 0 alone, for a place that no point has filled yet.
    pub fn lightest() -> Band
        ensures value { result ≡ record { low = 0; high = 0; weight = 1 } }
        ensures ranges { SoundBand result }
    {
        Band {
            low: 0,
            high: 0,
            weight: 1,
        }
    }

    pub fn low(&self) -> u16
        ensures { result ≡ self.now.low }
    {
        self.low
    }

    pub fn high(&self) -> u16
        ensures { result ≡ self.now.high }
    {
        self.high
    }

    pub fn weight(&self) -> u16
        ensures { result ≡ self.now.weight }
    {
        self.weight
    }
}
