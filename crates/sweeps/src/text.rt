// The text of a sweep.
use crate::stop::Stop;
use lines::verbs::LossName;
use loss::{Band, Reading};

// A line of input, its points not yet read.
#[derive(Clone, Copy)]
pub struct Sweep<'a> {
    pub loss: LossName,
    pub limit: Option<u32>,
    pub top: u16,
    pub points: &'a str,
}

fn loss_from_word(word: &str) -> Result<LossName, Stop> {
    match word.as_bytes() {
        [letter] => LossName::of(*letter).ok_or(Stop::Line),
        _ => Err(Stop::Line),
    }
}

fn limit_from_word(word: &str) -> Result<Option<u32>, Stop> {
    if word == "-" {
        return Ok(None);
    }
    Ok(Some(word.parse()?))
}

impl<'a> TryFrom<&'a str> for Sweep<'a> {
    type Error = Stop;

    fn try_from(line: &'a str) -> Result<Sweep<'a>, Stop> {
        let mut parts = line.split(':');
        let (Some(head), Some(points)) = (parts.next(), parts.next()) else {
            return Err(Stop::Line);
        };
        let mut words = head.split_whitespace();
        let (Some(loss), Some(limit), Some(top), None) = (
            words.next(),
            words.next(),
            words.next(),
            words.next(),
        ) else {
            return Err(Stop::Line);
        };
        Ok(Sweep {
            loss: loss_from_word(loss)?,
            limit: limit_from_word(limit)?,
            top: top.parse()?,
            points,
        })
    }
}

// So many numbers, with strokes between. That there are so many is asked before what each is.
fn numbers<const N: usize>(word: &str) -> Result<[u32; N], Stop> {
    let mut parts = word.split('/');
    let mut numbers = [0; N];
    let mut numeric = true;
    for number in &mut numbers {
        match parts.next().ok_or(Stop::Line)?.parse() {
            Ok(n) => *number = n,
            Err(_) => numeric = false,
        }
    }
    if parts.next().is_some() {
        return Err(Stop::Line);
    }
    if !numeric {
        return Err(Stop::Number);
    }
    Ok(numbers)
}

// A point as it is written.
pub trait FromText: Sized {
    fn from_text(word: &str) -> Result<Self, Stop>;
}

impl FromText for Reading {
    fn from_text(word: &str) -> Result<Reading, Stop> {
        let [level, weight] = numbers::<2>(word)?;
        Ok(Reading::new(level, weight)?)
    }
}

impl FromText for Band {
    fn from_text(word: &str) -> Result<Band, Stop> {
        let [low, high, weight] = numbers::<3>(word)?;
        Ok(Band::new(low, high, weight)?)
    }
}
