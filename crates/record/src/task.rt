// The task: the calls of a run as they are planned and printed.
use bench::{Answer, Request};
use fault::Fault;
use loss::{PullLimit, Reading, Squares};
use std::fmt;

// A call of the task. A lay is of squares, under a pull limit or none.
#[derive(Clone, Copy)]
pub enum Step {
    // A count, the level read there and its weight.
    Add(u32, u32, u32),
    Drop(u32),
    Lay(Option<u32>),
    Convert(u32),
}

impl Step {
    // The call as the bench takes it. No step of squares reaches the greatest limit, so that one cuts nothing.
    pub fn request(self) -> Result<Request<Reading, PullLimit<Squares>>, Fault> {
        Ok(match self {
            Step::Add(count, level, weight) => Request::Add(count, Reading::new(level, weight)?),
            Step::Drop(count) => Request::Drop(count),
            Step::Lay(limit) => { Request::Lay(PullLimit::new(Squares, limit.unwrap_or(u32::MAX))) }
            Step::Convert(count) => Request::Convert(count),
        })
    }
}

impl fmt::Display for Step {
    fn fmt<W: fmt::Write>(&self, f: &mut fmt::Formatter<W>) -> fmt::Result {
        match self {
            Step::Add(count, level, weight) => write!(f, "add {count} {level}x{weight}"),
            Step::Drop(count) => write!(f, "drop {count}"),
            Step::Lay(None) => f.write_str("lay squares"),
            Step::Lay(Some(limit)) => write!(f, "lay squares, no pull above {limit}"),
            Step::Convert(count) => write!(f, "convert {count}"),
        }
    }
}

// An answer in words.
#[derive(Clone, Copy)]
pub struct Told(pub Answer);

impl fmt::Display for Told {
    fn fmt<W: fmt::Write>(&self, f: &mut fmt::Formatter<W>) -> fmt::Result {
        match self.0 {
            Answer::Done => f.write_str("ok"),
            Answer::Level(level) => write!(f, "level {level}"),
            Answer::Refused(fault) => {
                let layer = fault.question.layer();
                let number = fault.question.number();
                write!(f, "refused, layer {layer} number {number}")
            }
        }
    }
}

// A sweep of 12 points in mixed order. The level at 7,000 is far off; the point at 6,500 is dropped again.
pub const TASK: [Step; 35] = [
    Step::Convert(5_000),
    Step::Lay(None),
    Step::Add(5_000, 40, 20),
    Step::Add(1_000, 12, 10),
    Step::Add(12_000, 118, 10),
    Step::Add(3_000, 22, 5),
    Step::Add(9_000, 90, 10),
    Step::Add(3_000, 30, 5),
    Step::Add(7_000, 300, 4),
    Step::Add(2_000, 25, 10),
    Step::Add(16_777_216, 500, 1),
    Step::Add(11_000, 110, 10),
    Step::Add(4_000, 41, 10),
    Step::Add(6_500, 64, 1),
    Step::Add(6_000, 58, 10),
    Step::Add(10_000, 86, 5),
    Step::Add(8_000, 77, 10),
    Step::Add(13_000, 130, 1),
    Step::Drop(7),
    Step::Drop(6_500),
    Step::Convert(5_000),
    Step::Lay(None),
    Step::Convert(1_000),
    Step::Convert(7_000),
    Step::Convert(6_500),
    Step::Convert(11_999),
    Step::Convert(12_000),
    Step::Convert(999),
    Step::Convert(12_001),
    Step::Lay(Some(200)),
    Step::Convert(7_000),
    Step::Convert(6_500),
    Step::Convert(10_500),
    Step::Convert(999),
    Step::Convert(4_294_967_295),
];
