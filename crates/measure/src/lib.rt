// What the programs that take time share: how they are called, how they tell outputs apart, and how time is told.
#![tactic(auto)]

ghost use Rattle.std.specs.Prelude.{◌≡◌, ◌/◌, Some};
ghost use Rattle.std.specs.List.{FoldsTo};
ghost use Rattle.std.specs.Duration.{as_nanos};
ghost use Rattle.measure.specs.Checksums.{Mixes};
ghost use Rattle.measure.specs.Calls.{TurnsTold};
ghost use Rattle.measure.specs.Orders.{order_name};

use std::fmt;
use std::time::Duration;
use thiserror::Error;

// The words of a call are neither none nor `time` and a number.
#[derive(Clone, Copy, Debug, Error)]
#[error("usage: [time N]")]
pub struct Usage;

// How made-up numbers follow one another.
#[derive(Clone, Copy, PartialEq, Eq, Debug)]
pub enum Order {
    Random,
    Rising,
    Falling,
}

impl fmt::Display for Order {
    ghost output = { λ o. Some (order_name o) };

    fn fmt<W: fmt::Write>(&self, f: &mut fmt::Formatter<W>) -> fmt::Result {
        f.write_str(match self {
            Order::Random => "random",
            Order::Rising => "rising",
            Order::Falling => "falling",
        })
    }
}

// How often a program is to run what it times, by the words of its call; with no word it takes no time.
pub fn turns_told(words: &[String]) -> Result<Option<u32>, Usage>
    ensures { TurnsTold words.now result }
{
    match words {
        [] => Ok(None),
        [word, turns, ..] if word.as_str() == "time" => {
            Ok(Some(turns.parse().map_err(|_| Usage)?))
        }
        _ => Err(Usage),
    }
}

// Tells lists of numbers apart.
pub fn checksum<T: Copy + Into<u64>>(numbers: &[T]) -> u64
    ensures { FoldsTo (Mixes T.converts) 0 numbers.now result }
{
    let mut sum: u64 = 0;
    for number in numbers {
        let value: u64 = (*number).into();
        sum = sum.wrapping_mul(1_000_003).wrapping_add(value);
    }
    sum
}

// The nanoseconds of one of so many calls that took so long together, rounded down; 0 of no call.
pub fn nanos_each(spent: Duration, calls: u64) -> u128
    ensures { result ≡ as_nanos spent / calls }
{
    spent.as_nanos().checked_div(u128::from(calls)).unwrap_or(0)
}
