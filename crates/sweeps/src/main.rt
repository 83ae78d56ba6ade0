// Fits the sweeps of its standard input, one a line, and prints the levels of each:
//
//     loss limit top : point point .. : anything
//
// The loss is s for squares, a for absolute or b for bands; the limit is the pull limit, or - for none. A point is
// level/weight, and under bands low/high/weight. A line that begins with # is skipped.
#![tactic(auto)]

mod stop;
mod text;

use fit::{Entry, fit};
use lines::verbs::LossName;
use loss::{Absolute, Bands, Loss, PullLimit, Squares};
use std::alloc::Global;
use std::io::{BufRead, BufReader};
use stop::Stop;
use text::{FromText, Sweep};

// The points of a sweep. A line tells no counts, so the points are numbered.
fn entries<P: FromText + Drop>(heap: Global, points: &str) -> Result<Vec<Entry<P>>, Stop> {
    points
        .split_whitespace()
        .zip(0..)
        .map(|(word, count)| {
            let point = P::from_text(word)?;
            Ok(Entry { count, point })
        })
        .try_collect(heap)
}

fn levels<L: Loss>(heap: Global, loss: &L, sweep: &Sweep<'_>) -> Result<Vec<u16>, Stop>
where
    L::Point: FromText + Drop,
{
    let points = entries::<L::Point>(heap, sweep.points)?;
    let mut levels = vec![in heap; 0; points.len()]?;
    fit(loss, &points, sweep.top, &mut levels)?;
    Ok(levels)
}

// The levels under a loss, with the sweep's pull limit over it.
fn limited<L: Loss + Drop>(heap: Global, loss: L, sweep: &Sweep<'_>) -> Result<Vec<u16>, Stop>
where
    L::Point: FromText + Drop,
{
    match sweep.limit {
        None => levels(heap, &loss, sweep),
        Some(limit) => levels(heap, &PullLimit::new(loss, limit), sweep),
    }
}

fn fitted(heap: Global, sweep: &Sweep<'_>) -> Result<Vec<u16>, Stop> {
    match sweep.loss {
        LossName::Squares => limited(heap, Squares, sweep),
        LossName::Absolute => limited(heap, Absolute, sweep),
        LossName::Bands => limited(heap, Bands, sweep),
    }
}

// Levels with single spaces between.
fn joined(heap: Global, levels: &[u16]) -> Result<String, Stop> {
    let mut line = String::new(heap);
    for level in levels {
        if !line.is_empty() {
            line.push(' ')?;
        }
        write!(line, "{level}")?;
    }
    Ok(line)
}

fn answer(heap: Global, line: &str) -> Result<String, Stop> {
    let sweep = Sweep::try_from(line)?;
    joined(heap, &fitted(heap, &sweep)?)
}

// As in `tables`: to share it, a third crate would have to ask that its closure may be called.
fn run(rt: &HostRuntime) -> Result<(), Stop> {
    for line in BufReader::new(rt.alloc(), rt.stdin())?.lines(rt.alloc()) {
        let line = line?;
        if !line.starts_with('#') {
            rt.println(answer(rt.alloc(), &line)?)?;
        }
    }
    Ok(())
}

fn main(rt: HostRuntime) -> Result<(), Stop> {
    run(&rt).inspect_err(|stop| {
        let _ = eprintln!(rt; "sweeps: {stop}");
    })
}
