// Fits made-up sweeps of 16, 128 and 1,024 points, and prints a checksum of the levels of each. Called with the words
// `time N` it fits 1,024 points N times, and shorter sweeps as much more often, and prints the nanoseconds of one fit too.
#![tactic(auto)]

mod stop;
mod sweep;

use fit::{Entry, fit};
use loss::{Absolute, Bands, Loss, PullLimit, Squares};
use measure::{Order, checksum, nanos_each, turns_told};
use std::env;
use std::time::Instant;
use stop::Stop;
use sweep::Sweep;

// The greatest level.
const TOP: u16 = 65_535;

// The pull limit over the squares.
const LIMIT: u32 = 1_000_000;

// Fits the entries again and again, and answers the nanoseconds of one fit.
fn time_of<L: Loss>(
    rt: &HostRuntime,
    loss: &L,
    entries: &[Entry<L::Point>],
    levels: &mut [u16],
    turns: u32,
) -> Result<u128, Stop> {
    let start = Instant::now(rt)?;
    for _ in 0..turns {
        fit(loss, entries, TOP, levels)?;
    }
    Ok(nanos_each(start.elapsed(rt)?, u64::from(turns)))
}

// Fits the entries under a loss, and prints a line.
fn measure<L: Loss>(
    rt: &HostRuntime,
    name: &str,
    loss: &L,
    sweep: &Sweep,
    entries: &[Entry<L::Point>],
) -> Result<(), Stop> {
    let mut levels = vec![in rt.alloc(); 0; entries.len()]?;
    fit(loss, entries, TOP, &mut levels)?;
    let sum = checksum(&levels);
    let shape = sweep.shape;
    let points = sweep.points;
    print!(rt; "{name} {shape} {points} {sum:016x}")?;
    if let Some(turns) = sweep.turns {
        let nanos = time_of(rt, loss, entries, &mut levels, turns)?;
        print!(rt; " {nanos}")?;
    }
    println!(rt)?;
    Ok(())
}

fn measure_all(rt: &HostRuntime, sweep: &Sweep) -> Result<(), Stop> {
    let readings = sweep.entries(rt.alloc())?;
    let bands = sweep.entries(rt.alloc())?;
    measure(rt, "squares", &Squares, sweep, &readings)?;
    measure(rt, "absolute", &Absolute, sweep, &readings)?;
    measure(rt, "bands", &Bands, sweep, &bands)?;
    measure(
        rt,
        "limited",
        &PullLimit::new(Squares, LIMIT),
        sweep,
        &readings,
    )
}

fn run(rt: &HostRuntime) -> Result<(), Stop> {
    let words = env::args(rt)?.skip(1).collect::<Vec<String>>(rt.alloc())?;
    let asked = turns_told(&words)?;
    for (points, often) in [(16, 64), (128, 8), (1_024, 1)] {
        let turns = asked.map(|turns| turns.saturating_mul(often));
        for shape in [Order::Random, Order::Rising, Order::Falling] {
            measure_all(
                rt,
                &Sweep {
                    shape,
                    points,
                    turns,
                },
            )?;
        }
    }
    Ok(())
}

fn main(rt: HostRuntime) -> Result<(), Stop> {
    run(&rt).inspect_err(|stop| {
        if let Stop::Usage = stop {
            let _ = eprintln!(rt; "{stop}");
        }
    })
}
