// Runs scripts through the console and compares what it writes, to the byte, with what is expected. Standard input has the
// names, one a line: NAME.in is the script and NAME.out what is expected of it. At the end it says how many worked examples
// hold.
#![tactic(auto)]

ghost use Rattle.std.specs.Prelude.{◌≡◌, ◌↔◌, IsNone};

mod stop;
#[cfg(test)]
mod tests;

use answers::console::console;
use std::io::{BufRead, BufReader};
use std::{fmt, fs};
use stop::Stop;
use worked::examples_hold;

// Where two texts differ: the first byte, counted from 1, that one of them lacks or has otherwise.
#[derive(Clone, Copy)]
struct Difference {
    byte: usize,
}

impl Difference {
    fn between(written: &[u8], expected: &[u8]) -> Option<Difference>
        ensures { IsNone result ↔ (written.now ≡ expected.now) }
    {
        let common = written.len().min(expected.len());
        match written.iter().zip(expected).position(|(a, b)| a != b) {
            Some(at) => Some(Difference { byte: at + 1 }),
            None if written.len() != expected.len() => Some(Difference { byte: common + 1 }),
            None => None,
        }
    }
}

impl fmt::Display for Difference {
    fn fmt<W: fmt::Write>(&self, f: &mut fmt::Formatter<W>) -> fmt::Result {
        let byte = self.byte;
        write!(f, "differs at byte {byte}")
    }
}

fn judge(rt: &HostRuntime, name: &str) -> Result<Option<Difference>, Stop> {
    let heap = rt.alloc();
    let script = fs::read(rt, &format!(in heap; "{name}.in")?)?;
    let expected = fs::read(rt, &format!(in heap; "{name}.out")?)?;
    let written = console(heap, &script)?;
    Ok(Difference::between(&written, &expected))
}

fn run(rt: &HostRuntime) -> Result<(), Stop> {
    let mut scripts: u64 = 0;
    let mut same: u64 = 0;
    for name in BufReader::new(rt.alloc(), rt.stdin())?.lines(rt.alloc()) {
        let name = name?;
        scripts = scripts.saturating_add(1);
        match judge(rt, &name)? {
            None => {
                same = same.saturating_add(1);
                println!(rt; "{name} ok")?;
            }
            Some(difference) => println!(rt; "{name} {difference}")?,
        }
    }
    println!(rt; "{same} of {scripts} ok")?;
    let examples = examples_hold();
    println!(rt; "{examples} worked examples hold")?;
    Ok(())
}

fn main(rt: HostRuntime) -> Result<(), Stop> {
    run(&rt).inspect_err(|stop| {
        let _ = eprintln!(rt; "scripts: {stop}");
    })
}
