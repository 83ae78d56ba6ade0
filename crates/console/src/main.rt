// Answers the script of its standard input: a line for each line, and at the end the rows of the table.
#![tactic(auto)]

mod stop;

use answers::console::{MAX_INPUT, console};
use std::io::{Read, Write};
use stop::Stop;

fn run(rt: &HostRuntime) -> Result<(), Stop> {
    let heap = rt.alloc();
    let mut input = Vec::new(heap);
    // One byte past the limit tells that an input is too long, so no more of it is read.
    rt.stdin()
        .take(MAX_INPUT as u64 + 1)
        .read_to_end(&mut input)?;
    let output = console(heap, &input)?;
    rt.stdout().write_all(&output)?;
    Ok(())
}

fn main(rt: HostRuntime) -> Result<(), Stop> {
    run(&rt).inspect_err(|stop| {
        let _ = eprintln!(rt; "console: {stop}");
    })
}
