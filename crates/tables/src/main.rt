// Writes the table of each line of its standard input, damages it, opens it and prints the answer:
//
//     rows | patches | + | anything
//
// A row is count:level and a patch offset=value. A + has both sums of each patched block made right
// again. The answer is ok, or the layer, number, line and column of the refusal. A line that begins
// with # is skipped.
#![tactic(auto)]

mod damage;
mod stop;

use damage::{Case, damage, two_numbers};
use std::alloc::Global;
use std::io::{BufRead, BufReader};
use stop::Stop;
use table::binary::BinaryTable;
use table::holder::Holder;
use table::opening::open;

// The bytes of a full table.
const MEMORY: usize = 8704;

// Puts rows that are written as words.
fn put_all<H: Holder>(holder: &mut H, rows: &str) -> Result<(), Stop> {
    for row in rows.split_whitespace() {
        let (count, level) = two_numbers(row, ':')?;
        holder.put(count, level)?;
    }
    Ok(())
}

// The blocks of rows that are written as words.
fn blocks(heap: Global, rows: &str) -> Result<Vec<u8>, Stop> {
    let mut memory = vec![in heap; 0; MEMORY]?;
    let mut table = BinaryTable::new(&mut memory);
    put_all(&mut table, rows)?;
    Ok(Vec::from_slice(heap, table.blocks())?)
}

fn answer(heap: Global, line: &str) -> Result<String, Stop> {
    let case = Case::try_from(line)?;
    let mut bytes = blocks(heap, case.rows)?;
    damage(&mut bytes, case)?;
    Ok(match open(&bytes) {
        Ok(_) => "ok".to_string(heap)?,
        Err(fault) => fault.to_string(heap)?,
    })
}

// As in `sweeps`: to share it, a third crate would have to ask that its closure may be called.
fn run(rt: &HostRuntime) -> Result<(), Stop> {
    for line in BufReader::new(rt.alloc(), rt.stdin())?.lines(rt.alloc()) {
        let line = line?;
        if !line.starts_with('#') {
            rt.println(answer(rt.alloc(), &line)?)?;
        }
    }
    Ok(())
}

fn main(rt: HostRuntime) -> Result<(), Stop> {
    run(&rt).inspect_err(|stop| {
        let _ = eprintln!(rt; "tables: {stop}");
    })
}
