// Follows a whole task through one run of a bench, and prints each call with its answer and the table. Then lays the
// same sweep under two other losses.
#![tactic(auto)]

mod stop;
mod task;

use bench::{Answer, Bench, Request};
use fault::Fault;
use fit::Entry;
use loss::{Absolute, Band, Bands, Loss, PullLimit, Reading, Squares};
use std::alloc::Global;
use stop::Stop;
use table::binary::BinaryTable;
use table::holder::{Holder, rows};
use table::opening::open;
use table::text::TextTable;
use task::{Step, TASK, Told};

// The highest level of the tables.
const TOP: u16 = 1_000;

// The points that a bench has place for.
const PLACES: usize = 13;

// Bytes for a row of each.
const BYTES: usize = 195;

// A block of a binary table, which has room for all rows.
const BLOCK: usize = 512;

// How far a band reaches to either side of what was read.
const MARGIN: u32 = 3;

// The sweep that the task is about: count, level read, weight.
const SWEEP: [(u32, u32, u32); 12] = [
    (1_000, 12, 10),
    (2_000, 25, 10),
    (3_000, 22, 5),
    (4_000, 41, 10),
    (5_000, 40, 20),
    (6_000, 58, 10),
    (7_000, 300, 4),
    (8_000, 77, 10),
    (9_000, 90, 10),
    (10_000, 86, 5),
    (11_000, 110, 10),
    (12_000, 118, 10),
];

// The calls as the bench takes them.
fn requests(
    heap: Global,
    steps: &[Step],
) -> Result<Vec<Request<Reading, PullLimit<Squares>>>, Stop> {
    steps
        .iter()
        .map(|step| step.request().map_err(Stop::from))
        .try_collect(heap)
}

// The band around a level that was read.
fn band(level: u32, weight: u32) -> Result<Band, Fault> {
    Band::new(
        level.saturating_sub(MARGIN),
        level.saturating_add(MARGIN),
        weight,
    )
}

fn print_table(rt: &HostRuntime, table: &TextTable<'_>) -> Result<(), Stop> {
    let text = String::from_utf8_lossy(rt.alloc(), table.text())?;
    print!(rt; "{text}")?;
    Ok(())
}

// The sweep as points that are made of each level read and its weight.
fn sweep<P: Drop, F: Fn(u32, u32) -> Result<P, Fault> + Drop>(
    heap: Global,
    point: F,
) -> Result<Vec<Entry<P>>, Stop>
    requires { F.IsAlwaysCallable point }
{
    SWEEP
        .iter()
        .map(|(count, level, weight)| {
            let count = *count;
            let point = point(*level, *weight)?;
            Ok(Entry { count, point })
        })
        .try_collect(heap)
}

// Writes the rows of a table in binary, opens the bytes again, and says what came of it.
fn keep_binary(rt: &HostRuntime, table: &TextTable<'_>) -> Result<(), Stop> {
    let mut bytes = [0; BLOCK];
    let mut binary = BinaryTable::new(&mut bytes);
    for (count, level) in rows(table) {
        binary.put(count, level)?;
    }
    let written = binary.blocks().len();
    let opened = open(binary.blocks())?;
    let same = rows(table).eq(opened);
    println!(rt; "binary: {written} bytes, opened again with the same rows: {same}")?;
    Ok(())
}

// Makes the calls of the task, and prints what each answered and the table that stands at the end.
fn follow(rt: &HostRuntime) -> Result<(), Stop> {
    let heap = rt.alloc();
    let requests = requests(heap, &TASK)?;
    let mut answers = vec![in heap; Answer::Done; requests.len()]?;
    let point = Reading::new(0, 1)?;
    let mut memory = [Entry { count: 0, point }; PLACES];
    let mut bytes = [0; BYTES];
    let mut table = TextTable::new(&mut bytes);
    Bench::open(&mut memory, TOP).run(&mut table, &requests, &mut answers);
    for (step, answer) in TASK.iter().zip(&answers) {
        let told = Told(*answer);
        println!(rt; "{step}: {told}")?;
    }
    println!(rt; "table")?;
    print_table(rt, &table)?;
    keep_binary(rt, &table)
}

// Adds points to a bench of their own, lays them under a loss, and prints the table.
fn lay_under<L: Loss>(
    rt: &HostRuntime,
    heading: &str,
    loss: &L,
    points: &[Entry<L::Point>],
) -> Result<(), Stop>
where
    L::Point: Copy,
{
    let mut memory = Vec::from_slice(rt.alloc(), points)?;
    let mut bench = Bench::open(&mut memory, TOP);
    for entry in points {
        bench.add(entry.count, entry.point)?;
    }
    let mut bytes = [0; BYTES];
    let mut table = TextTable::new(&mut bytes);
    bench.lay(loss, &mut table)?;
    println!(rt; "{heading}")?;
    print_table(rt, &table)
}

fn run(rt: &HostRuntime) -> Result<(), Stop> {
    follow(rt)?;
    let heap = rt.alloc();
    let readings = sweep(heap, Reading::new)?;
    lay_under(rt, "table, absolute", &Absolute, &readings)?;
    let wide = format!(in heap; "table, bands {MARGIN} to either side")?;
    let bands = sweep(heap, band)?;
    lay_under(rt, &wide, &Bands, &bands)
}

fn main(rt: HostRuntime) -> Result<(), Stop> {
    run(&rt)
}
