// Makes the calls of a bench on made-up points and prints a checksum of what each kind comes to: adds in three orders, a
// lay into a text table, and conversions. Called with the words `time N` it makes them N times, and prints the
// nanoseconds of one call too.
#![tactic(auto)]

mod stop;

use bench::Bench;
use fit::Entry;
use loss::{Reading, Squares};
use measure::{Order, checksum, nanos_each, turns_told};
use std::alloc::Global;
use std::env;
use std::time::Instant;
use stop::Stop;
use table::text::TextTable;

const POINTS: u32 = 1_024;

const CONVERSIONS: u32 = 1_000;

// The i-th count in an order. The factor is odd, so that no count comes twice.
fn count(order: Order, i: u32) -> u32 {
    match order {
        Order::Rising => i.wrapping_mul(16),
        Order::Falling => POINTS.wrapping_sub(i).wrapping_mul(16),
        Order::Random => i.wrapping_mul(2_654_435_761) & 0xff_ffff,
    }
}

// The i-th reading.
fn reading(i: u32) -> Result<Reading, Stop> {
    let level = i.wrapping_mul(40_503) & 0xffff;
    let weight = (i & 0x1ff) + 1;
    Ok(Reading::new(level, weight)?)
}

fn add_all(bench: &mut Bench<'_, Reading>, order: Order) -> Result<(), Stop> {
    for i in 0..POINTS {
        bench.add(count(order, i), reading(i)?)?;
    }
    Ok(())
}

// The sum of the levels of counts between the rows.
fn convert_all(bench: &Bench<'_, Reading>, table: &TextTable<'_>) -> Result<u64, Stop> {
    let mut sum: u64 = 0;
    for i in 0..CONVERSIONS {
        let level = bench.convert(table, i.wrapping_mul(16).wrapping_add(5))?;
        sum = sum.wrapping_add(u64::from(level));
    }
    Ok(sum)
}

// Ends a line, with the nanoseconds of one of so many calls where time was taken.
fn end_line(rt: &HostRuntime, start: Instant, turns: Option<u32>, calls: u32) -> Result<(), Stop> {
    if let Some(turns) = turns {
        let nanos = nanos_each(start.elapsed(rt)?, u64::from(turns) * u64::from(calls));
        print!(rt; " {nanos}")?;
    }
    println!(rt)?;
    Ok(())
}

fn memory(heap: Global) -> Result<Vec<Entry<Reading>>, Stop> {
    let free = Entry {
        count: 0,
        point: reading(0)?,
    };
    Ok(vec![in heap; free; 1024]?)
}

fn measure_adds(rt: &HostRuntime, order: Order, turns: Option<u32>) -> Result<(), Stop> {
    let mut memory = memory(rt.alloc())?;
    let mut bytes = vec![in rt.alloc(); 0; 15_360]?;
    let start = Instant::now(rt)?;
    for _ in 1..turns.unwrap_or(1) {
        add_all(&mut Bench::open(&mut memory, 65_535), order)?;
    }
    let mut bench = Bench::open(&mut memory, 65_535);
    add_all(&mut bench, order)?;
    let mut table = TextTable::new(&mut bytes);
    bench.lay(&Squares, &mut table)?;
    let sum = checksum(table.text());
    print!(rt; "add {order} {sum:016x}")?;
    end_line(rt, start, turns, POINTS)
}

fn measure_rest(rt: &HostRuntime, turns: Option<u32>) -> Result<(), Stop> {
    let mut memory = memory(rt.alloc())?;
    let mut bytes = vec![in rt.alloc(); 0; 15_360]?;
    let mut bench = Bench::open(&mut memory, 65_535);
    add_all(&mut bench, Order::Rising)?;
    let mut table = TextTable::new(&mut bytes);
    let start = Instant::now(rt)?;
    for _ in 0..turns.unwrap_or(1) {
        bench.lay(&Squares, &mut table)?;
    }
    let sum = checksum(table.text());
    print!(rt; "lay text {sum:016x}")?;
    end_line(rt, start, turns, 1)?;
    let start = Instant::now(rt)?;
    let mut sum = 0;
    for _ in 0..turns.unwrap_or(1) {
        sum = convert_all(&bench, &table)?;
    }
    print!(rt; "convert text {sum:016x}")?;
    end_line(rt, start, turns, CONVERSIONS)
}

fn main(rt: HostRuntime) -> Result<(), Stop> {
    let words = env::args(&rt)?.skip(1).collect::<Vec<String>>(rt.alloc())?;
    let turns = turns_told(&words)?;
    for order in [Order::Rising, Order::Falling, Order::Random] {
        measure_adds(&rt, order, turns)?;
    }
    measure_rest(&rt, turns)
}
