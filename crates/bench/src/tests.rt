// The calls on examples.
use crate::state::Bench;
use fault::{Fault, Question};
use fit::Entry;
use loss::{Absolute, PullLimit, Reading, Squares};
use std::test::Fail;
use table::text::TextTable;

const TOP: u16 = 10;

#[test]
fn as_many_places_as_entries(rt: HostRuntime) -> Result<(), Fail> {
    let point = Reading::new(7, 1)?;
    let full = Err(Fault::plain(Question::AddFull));
    assert_eq!(rt; Bench::open(&mut [], TOP).add(0, point), full);
    let mut memory = [Entry { count: 0, point }; 2000];
    let mut bench = Bench::open(&mut memory, TOP);
    for count in 0..1024 {
        bench.add(count, point)?;
    }
    assert_eq!(rt; bench.add(1024, point), full);
    bench.drop(512)?;
    assert_eq!(rt; bench.add(512, point), Ok(()));
    assert_eq!(rt; bench.add(1024, point), full);
    Ok(())
}

#[test]
fn a_loss_for_each_lay(rt: HostRuntime) -> Result<(), Fail> {
    let high = Reading::new(9, 1)?;
    let low = Reading::new(1, 1)?;
    let mut memory = [Entry {
        count: 0,
        point: low,
    }; 3];
    let mut bench = Bench::open(&mut memory, TOP);
    bench.add(30, low)?;
    bench.add(10, high)?;
    bench.add(20, low)?;
    let mut bytes = [0; 45];
    let mut table = TextTable::new(&mut bytes);
    bench.lay(&Squares, &mut table)?;
    assert_eq!(rt; table.text(), b"10 4\n20 4\n30 4\n".as_slice());
    bench.lay(&Absolute, &mut table)?;
    assert_eq!(rt; table.text(), b"10 1\n20 1\n30 1\n".as_slice());
    bench.lay(&PullLimit::new(Squares, 3), &mut table)?;
    assert_eq!(rt; table.text(), b"10 2\n20 2\n30 2\n".as_slice());
    Ok(())
}

#[test]
fn a_refused_lay_leaves_the_table(rt: HostRuntime) -> Result<(), Fail> {
    let point = Reading::new(9, 1)?;
    let mut memory = [Entry { count: 0, point }; 2];
    let mut bench = Bench::open(&mut memory, TOP);
    let mut bytes = [0; 29];
    let mut table = TextTable::new(&mut bytes);
    bench.add(10, point)?;
    bench.lay(&Squares, &mut table)?;
    bench.add(20, point)?;
    assert_eq!(rt;
        bench.lay(&Squares, &mut table),
        Err(Fault::plain(Question::LayRoom))
    );
    assert_eq!(rt; bench.convert(&table, 10), Ok(9));
    assert_eq!(rt;
        bench.convert(&table, 20),
        Err(Fault::plain(Question::ConvertAbove))
    );
    Ok(())
}
