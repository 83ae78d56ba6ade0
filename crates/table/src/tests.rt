// The calls on examples.
use crate::convert::convert;
use crate::holder::Holder;
use crate::text::TextTable;
use fault::{Fault, Question};
use std::test::Fail;

#[test]
fn converts_between_rows(rt: HostRuntime) -> Result<(), Fail> {
    let mut bytes = [0; 30];
    let mut table = TextTable::new(&mut bytes);
    assert_eq!(rt;
        convert(&table, 15),
        Err(Fault::plain(Question::ConvertEmpty))
    );
    table.put(10, 2)?;
    table.put(20, 5)?;
    for (count, answer) in [
        (9, Err(Fault::plain(Question::ConvertBelow))),
        (10, Ok(2)),
        (15, Ok(3)),
        (19, Ok(4)),
        (20, Ok(5)),
        (21, Err(Fault::plain(Question::ConvertAbove))),
    ] {
        assert_eq!(rt; convert(&table, count), answer, "{}", count);
    }
    table.clear();
    table.put(10, 5)?;
    table.put(20, 2)?;
    assert_eq!(rt;
        convert(&table, 15),
        Err(Fault::plain(Question::ConvertFalls))
    );
    assert_eq!(rt; convert(&table, 20), Ok(2));
    Ok(())
}

#[test]
fn widest_row_fits_exactly(rt: HostRuntime) -> Result<(), Fail> {
    let mut bytes = [0; 15];
    let mut table = TextTable::new(&mut bytes);
    assert_eq!(rt;
        table.put(16_777_216, 0),
        Err(Fault::plain(Question::PutCount))
    );
    table.put(16_777_215, 65_535)?;
    assert_eq!(rt; table.text(), b"16777215 65535\n".as_slice());
    assert_eq!(rt; table.put(1, 1), Err(Fault::plain(Question::PutRoom)));
    Ok(())
}

#[test]
fn room_by_bytes(rt: HostRuntime) -> Result<(), Fail> {
    assert_eq!(rt; TextTable::new(&mut []).capacity(), 0);
    assert_eq!(rt; TextTable::new(&mut [0; 14]).capacity(), 0);
    assert_eq!(rt; TextTable::new(&mut [0; 15]).capacity(), 1);
    assert_eq!(rt; TextTable::new(&mut [0; 15_375]).capacity(), 1024);
    let mut bytes = [0; 15_360];
    let mut table = TextTable::new(&mut bytes);
    for i in 0..1024 {
        table.put(i, 7)?;
    }
    assert_eq!(rt; table.row(1023), Some((1023, 7)));
    assert_eq!(rt; table.put(1024, 7), Err(Fault::plain(Question::PutRoom)));
    assert_eq!(rt; table.len(), 1024);
    Ok(())
}
