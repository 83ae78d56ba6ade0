// Binary tables on examples.
use crate::binary::BinaryTable;
use crate::holder::Holder;
use crate::opening::open;
use fault::{Fault, Question};
use std::process::Abort;
use std::test::Fail;

// Puts rows of rising counts behind those that there are.
fn put_rising(table: &mut BinaryTable<'_>, from: u32, to: u32) -> Result<(), Fail> {
    for count in from..to {
        table.put(count, 7)?;
    }
    Ok(())
}

#[test]
fn one_row_has_its_sums(rt: HostRuntime) -> Result<(), Fail> {
    let mut bytes = [0xFF; 512];
    let mut table = BinaryTable::new(&mut bytes);
    assert_eq!(rt; table.capacity(), 62);
    table.put(10, 2)?;
    // 174 and 22,666
    assert!(rt; table.blocks().ends_with(&[174, 0, 138, 88]));
    Ok(())
}

// Writes so many rows into more memory than a full table takes, and opens their blocks.
fn come_back(rt: &impl Abort, rows: u32, blocks: usize) -> Result<(), Fail> {
    let mut bytes = [0xFF; 9216];
    let mut table = BinaryTable::new(&mut bytes);
    assert_eq!(rt; table.len(), 0, "{rows} rows");
    put_rising(&mut table, 0, rows)?;
    assert_eq!(rt; table.blocks().len() / 512, blocks, "{rows} rows");
    let found = open(table.blocks())?;
    assert_eq!(rt; found.len(), rows as usize, "{rows} rows");
    Ok(())
}

#[test]
fn rows_come_back(rt: HostRuntime) -> Result<(), Fail> {
    for (rows, blocks) in [(0, 0), (61, 1), (62, 1), (63, 2), (1023, 17), (1024, 17)] {
        come_back(&rt, rows, blocks)?;
    }
    Ok(())
}

#[test]
fn a_full_table_is_full(rt: HostRuntime) -> Result<(), Fail> {
    let mut bytes = [0xFF; 9216];
    let mut table = BinaryTable::new(&mut bytes);
    put_rising(&mut table, 0, 1024)?;
    assert_eq!(rt; table.put(1024, 7), Err(Fault::plain(Question::PutRoom)));
    assert_eq!(rt; table.row(1023), Some((1023, 7)));
    Ok(())
}

#[test]
fn lengths_are_whole_blocks(rt: HostRuntime) {
    let refused = Some(Fault::plain(Question::OpenLength));
    assert_eq!(rt; open(&[0; 511]).err(), refused);
    assert_eq!(rt; open(&[0; 513]).err(), refused);
    assert_eq!(rt; open(&[0; 9216]).err(), refused);
    assert_eq!(rt; open(&[]).err(), None);
    assert_eq!(rt; BinaryTable::new(&mut [0; 511]).capacity(), 0);
    assert_eq!(rt; BinaryTable::new(&mut [0; 513]).capacity(), 62);
}

#[test]
fn puts_go_on_after_opening(rt: HostRuntime) -> Result<(), Fail> {
    let mut bytes = [0; 512];
    put_rising(&mut BinaryTable::new(&mut bytes), 0, 61)?;
    let mut table = BinaryTable::reopen(&mut bytes);
    assert_eq!(rt; table.len(), 61);
    put_rising(&mut table, 61, 62)?;
    assert_eq!(rt; BinaryTable::reopen(&mut bytes).len(), 62);
    bytes[0] = 0;
    assert_eq!(rt; BinaryTable::reopen(&mut bytes).len(), 0);
    Ok(())
}
