// One line at a time, with the memory for its answer.
use answers::obey::{answer_heading, answer_line};
use bench::Bench;
use fault::{Fault, Question};
use fit::Entry;
use loss::{Reading, Squares};
use std::test::Fail;
use table::text::TextTable;

#[test]
fn an_answer_wants_32_bytes(rt: HostRuntime) {
    let mut memory = [Entry {
        count: 0,
        point: Reading::lightest(),
    }; 2];
    let mut bytes = [0; 30];
    let mut bench = Bench::open(&mut memory, 10);
    let mut table = TextTable::new(&mut bytes);
    let line = b"p 10 3 1".as_slice();
    let mut small = [7; 31];
    assert_eq!(rt;
        answer_line(&mut bench, &mut table, &Squares, line, 5, &mut small),
        Err(Fault::at(5, 1, Question::AnswerRoom))
    );
    assert_eq!(rt; small, [7; 31]);
    let mut answer = [7; 32];
    assert_eq!(rt;
        answer_line(&mut bench, &mut table, &Squares, line, 6, &mut answer),
        Ok(3)
    );
    assert_eq!(rt; answer.starts_with(b"ok\n\x07".as_slice()), true);
    assert_eq!(rt;
        answer_line(
            &mut bench,
            &mut table,
            &Squares,
            line,
            u32::MAX,
            &mut answer
        ),
        Ok(20)
    );
    assert_eq!(rt;
        answer.starts_with(b"no 3 2 4294967295 3\n\x07".as_slice()),
        true
    );
}

#[test]
fn each_line_is_read_as_the_first(rt: HostRuntime) -> Result<(), Fail> {
    let mut answer = [7; 40];
    let refused = answer_heading(b"s 65536".as_slice(), 1, &mut answer)?;
    assert_eq!(rt; refused.heading.is_none(), true);
    assert_eq!(rt; refused.written, 12);
    assert_eq!(rt; answer.starts_with(b"no 1 22 1 3\n\x07".as_slice()), true);
    let accepted = answer_heading(b"s 65535".as_slice(), 2, &mut answer)?;
    assert_eq!(rt; accepted.heading.is_some(), true);
    assert_eq!(rt; accepted.written, 3);
    assert_eq!(rt; answer.starts_with(b"ok\n1 22 1 3\n\x07".as_slice()), true);
    Ok(())
}
