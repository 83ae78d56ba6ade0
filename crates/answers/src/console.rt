// The console: a whole input in, a whole output out.
ghost use Rattle.std.specs.Prelude.{◌≡◌, ◌≤◌, ◌++◌, length, IfOk, OnOk};
ghost use Rattle.std.specs.Result.{result_ok};
ghost use Rattle.std.specs.List.{flat_map};
ghost use Rattle.bench.specs.Held.{places_of};
ghost use Rattle.bench.specs.Runs.{History};
ghost use Rattle.bench.specs.Served.{answered};
ghost use Rattle.bench.specs.State.{memory_of, standing, Kept};
ghost use Rattle.answers.specs.Console.{unfilled, blank_bytes, session_text, SessionKeeps, rest_text, RestKeeps, lines_text, LinesKeep, console_text, ConsoleKeeps};
ghost use Rattle.lines.specs.Headings.{heading_told};
ghost use Rattle.answers.specs.Obeyed.{heading_answer, Entered, line_answer, line_after};
ghost use Rattle.lines.specs.Requests.{line_request};
ghost use Rattle.lines.specs.Pieces.{pieces, lines_of};
ghost use Rattle.answers.specs.Replies.{answer_text};
ghost use Rattle.answers.specs.Sessions.{answers, after, EnteredAll};

use crate::obey::{answer_heading, answer_line};
use crate::reply::{ANSWER_BYTES, answer_text};
use bench::{Answer, Bench};
use fault::{Fault, Question};
use fit::Entry;
use lines::headings::Heading;
use lines::losses::LineLoss;
use lines::pieces::{Pieces, split_first};
use lines::points::LinePoint;
use lines::verbs::LossName;
use loss::{Absolute, Band, Bands, Reading, Squares};
use std::alloc::{AllocError, Global};
use table::holder::Holder;
use table::text::TextTable;

// The most bytes of an input.
pub const MAX_INPUT: usize = 65_536;

// The points that a bench of the console has places for.
const PLACES: usize = 1024;

// The bytes of its table.
const TABLE_BYTES: usize = 15_360;

// An input that is not too long, or its end, so that the numbers of its lines are numbers of 32 bits.
#[derive(Clone, Copy)]
struct Input<'a> {
    bytes: &'a [u8],
    ghost short: { length bytes.now ≤ 65536 },
}

// Carries a line out and puts its answer behind the output.
fn append_answer<P: LinePoint, L: LineLoss<Point = P> + Copy, H: Holder>(
    bench: &mut Bench<'_, P>,
    holder: &mut H,
    loss: &L,
    line: &[u8],
    number: u32,
    output: &mut Vec<u8>,
) -> Result<(), AllocError>
    ensures output { OnOk result (output.new.items ≡ output.old.items ++ answer_text (line_answer P.told L.slope L.LINE_FIELDS loss.now bench.old.top (H.room holder.old) (record { clears = H.cleared; extends = H.extended }) (standing bench.old (H.listed holder.old) (H.memory holder.old)) number line.now)) }
    ensures after { standing bench.new (H.listed holder.new) (H.memory holder.new) ≡ line_after P.told L.slope L.LINE_FIELDS loss.now bench.old.top (H.room holder.old) (record { clears = H.cleared; extends = H.extended }) (standing bench.old (H.listed holder.old) (H.memory holder.old)) number line.now }
    ensures top { bench.new.top ≡ bench.old.top }
    ensures room { H.room holder.new ≡ H.room holder.old }
    ensures places { places_of (memory_of bench.new) ≡ places_of (memory_of bench.old) }
    ensures law { (h : History P) → Kept bench.old (H.room holder.old) (H.listed holder.old) h → ((next : History P) × Entered L.cost (line_request P.told L.LINE_FIELDS loss.now number line.now) (answered L.slope bench.old.top (H.room holder.old) (record { clears = H.cleared; extends = H.extended }) (standing bench.old (H.listed holder.old) (H.memory holder.old))) h next × Kept bench.new (H.room holder.new) (H.listed holder.new) next) }
{
    let mut answer = [0; ANSWER_BYTES];
    let written = answer_line(bench, holder, loss, line, number, &mut answer).unwrap();
    output.extend_from_slice(&answer[..written])?;
    Ok(())
}

// Answers lines that are numbered from 2 on.
fn answer_lines<P: LinePoint, L: LineLoss<Point = P> + Copy, H: Holder>(
    bench: &mut Bench<'_, P>,
    holder: &mut H,
    loss: &L,
    lines: Input<'_>,
    output: &mut Vec<u8>,
) -> Result<(), AllocError>
    ensures output { OnOk result (output.new.items ≡ output.old.items ++ flat_map answer_text (answers P.told L.cost L.slope L.LINE_FIELDS loss.now bench.old.top (H.room holder.old) (record { clears = H.cleared; extends = H.extended }) (standing bench.old (H.listed holder.old) (H.memory holder.old)) 2 (pieces 10 lines.entry.bytes.now))) }
    ensures after { OnOk result (standing bench.new (H.listed holder.new) (H.memory holder.new) ≡ after P.told L.cost L.slope L.LINE_FIELDS loss.now bench.old.top (H.room holder.old) (record { clears = H.cleared; extends = H.extended }) (standing bench.old (H.listed holder.old) (H.memory holder.old)) 2 (pieces 10 lines.entry.bytes.now)) }
    ensures law { OnOk result ((h : History P) → Kept bench.old (H.room holder.old) (H.listed holder.old) h → ((end : History P) × EnteredAll P.told L.cost L.slope L.LINE_FIELDS loss.now bench.old.top (H.room holder.old) (record { clears = H.cleared; extends = H.extended }) (standing bench.old (H.listed holder.old) (H.memory holder.old)) 2 (pieces 10 lines.entry.bytes.now) h end × Kept bench.new (H.room holder.new) (H.listed holder.new) end)) }
    ensures top { bench.new.top ≡ bench.old.top }
    ensures room { H.room holder.new ≡ H.room holder.old }
    ensures places { places_of (memory_of bench.new) ≡ places_of (memory_of bench.old) }
{
    for (i, line) in Pieces::new(lines.bytes, b'\n').enumerate() {
        append_answer(bench, holder, loss, line, i as u32 + 2, output)?;
    }
    Ok(())
}

// The places of a bench, each with a point that is not held.
#[tactic(auto, unfolding(crate::specs::Console::unfilled))]
fn places<P: Copy>(unheld: P) -> [Entry<P>; PLACES]
    ensures { result ≡ unfilled unheld }
{
    [Entry {
        count: 0,
        point: unheld,
    }; PLACES]
}

// The bytes of a table, blank.
#[tactic(auto, unfolding(crate::specs::Console::blank_bytes))]
fn blank() -> [u8; TABLE_BYTES]
    ensures { result ≡ blank_bytes }
{
    [0; TABLE_BYTES]
}

// Answers the lines behind the first with a new bench and a new table, and writes the rows of the table. The bytes of
// the table are lent, so that the stack holds them once and not for each loss.
fn answer_session<P: LinePoint, L: LineLoss<Point = P> + Copy>(
    loss: &L,
    top: u16,
    memory: &mut [Entry<P>],
    bytes: &mut [u8],
    lines: Input<'_>,
    output: &mut Vec<u8>,
) -> Result<(), AllocError>
    requires { (length memory.old ≡ 1024) × (length bytes.old ≡ 15360) }
    ensures output { OnOk result (output.new.items ≡ output.old.items ++ session_text P.told L.cost L.slope L.LINE_FIELDS loss.now top memory.old bytes.old (pieces 10 lines.entry.bytes.now)) }
    ensures law { OnOk result (SessionKeeps P.told L.cost L.slope L.LINE_FIELDS loss.now top memory.old bytes.old (pieces 10 lines.entry.bytes.now)) }
{
    let mut bench = Bench::open(memory, top);
    let mut table = TextTable::new(bytes);
    answer_lines(&mut bench, &mut table, loss, lines, output)?;
    output.extend_from_slice(table.text())?;
    Ok(())
}

// Answers the lines behind an accepted first one.
fn answer_rest(heading: Heading, lines: Input<'_>, output: &mut Vec<u8>) -> Result<(), AllocError>
    ensures output { OnOk result (output.new.items ≡ output.old.items ++ rest_text heading.top heading.loss (pieces 10 lines.entry.bytes.now)) }
    ensures law { OnOk result (RestKeeps heading.top heading.loss (pieces 10 lines.entry.bytes.now)) }
{
    let top = heading.top;
    let bytes = &mut blank();
    let readings = &mut places(Reading::lightest());
    let bands = &mut places(Band::lightest());
    match heading.loss {
        LossName::Squares => answer_session(&Squares, top, readings, bytes, lines, output),
        LossName::Absolute => answer_session(&Absolute, top, readings, bytes, lines, output),
        LossName::Bands => answer_session(&Bands, top, bands, bytes, lines, output),
    }
}

// Reads the first line and puts its answer behind the output.
fn append_heading(line: &[u8], output: &mut Vec<u8>) -> Result<Option<Heading>, AllocError>
    ensures output { OnOk result (output.new.items ≡ output.old.items ++ answer_text (heading_answer (heading_told 1 line.now))) }
    ensures heading { IfOk result (λ h. h ≡ result_ok (heading_told 1 line.now)) }
{
    let mut answer = [0; ANSWER_BYTES];
    let opening = answer_heading(line, 1, &mut answer).unwrap();
    output.extend_from_slice(&answer[..opening.written])?;
    Ok(opening.heading)
}

// Answers the lines of an input. Behind a refused first line it stops.
fn answer_input(input: Input<'_>, output: &mut Vec<u8>) -> Result<(), AllocError>
    ensures output { OnOk result (output.new.items ≡ output.old.items ++ lines_text (lines_of input.entry.bytes.now)) }
    ensures law { OnOk result (LinesKeep (lines_of input.entry.bytes.now)) }
{
    let (first, rest) = split_first(input.bytes, b'\n');
    let Some(heading) = append_heading(first, output)? else {
        return Ok(());
    };
    answer_rest(heading, Input { bytes: rest }, output)
}

// Answers an input, line by line, and then writes the rows of the table.
pub fn console(heap: Global, input: &[u8]) -> Result<Vec<u8>, AllocError>
    ensures output { IfOk result (λ v. v.items ≡ console_text input.now) }
    ensures law { OnOk result (ConsoleKeeps input.now) }
{
    let mut output = Vec::new(heap);
    if input.len() > MAX_INPUT {
        let refused = Answer::Refused(Fault::plain(Question::InputLength));
        output.extend_from_slice(answer_text(&refused).as_str().as_bytes())?;
        return Ok(output);
    }
    answer_input(Input { bytes: input }, &mut output)?;
    Ok(output)
}
