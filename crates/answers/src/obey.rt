// Lines carried out.
ghost use Rattle.std.specs.Prelude.{◌≡◌, ◌≤◌, ◌++◌, length, drop};
ghost use Rattle.bench.specs.Held.{places_of};
ghost use Rattle.bench.specs.Runs.{History};
ghost use Rattle.bench.specs.Served.{answered};
ghost use Rattle.bench.specs.State.{memory_of, standing, Kept};
ghost use Rattle.answers.specs.Obeyed.{request_column, answer_at, roomy, with_answer, heading_answer, opening_of, Entered, after_request, line_answer, line_after, roomy_request};
ghost use Rattle.lines.specs.Headings.{heading_told};
ghost use Rattle.answers.specs.Replies.{answer_text};
ghost use Rattle.lines.specs.Requests.{line_request};

use crate::reply::{ANSWER_BYTES, answer_text};
use bench::{Answer, Bench, Request};
use fault::{Fault, Question};
use lines::headings::{Heading, read_heading};
use lines::losses::LineLoss;
use lines::points::LinePoint;
use lines::requests::read_request;
use table::holder::Holder;

// Where the refusal of a call stands in its line.
fn column<P, L>(request: &Request<P, L>) -> u32
    ensures { result ≡ request_column request.now }
{
    match request {
        Request::Lay(_) => 1,
        Request::Add(_, _) | Request::Drop(_) | Request::Convert(_) => 3,
    }
}

// An answer of the bench, a refusal with its place in the text.
fn answer_at(answer: Answer, line: u32, column: u32) -> Answer
    ensures { result ≡ answer_at line column answer }
{
    match answer {
        Answer::Refused(fault) => Answer::Refused(Fault::at(line, column, fault.question)),
        other => other,
    }
}

// Has the memory room for every answer?
fn check_room(answer: &[u8], line: u32) -> Result<(), Fault>
    ensures { result ≡ roomy line (length answer.now) tt }
{
    if answer.len() < ANSWER_BYTES {
        return Err(Fault::at(line, 1, Question::AnswerRoom));
    }
    Ok(())
}

// Writes an answer at the front of memory that has room for every one.
fn write(answer: &Answer, memory: &mut [u8]) -> usize
    requires { 32 ≤ length memory.old }
    ensures written { result ≡ length (answer_text answer.now) }
    ensures memory { memory.new ≡ answer_text answer.now ++ drop (length (answer_text answer.now)) memory.old }
{
    let text = answer_text(answer);
    let n = text.len();
    memory[..n].copy_from_slice(text.as_str().as_bytes());
    n
}

// What a line that is read as the first came to: the bytes of its answer, and the heading if it is one.
#[derive(Clone, Copy)]
pub struct Opening {
    pub written: usize,
    pub heading: Option<Heading>,
}

// Reads a line as the first and writes its answer. The bytes behind the answer stay as they are.
pub fn answer_heading(bytes: &[u8], number: u32, answer: &mut [u8]) -> Result<Opening, Fault>
    ensures value { result ≡ roomy number (length answer.old) (opening_of (heading_told number bytes.now)) }
    ensures text { answer.new ≡ with_answer answer.old (heading_answer (heading_told number bytes.now)) }
{
    check_room(answer, number)?;
    match read_heading(bytes, number) {
        Ok(heading) => Ok(Opening {
            written: write(&Answer::Done, answer),
            heading: Some(heading),
        }),
        Err(fault) => Ok(Opening {
            written: write(&Answer::Refused(fault), answer),
            heading: None,
        }),
    }
}

// Bench, holder and loss stay three parameters: a struct that owned them would take them from callers who only lend
// them, and one that borrowed them would not say what they are afterwards. The clauses `top`, `room` and `places` are
// written at each call: no invariant can say that a value stays.

// Carries a line out.
fn obey<P: LinePoint, L: LineLoss<Point = P> + Copy, H: Holder>(
    bench: &mut Bench<'_, P>,
    holder: &mut H,
    loss: &L,
    bytes: &[u8],
    number: u32,
) -> Answer
    ensures answer { result ≡ line_answer P.told L.slope L.LINE_FIELDS loss.now bench.old.top (H.room holder.old) (record { clears = H.cleared; extends = H.extended }) (standing bench.old (H.listed holder.old) (H.memory holder.old)) number bytes.now }
    ensures after { standing bench.new (H.listed holder.new) (H.memory holder.new) ≡ line_after P.told L.slope L.LINE_FIELDS loss.now bench.old.top (H.room holder.old) (record { clears = H.cleared; extends = H.extended }) (standing bench.old (H.listed holder.old) (H.memory holder.old)) number bytes.now }
    ensures top { bench.new.top ≡ bench.old.top }
    ensures room { H.room holder.new ≡ H.room holder.old }
    ensures places { places_of (memory_of bench.new) ≡ places_of (memory_of bench.old) }
    ensures law { (h : History P) → Kept bench.old (H.room holder.old) (H.listed holder.old) h → ((after : History P) × Entered L.cost (line_request P.told L.LINE_FIELDS loss.now number bytes.now) (answered L.slope bench.old.top (H.room holder.old) (record { clears = H.cleared; extends = H.extended }) (standing bench.old (H.listed holder.old) (H.memory holder.old))) h after × Kept bench.new (H.room holder.new) (H.listed holder.new) after) }
{
    match read_request(loss, bytes, number) {
        Ok(request) => answer_at(bench.serve(holder, &request), number, column(&request)),
        Err(fault) => Answer::Refused(fault),
    }
}

// Carries a line behind the first out, writes its answer and says how many bytes that took. The bytes behind the
// answer stay as they are. Where the memory is too small nothing is carried out.
pub fn answer_line<P: LinePoint, L: LineLoss<Point = P> + Copy, H: Holder>(
    bench: &mut Bench<'_, P>,
    holder: &mut H,
    loss: &L,
    bytes: &[u8],
    number: u32,
    answer: &mut [u8],
) -> Result<usize, Fault>
    ensures value { result ≡ roomy number (length answer.old) (length (answer_text (line_answer P.told L.slope L.LINE_FIELDS loss.now bench.old.top (H.room holder.old) (record { clears = H.cleared; extends = H.extended }) (standing bench.old (H.listed holder.old) (H.memory holder.old)) number bytes.now))) }
    ensures text { answer.new ≡ with_answer answer.old (line_answer P.told L.slope L.LINE_FIELDS loss.now bench.old.top (H.room holder.old) (record { clears = H.cleared; extends = H.extended }) (standing bench.old (H.listed holder.old) (H.memory holder.old)) number bytes.now) }
    ensures after { standing bench.new (H.listed holder.new) (H.memory holder.new) ≡ after_request P.told L.slope L.LINE_FIELDS loss.now bench.old.top (H.room holder.old) (record { clears = H.cleared; extends = H.extended }) (standing bench.old (H.listed holder.old) (H.memory holder.old)) (roomy_request P.told L.slope L.LINE_FIELDS loss.now bench.old.top (H.room holder.old) (record { clears = H.cleared; extends = H.extended }) (length answer.old) number bytes.now) }
    ensures top { bench.new.top ≡ bench.old.top }
    ensures room { H.room holder.new ≡ H.room holder.old }
    ensures places { places_of (memory_of bench.new) ≡ places_of (memory_of bench.old) }
    ensures law { (h : History P) → Kept bench.old (H.room holder.old) (H.listed holder.old) h → ((after : History P) × Entered L.cost (roomy_request P.told L.slope L.LINE_FIELDS loss.now bench.old.top (H.room holder.old) (record { clears = H.cleared; extends = H.extended }) (length answer.old) number bytes.now) (answered L.slope bench.old.top (H.room holder.old) (record { clears = H.cleared; extends = H.extended }) (standing bench.old (H.listed holder.old) (H.memory holder.old))) h after × Kept bench.new (H.room holder.new) (H.listed holder.new) after) }
{
    check_room(answer, number)?;
    Ok(write(&obey(bench, holder, loss, bytes, number), answer))
}
