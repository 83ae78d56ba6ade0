// An answer as the line of text that it is sent as.
ghost use Rattle.std.specs.Prelude.{◌≡◌, ◌+◌, ◌≤◌, ◌∷◌, ◌++◌, length, decimal};
ghost use Rattle.fault.specs.Texts.{fault_text};
ghost use Rattle.answers.specs.Replies.{answer_text};

use arrayvec::ArrayString;
use bench::Answer;
use fault::Fault;
use itoa::Buffer;

// The bytes that every answer has room in.
pub const ANSWER_BYTES: usize = 32;

// The text of an answer.
pub fn answer_text(answer: &Answer) -> ArrayString<ANSWER_BYTES>
    ensures { result.bytes ≡ answer_text answer.now }
{
    let mut text = ArrayString::new();
    match *answer {
        Answer::Done => text.push_str("ok"),
        Answer::Level(level) => {
            text.push_str("ok");
            push_word(&mut text, u32::from(level));
        }
        Answer::Refused(fault) => {
            text.push_str("no");
            push_refusal(&mut text, fault);
        }
    }
    text.push_str("\n");
    text
}

// A space and a number.
fn push_word(text: &mut ArrayString<ANSWER_BYTES>, n: u32)
    requires { length text.old.bytes + length (32 ∷ decimal n) ≤ 32 }
    ensures { text.new.bytes ≡ text.old.bytes ++ 32 ∷ decimal n }
{
    text.push(' ');
    text.push_str(Buffer::new().format(n));
}

// What a refusal says, behind two bytes: the question's layer and number, and where in the text it was asked.
fn push_refusal(text: &mut ArrayString<ANSWER_BYTES>, fault: Fault)
    requires { length text.old.bytes ≤ 2 }
    ensures text { text.new.bytes ≡ text.old.bytes ++ 32 ∷ fault_text fault }
    ensures short { length text.new.bytes ≤ 29 }
{
    push_word(text, u32::from(fault.question.layer()));
    push_word(text, u32::from(fault.question.number()));
    push_word(text, fault.line);
    push_word(text, fault.column);
}
