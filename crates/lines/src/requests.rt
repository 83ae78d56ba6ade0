// Lines as calls of a bench.
ghost use Rattle.std.specs.Prelude.{◌≡◌};
ghost use Rattle.lines.specs.Letters.{verb_of, verb_fields};
ghost use Rattle.lines.specs.Requests.{begun, count_at, verb_request, line_request};

use crate::line::Line;
use crate::losses::LineLoss;
use crate::points::LinePoint;
use crate::verbs::Verb;
use bench::Request;
use fault::Fault;

// The count of a line.
fn count(line: &Line<'_>) -> Result<u32, Fault>
    ensures { result ≡ count_at line.now.number line.now.bytes.now }
{
    line.number(1, 0..=u32::MAX)
}

// The verb of a line whose form is right and that has as many fields as the verb asks for.
fn verb<L: LineLoss>(line: &Line<'_>) -> Result<Verb, Fault>
    ensures { result ≡ begun verb_of (verb_fields L.LINE_FIELDS) line.now.number line.now.bytes.now }
{
    line.begin(Verb::of, |verb| verb.fields(L::LINE_FIELDS))
}

// The call that a line of a verb asks for.
fn verb_request<P: LinePoint, L: LineLoss<Point = P> + Copy>(
    loss: &L,
    line: &Line<'_>,
    verb: Verb,
) -> Result<Request<P, L>, Fault>
    ensures { result ≡ verb_request P.told L.LINE_FIELDS loss.now line.now.number line.now.bytes.now verb }
{
    match verb {
        Verb::Point => Ok(Request::Add(count(line)?, P::read(line)?)),
        Verb::Drop => Ok(Request::Drop(count(line)?)),
        Verb::Lay => Ok(Request::Lay(*loss)),
        Verb::Convert => Ok(Request::Convert(count(line)?)),
    }
}

// The call that a line behind the first asks for.
pub fn read_request<P: LinePoint, L: LineLoss<Point = P> + Copy>(
    loss: &L,
    bytes: &[u8],
    number: u32,
) -> Result<Request<P, L>, Fault>
    ensures { result ≡ line_request P.told L.LINE_FIELDS loss.now number bytes.now }
{
    let line = Line::new(bytes, number);
    verb_request(loss, &line, verb::<L>(&line)?)
}
