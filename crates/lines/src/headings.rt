// The first line: which bench is opened.
ghost use Rattle.std.specs.Prelude.{◌≡◌};
ghost use Rattle.lines.specs.Headings.{heading_told};
ghost use Rattle.lines.specs.Letters.{loss_of};
ghost use Rattle.lines.specs.Requests.{begun};

use crate::line::Line;
use crate::verbs::LossName;
use fault::Fault;
use loss::TOP_LEVEL;

// The loss of a bench, and the highest level that it may give.
#[derive(Clone, Copy, PartialEq, Eq, Debug)]
pub struct Heading {
    pub loss: LossName,
    pub top: u16,
}

// What a line says that is read as the first.
pub fn read_heading(bytes: &[u8], number: u32) -> Result<Heading, Fault>
    ensures { result ≡ heading_told number bytes.now }
{
    let line = Line::new(bytes, number);
    let loss = line.begin(LossName::of, |_| 2)?;
    let top = line.number(1, 0..=TOP_LEVEL)?;
    Ok(Heading {
        loss,
        top: top as u16,
    })
}
