// Runs: a list of calls made of a bench and a holder, one after the other.
ghost use Rattle.std.specs.Prelude.{◌≡◌};
ghost use Rattle.bench.specs.Told.{done_answer, level_answer};

use fault::Fault;

mod serve;

// A call to make.
#[derive(Clone, Copy, PartialEq, Eq, Debug)]
pub enum Request<P, L> {
    Add(u32, P),
    Drop(u32),
    Lay(L),
    Convert(u32),
}

// What it answered. No Result of an Option, since three names say more: an add gives nothing where a conversion gives a level.
#[derive(Clone, Copy, PartialEq, Eq, Debug)]
pub enum Answer {
    Done,
    Level(u16),
    Refused(Fault),
}

// The answer of a call that gives nothing.
impl From<Result<(), Fault>> for Answer {
    ghost from_gives = { λ res answer. answer ≡ done_answer res };

    fn from(res: Result<(), Fault>) -> Answer {
        match res {
            Ok(()) => Answer::Done,
            Err(fault) => Answer::Refused(fault),
        }
    }
}

// The answer of a conversion.
impl From<Result<u16, Fault>> for Answer {
    ghost from_gives = { λ res answer. answer ≡ level_answer res };

    fn from(res: Result<u16, Fault>) -> Answer {
        match res {
            Ok(level) => Answer::Level(level),
            Err(fault) => Answer::Refused(fault),
        }
    }
}
