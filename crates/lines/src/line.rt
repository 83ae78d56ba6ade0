// A line of input.
ghost use Rattle.std.specs.Prelude.{◌≤◌, length};

mod calls;
mod parts;

// Its bytes up to the 65th, which tells that it is too long, without the newline. Lines are numbered from 1.
#[derive(Clone, Copy, PartialEq, Eq, Debug)]
pub struct Line<'a> {
    bytes: &'a [u8],
    number: u32,
    ghost short: { length bytes.now ≤ 65 },
}
