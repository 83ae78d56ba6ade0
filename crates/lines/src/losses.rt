// How many fields the points of a loss take on a line.
ghost use Rattle.std.specs.Prelude.{ℕ};

use loss::{Absolute, Bands, Loss, PullLimit, Squares};

// A loss whose points are read from lines. It stands apart from `Loss`, since a loss need not be read from lines, and
// then owes no clause this number.
pub trait LineLoss: Loss {
    // How many fields the line of a point has.
    const LINE_FIELDS: usize;

    ghost LINE_FIELDS: { ℕ };
}

impl LineLoss for Squares {
    const LINE_FIELDS: usize = <Squares as Loss>::FIELDS;

    ghost LINE_FIELDS = { 4 };
}

impl LineLoss for Absolute {
    const LINE_FIELDS: usize = <Absolute as Loss>::FIELDS;

    ghost LINE_FIELDS = { 4 };
}

impl LineLoss for Bands {
    const LINE_FIELDS: usize = <Bands as Loss>::FIELDS;

    ghost LINE_FIELDS = { 5 };
}

impl<L: LineLoss> LineLoss for PullLimit<L> {
    const LINE_FIELDS: usize = L::LINE_FIELDS;

    ghost LINE_FIELDS = { L.LineLoss.LINE_FIELDS };
}
