// The parts of a line with their columns.
ghost use Rattle.std.specs.Iterator.{YieldsFirstBy, item_count};
ghost use Rattle.std.specs.Prelude.{◌≡◌, ◌+◌, ◌≤◌, length, sum_by};
ghost use Rattle.lines.specs.Pieces.{pieces, placed, fields_at};

use crate::pieces::Pieces;

// The parts that are left of a line, and the column of the first of them. Each takes its bytes and one more.
#[derive(Drop)]
pub(super) struct Parts<'a> {
    left: Pieces<'a>,
    column: u32,
    ghost short: { column + sum_by (λ p. length p + 1) (pieces left.end left.rest.now) ≤ 67 },
}

impl<'a> Parts<'a> {
    // All parts of a line.
    pub(super) fn new(bytes: &'a [u8]) -> Parts<'a>
        requires { length bytes.now ≤ 65 }
        ensures { placed result.column (pieces result.left.end result.left.rest.now) ≡ fields_at bytes.now }
    {
        Parts {
            left: Pieces::new(bytes, b' '),
            column: 1,
        }
    }
}

impl<'a> Iterator for Parts<'a> {
    type Item = (u32, &'a [u8]);

    ghost next_gives = { YieldsFirstBy (λ part. (part.0, part.1.now)) (λ s. placed s.column (pieces s.left.end s.left.rest.now)) };

    ghost remaining = { item_count (λ s. placed s.column (pieces s.left.end s.left.rest.now)) };

    fn next(&mut self) -> Option<(u32, &'a [u8])> {
        let piece = self.left.next()?;
        let column = self.column;
        self.column += piece.len() as u32 + 1;
        Some((column, piece))
    }
}
