// A text taken apart at a byte.
ghost use Rattle.std.specs.Iterator.{YieldsFirstRef, item_count};
ghost use Rattle.std.specs.Prelude.{◌≡◌, suc, ◌-◌, ◌<◌, ◌≤◌, ◌∷◌, length, take, drop};
ghost use Rattle.lines.specs.Pieces.{before, pieces};

// The first piece of a text, and what stands behind the byte that ends it.
pub fn split_first(text: &[u8], end: u8) -> (&[u8], &[u8])
    ensures piece { result.0.now ≡ take (before end text.now) text.now }
    ensures rest { result.1.now ≡ drop (suc (before end text.now)) text.now }
    ensures pieces { 0 < length text.now → pieces end text.now ≡ result.0.now ∷ pieces end result.1.now }
    ensures lengths { (length result.0.now ≤ length text.now) × (length result.1.now ≡ length text.now - suc (length result.0.now)) }
{
    match text.iter().position(|byte| *byte == end) {
        Some(at) => (&text[..at], &text[at + 1..]),
        None => (text, &[]),
    }
}

// The pieces of a text, one after the other.
#[derive(Drop)]
pub struct Pieces<'a> {
    rest: &'a [u8],
    end: u8,
}

impl<'a> Pieces<'a> {
    pub fn new(text: &'a [u8], end: u8) -> Pieces<'a>
        ensures { pieces result.end result.rest.now ≡ pieces end text.now }
    {
        Pieces { rest: text, end }
    }
}

impl<'a> Iterator for Pieces<'a> {
    type Item = &'a [u8];

    ghost next_gives = { YieldsFirstRef (λ s. pieces s.end s.rest.now) };

    ghost remaining = { item_count (λ s. pieces s.end s.rest.now) };

    fn next(&mut self) -> Option<&'a [u8]> {
        if self.rest.is_empty() {
            return None;
        }
        let (piece, rest) = split_first(self.rest, self.end);
        self.rest = rest;
        Some(piece)
    }
}
