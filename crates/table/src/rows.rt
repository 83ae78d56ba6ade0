// The rows that a holder keeps.
ghost use Rattle.std.specs.Prelude.{◌≡◌, ◌<◌, ◌≤◌, [], ◌∷◌, ◌++◌, length};

use crate::holder::{MAX_ROWS, Row};
use std::marker::Model;

// Rows, first put first, in places for as many as any holder keeps. No ArrayVec: its clear writes over
// each of its items, and a holder's sets one number.
#[derive(Drop)]
pub struct Rows {
    places: [Row; MAX_ROWS],
    len: usize,
}

impl Model for Rows {
    ghost use Rattle.std.specs.Prelude.{◌≡◌, ◌≤◌, ℕ, List, length, take};

    ghost Value = { List (ℕ × ℕ) };

    ghost view = { λ r. take r.len r.places };

    ghost invariant = { λ r. (length r.places ≡ 1024) × (r.len ≤ 1024) };
}

impl Rows {
    pub fn new() -> Rows
        ensures { result ≡ [] }
    {
        Rows {
            places: [(0, 0); MAX_ROWS],
            len: 0,
        }
    }

    // A copy of these rows.
    pub fn of(rows: &[Row]) -> Rows
        requires { length rows.now ≤ 1024 }
        ensures { result ≡ rows.now }
    {
        let mut places = [(0, 0); MAX_ROWS];
        places[..rows.len()].copy_from_slice(rows);
        Rows {
            places,
            len: rows.len(),
        }
    }

    pub fn len(&self) -> usize
        ensures { result ≡ length self.now }
    {
        self.len
    }

    pub fn as_slice(&self) -> &[Row]
        ensures { result.now ≡ self.now }
    {
        &self.places[..self.len]
    }

    // Adds a row at the end.
    pub fn push(&mut self, row: Row)
        requires { length self.old < 1024 }
        ensures { self.new ≡ self.old ++ row ∷ [] }
    {
        self.places[self.len] = row;
        self.len += 1;
    }

    pub fn clear(&mut self)
        ensures { self.new ≡ [] }
    {
        self.len = 0;
    }
}
