// Lines of text as calls of a bench: their fields, their letters, and what they ask for.
#![tactic(auto)]

pub mod fields;
pub mod headings;
pub mod line;
pub mod losses;
pub mod pieces;
pub mod points;
pub mod requests;
pub mod verbs;
