// The bench: holds the points of a sweep, lays the table that they fit, and converts counts by it.
#![tactic(auto)]

mod list;
mod rows;
pub mod runs;
pub mod state;
#[cfg(test)]
mod tests;

pub use runs::{Answer, Request};
pub use state::Bench;
