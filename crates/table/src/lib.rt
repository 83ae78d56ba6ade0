// Tables: rows of a count and a level, the holders that keep them, and the conversion of counts by them.
#![tactic(auto)]

pub mod binary;
mod block;
#[cfg(test)]
mod block_tests;
pub mod convert;
pub mod holder;
pub mod opening;
mod rows;
#[cfg(test)]
mod tests;
pub mod text;
