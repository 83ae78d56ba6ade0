// Lines carried out and answered, one by one and as a whole input.
#![tactic(auto)]

pub mod console;
pub mod obey;
pub mod reply;
