// What the console prints of a machine, a block and a plan, as a line of text.
#![tactic(auto)]

mod add;
pub mod plan;
pub mod words;
