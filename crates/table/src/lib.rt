// The table machine: keeps the word at each place.
#![tactic(auto)]

pub mod acts;
pub mod store;
