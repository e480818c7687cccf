// The tape machine: keeps the gates alone, on a tape of its own.
#![tactic(auto)]

pub mod acts;
pub mod store;
