// Plain words beside a machine, that tests replay gates on: code of its own, which calls neither the planner nor the replay of
// machines.
#![tactic(auto)]

pub mod gates;
pub mod islands;
pub mod words;
