// The planner: gates on couplers in service that bring each word of a block to a place, or the truth that there are none.
#![tactic(auto)]

pub mod adjacency;
pub mod block;
mod carry;
pub mod fault;
pub mod island;
pub mod laws;
pub mod places;
pub mod plan;
pub mod reason;
pub mod store;
