// Sessions: blocks of CNOTs turned into gates on couplers in service, and couplers taken out on passes.
#![tactic(auto)]

pub mod calls;
pub mod flush;
pub mod open;
pub mod outage;
pub mod pass;
pub mod records;
pub mod store;
