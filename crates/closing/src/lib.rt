// The end of a script: the passes that are still in slots are written off, and nothing is left over.
#![tactic(auto)]

pub mod close;
pub mod laws;
pub mod slots;
pub mod whole;
