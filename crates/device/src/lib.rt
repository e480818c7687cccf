// A chip of either kind, and a machine of either kind on it: what a program holds that lets its user choose.
#![tactic(auto)]

pub mod chips;
pub mod machines;
