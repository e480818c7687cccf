// Scripts: lists of calls, made one after another on a session and a machine, with slots for the passes.
#![tactic(auto)]

pub mod act;
pub mod order;
pub mod run;
