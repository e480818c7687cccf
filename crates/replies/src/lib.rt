// What the console answers a command with: a reply or a refusal, and the text of each.
#![tactic(auto)]

pub mod refusal;
pub mod reply;
