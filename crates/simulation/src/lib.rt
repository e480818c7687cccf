// What the console does with a command: the chip and the machine that a script has set up, and the answers.
#![tactic(auto)]

pub mod calls;
pub mod obey;
pub mod setup;
