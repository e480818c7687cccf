// The planner on chips of many forms and random blocks, each plan replayed on plain words.
#![tactic(auto)]

#[cfg(test)]
mod chips;
#[cfg(test)]
mod families;
#[cfg(test)]
mod refusals;
#[cfg(test)]
mod task;
#[cfg(test)]
mod trial;
