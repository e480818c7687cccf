// Examples at the edges of chips, machines and play.
#![tactic(auto)]

#[cfg(test)]
mod grids;
#[cfg(test)]
mod machines;
#[cfg(test)]
mod maps;
#[cfg(test)]
mod playing;
#[cfg(test)]
mod refusals;
#[cfg(test)]
mod rows;
#[cfg(test)]
mod tapes;
