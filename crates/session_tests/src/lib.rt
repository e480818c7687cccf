// Sessions on machines of both kinds: passes, refusals, limits, and random runs beside a sheet of the tests' own.
#![tactic(auto)]

#[cfg(test)]
mod crossing;
#[cfg(test)]
mod families;
#[cfg(test)]
mod limits;
#[cfg(test)]
mod look;
#[cfg(test)]
mod machines;
#[cfg(test)]
mod nest;
#[cfg(test)]
mod passes;
#[cfg(test)]
mod refusals;
#[cfg(test)]
mod sheet;
