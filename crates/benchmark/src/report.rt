// The lines that are printed.
use replaying::words::most_gates;
use std::fmt;
use std::num::NonZeroU64;

// One line of the table: what it is of, and the gates that its blocks took in all.
#[derive(Clone, Copy)]
pub(crate) struct Line<'a> {
    pub(crate) name: &'a str,
    pub(crate) places: usize,
    pub(crate) calls: usize,
    pub(crate) blocks: NonZeroU64,
    pub(crate) gates: u64,
}

impl fmt::Display for Line<'_> {
    fn fmt<W: fmt::Write>(&self, f: &mut fmt::Formatter<W>) -> fmt::Result {
        let (name, m) = (self.name, self.calls);
        let tenths = self.average_in_tenths();
        let (whole, tenth) = (tenths / 10, tenths % 10);
        let bound = most_gates(self.places).ok_or(fmt::Error)?;
        write!(f, "{name}, m = {m}: {whole}.{tenth} gates, bound {bound}")
    }
}

impl Line<'_> {
    // The average, rounded to tenths.
    fn average_in_tenths(&self) -> u64 {
        let blocks = self.blocks.get();
        self.gates.saturating_mul(10).saturating_add(blocks / 2) / blocks
    }

    // A bar in proportion to the gates: a mark for each twenty of the average, the last perhaps not full.
    pub(crate) fn bar(&self) -> Bar {
        Bar(self.average_in_tenths().div_ceil(200))
    }
}

// A bar of marks.
#[derive(Clone, Copy)]
pub(crate) struct Bar(u64);

impl fmt::Display for Bar {
    fn fmt<W: fmt::Write>(&self, f: &mut fmt::Formatter<W>) -> fmt::Result {
        for _ in 0..self.0 {
            write!(f, "#")?;
        }
        Ok(())
    }
}

// How many plans a second, in whole numbers; None where the clock has seen no time go by.
pub(crate) fn per_second(plans: u64, nanos: u128) -> Option<u128> {
    (u128::from(plans) * 1_000_000_000).checked_div(nanos)
}
