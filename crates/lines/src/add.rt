// Numbers and gates, added to the end of a line.
ghost use Rattle.std.specs.Prelude.{◌≡◌, ℕ, List, ◌++◌, string_bytes, OnOk};
ghost use Rattle.parity.specs.Words.{gate_of};
ghost use Rattle.lines.specs.Lines.{texts, spaced_number, spaced_gate};

use parity::sets::ends_of;
use std::alloc::AllocError;

// What a line shows with a space before it.
pub(crate) trait Spaced {
    ghost text: { Self → List ℕ };

    fn add_to(&self, line: &mut String) -> Result<(), AllocError>
        ensures { OnOk result (string_bytes line.new ≡ string_bytes line.old ++ text self.now) };
}

// A word.
impl Spaced for u64 {
    ghost text = { spaced_number };

    fn add_to(&self, line: &mut String) -> Result<(), AllocError> {
        write!(line, " {self}")
    }
}

// A place, as a word.
impl Spaced for usize {
    ghost text = { spaced_number };

    fn add_to(&self, line: &mut String) -> Result<(), AllocError> {
        (*self as u64).add_to(line)
    }
}

// The gate of an entry.
impl Spaced for u16 {
    ghost text = { λ e. spaced_gate (gate_of e) };

    fn add_to(&self, line: &mut String) -> Result<(), AllocError> {
        let (control, target) = ends_of(*self);
        write!(line, " {control}>{target}")
    }
}

pub(crate) fn add_all<T: Spaced>(line: &mut String, items: &[T]) -> Result<(), AllocError>
    ensures { OnOk result (string_bytes line.new ≡ string_bytes line.old ++ texts T.text items.now) }
{
    for item in items {
        item.add_to(line)?;
    }
    Ok(())
}
