// A plan as a line.
ghost use Rattle.std.specs.Prelude.{◌≡◌, map, string_bytes, MatchResult};
ghost use Rattle.parity.specs.Words.{gate_of};
ghost use Rattle.replies.specs.declared.refusal.Refusal.TheVariants.{NoMemory as OutOfMemory};
ghost use Rattle.lines.specs.Lines.{plan_text};

use crate::add::add_all;
use replies::refusal::Refusal;
use std::alloc::Global;

// How many gates the entries are, each gate, and the new place of each wire.
pub fn plan_line(heap: Global, entries: &[u16], places: &[usize]) -> Result<String, Refusal>
    ensures { MatchResult result (λ line. string_bytes line ≡ plan_text (map gate_of entries.now) places.now) (λ f. f ≡ OutOfMemory) }
{
    let gates = entries.len();
    let mut line = format!(in heap; "plan: {gates} gates")?;
    add_all(&mut line, entries)?;
    line.push_str(", wires at")?;
    add_all(&mut line, places)?;
    Ok(line)
}
