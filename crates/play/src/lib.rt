// Plays a list of gates on any machine: proved once, against the machine's meaning.
#![tactic(auto)]

ghost use Rattle.std.specs.Prelude.{◌≡◌, ◌≤◌, map, length};
ghost use Rattle.parity.specs.Words.{gate_of};
ghost use Rattle.machine.specs.OnCoupler.{OnCouplers};
ghost use Rattle.play.specs.Playing.{outcome, replayed, Turn, PlayedWhole};

use chip::Chip;
use machine::Machine;
use machine::fault::MachineFault;
use parity::sets::ends_of;

// Plays gates, each written as 64 x control + target, up to the first that is refused.
pub fn play<M: Machine>(machine: &mut M, entries: &[u16]) -> Result<(), MachineFault>
    ensures answer { result ≡ (outcome (M.Chip.layout machine.old) (M.Machine.meaning machine.old) entries.now).0 }
    ensures leaves { M.Machine.meaning machine.new ≡ (outcome (M.Chip.layout machine.old) (M.Machine.meaning machine.old) entries.now).1 }
    ensures whole { OnCouplers (M.Chip.layout machine.old) (M.Machine.meaning machine.old).service (map gate_of entries.now) → length entries.now ≤ (M.Machine.meaning machine.old).allowance → M.Machine.meaning machine.new ≡ replayed (M.Machine.meaning machine.old) (map gate_of entries.now) }
    ensures same_chip { M.Chip.layout machine.new ≡ M.Chip.layout machine.old }
{
    for e in entries {
        play_entry(machine, *e)?;
    }
    Ok(())
}

// Plays one gate.
fn play_entry<M: Machine>(machine: &mut M, e: u16) -> Result<(), MachineFault>
    ensures turn { Turn (M.Chip.layout machine.old) (M.Machine.meaning machine.old) (M.Machine.meaning machine.new) e result }
    ensures same_chip { M.Chip.layout machine.new ≡ M.Chip.layout machine.old }
{
    let (c, t) = ends_of(e);
    machine.cnot(c, t)
}

// Gates on couplers in service, within the allowance, are all played: the words are their replay.
pub fn gates_on_couplers_are_played_whole() -> u8
    ensures { PlayedWhole }
{
    0
}
