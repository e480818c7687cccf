// The plan: gates between neighbours and a new placement for the words of a block, or the truth that there are none.
ghost use Rattle.std.specs.Prelude.{◌≡◌, ℕ, ◌-◌, ◌*◌, ◌<◌, ◌≤◌, true, ◌↔◌, length, Some, None, Ok, Err};
ghost use Rattle.machine.specs.OnCoupler.{OnCoupler};
ghost use Rattle.planner.specs.declared.fault.PlanFault.TheVariants.{SizeMismatch, BufferTooShort, Unreachable};
ghost use Rattle.planner.specs.Adjacent.{Shows};
ghost use Rattle.planner.specs.Plans.{room, NoPlan, PlanIn};
ghost use Rattle.planner.specs.Reasons.{SomeOnTwo, SomeStraddles};
ghost use Rattle.planner.specs.Views.{neighbours_of, words_of, places_of, SizesAre, PlanFor, Planless};

use crate::carry::{carried_duals, carried_words, lowest_of_each};
use crate::fault::PlanFault;
use crate::store::{Adjacency, Block, Places};
use chip::Chip;
use machine::Machine;

// A plan: how many gates there are, and where each wire is then.
#[derive(Drop)]
pub struct Planned {
    pub gates: usize,
    pub places: Places,
}

// Writes gates between neighbours to the front of out, each as 64 x control + target, that bring each word of the block
// to a place of its own. Refused, nothing is touched.
// Kept: block and placement come apart, here and in `plan_on`, since two sizes that differ are a refusal of these calls.
pub fn plan(
    adjacency: &Adjacency,
    block: &Block,
    places: &Places,
    out: &mut [u16],
) -> Result<Planned, PlanFault>
    ensures planned { (p : Planned) → result ≡ Ok p → (length (places_of p.places) ≡ length (neighbours_of adjacency.now)) × PlanFor adjacency.now block.now places.now out.old out.new p.gates (places_of p.places) }
    ensures unreachable_exactly { (result ≡ Err Unreachable) ↔ (SizesAre (length (neighbours_of adjacency.now)) block.now places.now × (room (length (neighbours_of adjacency.now)) ≤ length out.old) × Planless adjacency.now block.now places.now) }
    ensures needs_two_islands { result ≡ Err Unreachable → SomeStraddles (neighbours_of adjacency.now) (words_of block.now) (places_of places.now) }
    ensures short_exactly { (needed : ℕ) → (result ≡ Err (BufferTooShort needed)) ↔ (SizesAre (length (neighbours_of adjacency.now)) block.now places.now × (length out.old < room (length (neighbours_of adjacency.now))) × (needed ≡ room (length (neighbours_of adjacency.now)))) }
    ensures mismatch_exactly { (result ≡ Err SizeMismatch) ↔ (SizesAre (length (neighbours_of adjacency.now)) block.now places.now → ⊥) }
    ensures refused_untouched { (f : PlanFault) → result ≡ Err f → out.new ≡ out.old }
{
    let n = adjacency.places();
    if block.wires() != n || places.wires() != n {
        return Err(PlanFault::SizeMismatch);
    }
    let needed = 2 * (n * (n - 1));
    if out.len() < needed {
        return Err(PlanFault::BufferTooShort { needed });
    }
    plan_sized(adjacency, block, places, out).ok_or(PlanFault::Unreachable)
}

// The same for a machine, in words of its couplers in service as they are now.
pub fn plan_on<M: Machine>(
    machine: &M,
    block: &Block,
    places: &Places,
    out: &mut [u16],
) -> Result<Planned, PlanFault>
    ensures planned { (p : Planned) → result ≡ Ok p → (length (places_of p.places) ≡ (M.Chip.layout machine.now).places) × PlanIn (OnCoupler (M.Chip.layout machine.now) (M.Machine.meaning machine.now).service) (M.Chip.layout machine.now).places (words_of block.now) (places_of places.now) out.old out.new p.gates (places_of p.places) }
    ensures unreachable_exactly { (result ≡ Err Unreachable) ↔ (SizesAre (M.Chip.layout machine.now).places block.now places.now × (room (M.Chip.layout machine.now).places ≤ length out.old) × NoPlan (OnCoupler (M.Chip.layout machine.now) (M.Machine.meaning machine.now).service) (M.Chip.layout machine.now).places (words_of block.now) (places_of places.now)) }
    ensures needs_two_islands { result ≡ Err Unreachable → SomeOnTwo (M.Chip.layout machine.now) (M.Machine.meaning machine.now).service (words_of block.now) (places_of places.now) }
    ensures short_exactly { (needed : ℕ) → (result ≡ Err (BufferTooShort needed)) ↔ (SizesAre (M.Chip.layout machine.now).places block.now places.now × (length out.old < room (M.Chip.layout machine.now).places) × (needed ≡ room (M.Chip.layout machine.now).places)) }
    ensures mismatch_exactly { (result ≡ Err SizeMismatch) ↔ (SizesAre (M.Chip.layout machine.now).places block.now places.now → ⊥) }
    ensures refused_untouched { (f : PlanFault) → result ≡ Err f → out.new ≡ out.old }
{
    let adjacency = Adjacency::of(machine);
    plan_over(machine, &adjacency, block, places, out)
}

// The same over an adjacency that shows the machine.
// Kept: the hard proof stands here, so that the public call is proved by search alone.
fn plan_over<M: Machine>(
    machine: &M,
    adjacency: &Adjacency,
    block: &Block,
    places: &Places,
    out: &mut [u16],
) -> Result<Planned, PlanFault>
    requires shows { Shows (M.Chip.layout machine.now) (M.Machine.meaning machine.now).service (neighbours_of adjacency.now) }
    ensures planned { (p : Planned) → result ≡ Ok p → (length (places_of p.places) ≡ (M.Chip.layout machine.now).places) × PlanIn (OnCoupler (M.Chip.layout machine.now) (M.Machine.meaning machine.now).service) (M.Chip.layout machine.now).places (words_of block.now) (places_of places.now) out.old out.new p.gates (places_of p.places) }
    ensures unreachable_exactly { (result ≡ Err Unreachable) ↔ (SizesAre (M.Chip.layout machine.now).places block.now places.now × (room (M.Chip.layout machine.now).places ≤ length out.old) × NoPlan (OnCoupler (M.Chip.layout machine.now) (M.Machine.meaning machine.now).service) (M.Chip.layout machine.now).places (words_of block.now) (places_of places.now)) }
    ensures needs_two_islands { result ≡ Err Unreachable → SomeOnTwo (M.Chip.layout machine.now) (M.Machine.meaning machine.now).service (words_of block.now) (places_of places.now) }
    ensures short_exactly { (needed : ℕ) → (result ≡ Err (BufferTooShort needed)) ↔ (SizesAre (M.Chip.layout machine.now).places block.now places.now × (length out.old < room (M.Chip.layout machine.now).places) × (needed ≡ room (M.Chip.layout machine.now).places)) }
    ensures mismatch_exactly { (result ≡ Err SizeMismatch) ↔ (SizesAre (M.Chip.layout machine.now).places block.now places.now → ⊥) }
    ensures refused_untouched { (f : PlanFault) → result ≡ Err f → out.new ≡ out.old }
{
    plan(adjacency, block, places, out)
}

// The plan where the sizes agree and there is room for it.
fn plan_sized(
    adjacency: &Adjacency,
    block: &Block,
    places: &Places,
    out: &mut [u16],
) -> Option<Planned>
    requires sizes { SizesAre (length (neighbours_of adjacency.now)) block.now places.now }
    requires room { room (length (neighbours_of adjacency.now)) ≤ length out.old }
    ensures planned { (p : Planned) → result ≡ Some p → (length (places_of p.places) ≡ length (neighbours_of adjacency.now)) × PlanFor adjacency.now block.now places.now out.old out.new p.gates (places_of p.places) }
    ensures unreachable { result ≡ None → Planless adjacency.now block.now places.now }
    ensures needs_two_islands { result ≡ None → SomeStraddles (neighbours_of adjacency.now) (words_of block.now) (places_of places.now) }
    ensures untouched { result ≡ None → out.new ≡ out.old }
{
    let mut wanted = carried_words(block, places);
    let mut against = carried_duals(block, places);
    let gates = rounds::plan(
        adjacency.rows.as_slice(),
        wanted.as_mut_slice(),
        against.as_mut_slice(),
        out,
    )?;
    let at = lowest_of_each(wanted.as_slice());
    let places = Places { at };
    Some(Planned { gates, places })
}
