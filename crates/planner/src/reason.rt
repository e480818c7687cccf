// Why there is no plan: a wire whose word needs places on two islands.
ghost use Rattle.std.specs.Prelude.{◌≡◌, ℕ, ◌<◌, ◌≢◌, map, length, Some, None, slice_index};
ghost use Rattle.parity.specs.Placements.{wires_to_places};
ghost use Rattle.rounds.specs.Ways.{OneIsland};
ghost use Rattle.rounds.specs.Exactness.{FirstStraddling};
ghost use Rattle.planner.specs.Adjacent.{Shows};
ghost use Rattle.planner.specs.Laws.{OnOneIsland};
ghost use Rattle.planner.specs.Reasons.{FirstOnTwo};
ghost use Rattle.planner.specs.Views.{neighbours_of, words_of, places_of, SizesAre};

use crate::carry::carry_to_places;
use crate::store::{Adjacency, Block, Places};
use chip::Chip;
use machine::Machine;
use rounds::looks::first_straddling;

// The first wire whose word needs places on two islands of the machine. None too where the sizes differ.
pub fn first_on_two_islands<M: Machine>(
    machine: &M,
    block: &Block,
    places: &Places,
) -> Option<usize>
    ensures first { (w : ℕ) → result ≡ Some w → FirstOnTwo (M.Chip.layout machine.now) (M.Machine.meaning machine.now).service (words_of block.now) (places_of places.now) w }
    ensures none { result ≡ None → SizesAre (M.Chip.layout machine.now).places block.now places.now → (w : ℕ) → w < (M.Chip.layout machine.now).places → OnOneIsland (M.Chip.layout machine.now) (M.Machine.meaning machine.now).service (wires_to_places (places_of places.now) (slice_index (words_of block.now) w)) }
{
    let adjacency = Adjacency::of(machine);
    first_over(machine, &adjacency, block, places)
}

// The same over an adjacency that shows the machine.
fn first_over<M: Machine>(
    machine: &M,
    adjacency: &Adjacency,
    block: &Block,
    places: &Places,
) -> Option<usize>
    requires shows { Shows (M.Chip.layout machine.now) (M.Machine.meaning machine.now).service (neighbours_of adjacency.now) }
    ensures first { (w : ℕ) → result ≡ Some w → FirstOnTwo (M.Chip.layout machine.now) (M.Machine.meaning machine.now).service (words_of block.now) (places_of places.now) w }
    ensures none { result ≡ None → SizesAre (M.Chip.layout machine.now).places block.now places.now → (w : ℕ) → w < (M.Chip.layout machine.now).places → OnOneIsland (M.Chip.layout machine.now) (M.Machine.meaning machine.now).service (wires_to_places (places_of places.now) (slice_index (words_of block.now) w)) }
{
    let n = adjacency.places();
    if block.wires() != n || places.wires() != n {
        return None;
    }
    first_sized(adjacency, block, places)
}

// The same where the sizes agree.
fn first_sized(adjacency: &Adjacency, block: &Block, places: &Places) -> Option<usize>
    requires sizes { SizesAre (length (neighbours_of adjacency.now)) block.now places.now }
    ensures first { (w : ℕ) → result ≡ Some w → FirstStraddling (neighbours_of adjacency.now) (map (wires_to_places (places_of places.now)) (words_of block.now)) w }
    ensures none { result ≡ None → (w : ℕ) → w < length (neighbours_of adjacency.now) → OneIsland (neighbours_of adjacency.now) (slice_index (map (wires_to_places (places_of places.now)) (words_of block.now)) w) }
{
    let wanted = carry_to_places(block.words(), places);
    first_straddling(adjacency.rows.as_slice(), wanted.as_slice())
}
