// Words of wires as sets of places.
ghost use Rattle.std.specs.Prelude.{◌≡◌, ℕ, ◌<◌, ◌≤◌, map, length, slice_index};
ghost use Rattle.parity.specs.Placements.{wires_to_places};
ghost use Rattle.planner.specs.Plans.{Lowest};
ghost use Rattle.planner.specs.Views.{words_of, duals_of, places_of};

use crate::store::{Block, Places};
use arrayvec::ArrayVec;
use parity::sets::{flip, has, lowest};

// The places of the wires in each word of the block: what a wire wants at its new place.
// Apart from `plan_sized`, as `carried_duals` is, so that the one set of words taken for the other is refused at the source.
pub(crate) fn carried_words(block: &Block, places: &Places) -> ArrayVec<u64, 64>
    ensures { result.items ≡ map (wires_to_places (places_of places.now)) (words_of block.now) }
{
    carry_to_places(block.words(), places)
}

// The same for the dual words.
pub(crate) fn carried_duals(block: &Block, places: &Places) -> ArrayVec<u64, 64>
    ensures { result.items ≡ map (wires_to_places (places_of places.now)) (duals_of block.now) }
{
    carry_to_places(block.duals.as_slice(), places)
}

// The places of the wires in each word.
pub(crate) fn carry_to_places(words: &[u64], places: &Places) -> ArrayVec<u64, 64>
    requires { length words.now ≤ 64 }
    ensures { result.items ≡ map (wires_to_places (places_of places.now)) words.now }
{
    let mut sets = ArrayVec::new();
    for word in words {
        sets.push(places_of_wires(*word, places));
    }
    sets
}

// The places of the wires in x.
fn places_of_wires(x: u64, places: &Places) -> u64
    ensures { result ≡ wires_to_places (places_of places.now) x }
{
    let mut set = 0;
    for (w, place) in places.at.iter().enumerate() {
        if has(x, w) {
            set = flip(set, *place);
        }
    }
    set
}

// The lowest place of each set, and 0 for an empty one.
pub(crate) fn lowest_of_each(sets: &[u64]) -> ArrayVec<usize, 64>
    requires { length sets.now ≤ 64 }
    ensures one_each { length result.items ≡ length sets.now }
    ensures lowest { Lowest sets.now result.items }
{
    let mut at = ArrayVec::new();
    for set in sets {
        at.push(lowest(*set).unwrap_or(0));
    }
    at
}
