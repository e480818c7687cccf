// Which places hang together over couplers in service.
ghost use Rattle.std.specs.Prelude.{◌≡◌, ℕ, ◌^◌, ◌<◌, ◌↔◌, All, IsTrue, IsSome, IfSome, MatchOption, slice_index};
ghost use Rattle.parity.specs.Sets.{bit};
ghost use Rattle.replaying.specs.Islands.{AllNamed, HasPlace, HavePlaces, OnOneIsland, NamesIslands, places_below, renamed};

use chip::Chip;
use parity::sets::has;
use std::array;

// For each of 64 places the name of its island: two places have one name exactly when they hang together.
pub fn islands<C: Chip>(chip: &C, service: &[bool]) -> [usize; 64]
    ensures { NamesIslands (C.Chip.layout chip.now) service.now result }
{
    let mut names = array::from_fn(|place| place);
    for (k, serves) in service.iter().enumerate() {
        if let (true, Ok((left, right))) = (*serves, chip.ends(k)) {
            merge(&mut names, left, right);
        }
    }
    names
}

// Calls the island of the right place by the name of the left place's.
fn merge(names: &mut [usize; 64], left: usize, right: usize)
    requires left { left < 64 }
    requires right { right < 64 }
    ensures { (p : ℕ) → p < 64 → slice_index names.new p ≡ renamed (slice_index names.old left) (slice_index names.old right) (slice_index names.old p) }
{
    let (name, other) = (names[left], names[right]);
    for at in names.iter_mut() {
        *at = renamed(name, other, *at);
    }
}

// The name with one name put for another.
fn renamed(name: usize, other: usize, at: usize) -> usize
    ensures { result ≡ renamed name other at }
{
    if at == other { name } else { at }
}

// The places of the wires in a word, if each has one of 64.
// Kept: a wire of the word with no place is refused, so the wires are gone through and not the places.
pub fn places_of(word: u64, at: &[usize]) -> Option<u64>
    ensures there { IsSome result ↔ HavePlaces at.now word }
    ensures places { IfSome result (λ places. places ≡ places_below at.now word 64) }
{
    let mut places = 0;
    for w in 0..64 {
        if has(word, w) {
            places ^= place_of(at, w)?;
        }
    }
    Some(places)
}

// The place of a wire alone, if it has one of 64.
fn place_of(at: &[usize], w: usize) -> Option<u64>
    ensures { MatchOption result (HasPlace at.now w → ⊥) (λ place. HasPlace at.now w × (place ≡ 2 ^ slice_index at.now w)) }
{
    let place = *at.get(w)?;
    if place < 64 { Some(1 << place) } else { None }
}

// Whether the places of a set all have one name.
pub fn on_one_island(set: u64, names: &[usize; 64]) -> bool
    ensures { IsTrue result ↔ OnOneIsland names.now set }
{
    names
        .iter()
        .enumerate()
        .all(|(p, name)| !has(set, p) || all_named(set, names, *name))
}

// Whether each word has the places of its wires on one island, if each of its wires has one of 64.
// Kept: a wire with no place is refused wherever it stands, so no word may be passed over, as `all` would.
pub fn all_on_one_island(words: &[u64], at: &[usize], names: &[usize; 64]) -> Option<bool>
    ensures there { IsSome result ↔ All (HavePlaces at.now) words.now }
    ensures reachable { IfSome result (λ reachable. IsTrue reachable ↔ All (λ word. OnOneIsland names.now (places_below at.now word 64)) words.now) }
{
    let mut reachable = true;
    for word in words {
        let set = places_of(*word, at)?;
        reachable = reachable && on_one_island(set, names);
    }
    Some(reachable)
}

// Whether each place of a set has the name.
fn all_named(set: u64, names: &[usize; 64], name: usize) -> bool
    ensures { IsTrue result ↔ AllNamed set names.now name }
{
    names
        .iter()
        .enumerate()
        .all(|(q, other)| !has(set, q) || *other == name)
}
