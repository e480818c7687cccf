// What the planner is asked with. The invariants are what a plan needs, so it asks nothing else of its caller.
// None of them has heap memory, since a flush makes new ones and may ask for none.
ghost use Rattle.std.specs.Prelude.{◌≡◌, ℕ, ◌^◌, ◌<◌, ◌≤◌, slice_index};
ghost use Rattle.arrayvec.specs.ArrayVec.{array_vec_len};
ghost use Rattle.parity.specs.Placements.{Placement};
ghost use Rattle.rounds.specs.Duals.{Paired};
ghost use Rattle.rounds.specs.Ways.{Graph};

use arrayvec::ArrayVec;

// For each place the set of its neighbours: others below their number, which have it for a neighbour too.
#[derive(Drop)]
pub struct Adjacency {
    pub(crate) rows: ArrayVec<u64, 64>,
    ghost few: { array_vec_len rows ≤ 64 },
    ghost graph: { Graph rows.items },
}

// For each wire its word, the set of wires that add up to it, and its dual word, by which the words are told apart:
// a word shares an odd number of wires with its own dual, and an even number with any other.
#[derive(Drop)]
pub struct Block {
    pub(crate) words: ArrayVec<u64, 64>,
    pub(crate) duals: ArrayVec<u64, 64>,
    ghost as_many: { array_vec_len duals ≡ array_vec_len words },
    ghost some: { 1 ≤ array_vec_len words },
    ghost few: { array_vec_len words ≤ 64 },
    ghost words_below: { (w : ℕ) → w < array_vec_len words → slice_index words.items w < 2 ^ array_vec_len words },
    ghost duals_below: { (w : ℕ) → w < array_vec_len words → slice_index duals.items w < 2 ^ array_vec_len words },
    ghost paired: { Paired (array_vec_len words) words.items duals.items },
}

// A place of its own for each wire.
#[derive(Drop)]
pub struct Places {
    pub(crate) at: ArrayVec<usize, 64>,
    ghost some: { 1 ≤ array_vec_len at },
    ghost few: { array_vec_len at ≤ 64 },
    ghost placed: { Placement (array_vec_len at) at.items },
}
