// Placements: a place of its own for each wire.
ghost use Rattle.std.specs.Prelude.{◌≡◌, ℕ, ◌<◌, ◌≤◌, length, Some, None, slice_index};
ghost use Rattle.planner.specs.Views.{places_of};

use crate::store::Places;
use arrayvec::ArrayVec;
use std::array;

impl Places {
    // Each of n wires at the place of its own number; None unless 1 <= n <= 64.
    pub fn new(n: usize) -> Option<Places>
        ensures some { (p : Places) → result ≡ Some p → (length (places_of p) ≡ n) × ((w : ℕ) → w < n → slice_index (places_of p) w ≡ w) }
        ensures none { result ≡ None → 1 ≤ n → 64 < n }
    {
        if n < 1 || n > 64 {
            return None;
        }
        let mut at = ArrayVec::from(own_numbers());
        at.truncate(n);
        Some(Places { at })
    }

    // The number of wires.
    pub fn wires(&self) -> usize
        ensures { result ≡ length (places_of self.now) }
    {
        self.at.len()
    }

    // The place of each wire.
    pub fn places(&self) -> &[usize]
        ensures { result.now ≡ places_of self.now }
    {
        self.at.as_slice()
    }
}

// Each of 64 numbers at its own place.
fn own_numbers() -> [usize; 64]
    ensures { (w : ℕ) → w < 64 → slice_index result w ≡ w }
{
    array::from_fn(|w| w)
}
