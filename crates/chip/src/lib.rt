// A chip: qubits at places 0 to n - 1, and couplers that each join two of them.
#![tactic(auto)]

ghost use Rattle.std.specs.Prelude.{◌≡◌, length};
ghost use Rattle.chip.specs.Answers.{answered};
ghost use Rattle.chip.specs.Layout.{Layout, Sound, touches};
ghost use Rattle.chip.specs.Chips.{ends_at, coupler_fault, joining, JoinsExactly};

pub mod fault;
pub mod on_chip;

use fault::ChipFault;
use std::ops::Range;

// What a chip is known by is its layout; the law says that every layout is sound.
pub trait Chip {
    ghost layout: { Self → Layout };

    // The number of places.
    fn width(&self) -> usize
        ensures { result ≡ (layout self.now).places };

    // The number of couplers.
    fn couplers(&self) -> usize
        ensures { result ≡ length (layout self.now).couplers };

    // The two places that coupler k joins, left then right.
    fn ends(&self, k: usize) -> Result<(usize, usize), ChipFault>
        ensures { result ≡ answered (coupler_fault (layout self.now) k) (ends_at (layout self.now) k) };

    // The coupler that joins two places, in either order, if one does.
    fn joins(&self, a: usize, b: usize) -> Option<usize>
        ensures { result ≡ joining a b (layout self.now).couplers }
    {
        numbers(self.couplers()).find(|&k| self.ends(k).is_ok_and(|ends| meets((a, b), ends)))
    }

    ghost sound: { (c : Self) → Sound (layout c) };
}

// The numbers of m couplers.
// Apart from `joins`, so that a number left out is refused at the source.
fn numbers(m: usize) -> Range<usize>
    ensures first { result.start ≡ 0 }
    ensures past_last { result.end ≡ m }
{
    0..m
}

// Whether a coupler with these ends joins the two places, in either order.
pub fn meets(places: (usize, usize), ends: (usize, usize)) -> bool
    ensures { result ≡ touches places.0 places.1 ends }
{
    let (a, b) = places;
    ends == (a, b) || ends == (b, a)
}

// On a sound layout `joins` answers k exactly when coupler k joins the two places.
pub fn joins_answers_the_one_coupler() -> u8
    ensures { JoinsExactly }
{
    0
}
