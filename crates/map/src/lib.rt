// A chip read from a map file: byte 0 is the number of places, bytes 1 and 2 the number of couplers m, low byte first,
// then m left ends and m right ends, a byte each.
#![tactic(auto)]

ghost use Rattle.std.specs.Prelude.{◌≡◌, ◌+◌, ◌*◌, ◌<◌, ◌≤◌, ℕ, length, slice_index, slice_index_or, MatchResult};
ghost use Rattle.chip.specs.Layout.{Sound};
ghost use Rattle.chip.specs.declared.fault.ChipFault.TheVariants.{NoMemory as OutOfMemory};
ghost use Rattle.map.specs.Couplers.{layout_with};
ghost use Rattle.map.specs.Chips.{layout_of, ReadAs};
ghost use Rattle.map.specs.Laws.{SoundExactly, FirstBadExactly, SizeExactly, LengthExactly, NeverForMemory};

mod check;
pub mod store;

use check::first_bad;
use chip::Chip;
use chip::fault::ChipFault;
use std::alloc::Global;
pub use store::MappedChip;
use store::in_places;

// The most couplers that a chip may have.
const MOST: usize = 256;

impl MappedChip {
    // The chip that the file describes. Memory is asked for only once the file has passed every check.
    pub fn read(heap: Global, file: &[u8]) -> Result<MappedChip, ChipFault>
        ensures { ReadAs file.now result }
    {
        let [n, low, high, rest @ ..] = file else {
            return Err(ChipFault::WrongLength);
        };
        let places = *n as usize;
        // Kept: what the file says is this sum; through `from_le_bytes` the proof would need a lemma more.
        let m = *low as usize + 256 * *high as usize;
        if places == 0 || places > 64 || m > MOST {
            return Err(ChipFault::SizeOffLimits);
        }
        if rest.len() != 2 * m {
            return Err(ChipFault::WrongLength);
        }
        let room = paired(rest, m);
        let couplers = &room[..m];
        if let Some(k) = first_bad(places, couplers) {
            return Err(ChipFault::BadCoupler { coupler: k });
        }
        MappedChip::with_couplers(heap, places, couplers)
    }

    // A second chip of the same layout.
    // Kept: over a ghost field Clone is derived only with Copy, and by hand it would be no shorter.
    pub fn duplicate(&self, heap: Global) -> Result<MappedChip, ChipFault>
        ensures { MatchResult result (λ c. layout_of c ≡ layout_of self.now) (λ f. f ≡ OutOfMemory) }
    {
        MappedChip::with_couplers(heap, self.places, self.couplers.as_slice())
    }

    // A chip with its own copy of couplers that have passed the checks.
    fn with_couplers(
        heap: Global,
        places: usize,
        couplers: &[(u8, u8)],
    ) -> Result<MappedChip, ChipFault>
        requires { Sound (layout_with places couplers.now) }
        ensures { MatchResult result (λ c. layout_of c ≡ layout_with places couplers.now) (λ f. f ≡ OutOfMemory) }
    {
        let couplers = Vec::from_slice(heap, couplers)?;
        Ok(MappedChip { places, couplers })
    }
}

// The m left ends, each with its right end; the right ends begin after them.
// Kept: a fixed array, since no memory may be asked for before the couplers are checked.
fn paired(ends: &[u8], m: usize) -> [(u8, u8); MOST]
    requires { (length ends.now ≡ 2 * m) × (m ≤ 256) }
    ensures room { length result ≡ 256 }
    ensures ends { (k : ℕ) → k < m → slice_index_or result k (0, 0) ≡ (slice_index ends.now k, slice_index ends.now (m + k)) }
{
    let mut pairs = [(0, 0); MOST];
    // Kept: only the first m are filled, where `from_fn` would make all; most chips have few couplers.
    for k in 0..m {
        pairs[k] = pair_of(ends, m, k);
    }
    pairs
}

// The left and the right end of coupler k.
// Apart from `paired`, so that a wrong end is refused at the source.
fn pair_of(ends: &[u8], m: usize, k: usize) -> (u8, u8)
    requires { (length ends.now ≡ 2 * m) × (k < m) × (m ≤ 256) }
    ensures { result ≡ (slice_index ends.now k, slice_index ends.now (m + k)) }
{
    (ends[k], ends[m + k])
}

impl Chip for MappedChip {
    ghost layout = { layout_of };

    ghost sound = { λ c. c.sound };

    fn width(&self) -> usize {
        self.places
    }

    fn couplers(&self) -> usize {
        self.couplers.len()
    }

    fn ends(&self, k: usize) -> Result<(usize, usize), ChipFault> {
        self.couplers
            .get(k)
            .map(|&ends| in_places(ends))
            .ok_or(ChipFault::NoSuchCoupler)
    }
}

// A file passes every check exactly when it is whole and its layout is sound.
pub fn passes_exactly_the_sound_files() -> u8
    ensures { SoundExactly }
{
    0
}

// Coupler k is refused exactly when sizes and length are right and k is the least coupler that is bad.
pub fn refuses_the_first_bad_coupler() -> u8
    ensures { FirstBadExactly }
{
    0
}

// A size or a length is refused exactly when it is wrong, sizes first.
pub fn refuses_sizes_and_lengths_exactly() -> u8
    ensures sizes { SizeExactly }
    ensures lengths { LengthExactly }
{
    0
}

// No file is at fault for want of memory.
pub fn tells_memory_from_faults() -> u8
    ensures { NeverForMemory }
{
    0
}
