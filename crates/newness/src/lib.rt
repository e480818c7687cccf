// Whether a machine is new: fresh words, and every coupler in service.
#![tactic(auto)]

ghost use Rattle.std.specs.Prelude.{◌≡◌, ℕ, ◌^◌, ◌<◌, true, false, length, replicate, ◌≢◌, slice_index, slice_index_or};
ghost use Rattle.parity.specs.Words.{fresh};
ghost use Rattle.newness.specs.New.{NewMachine, InService};

use chip::Chip;
use machine::Machine;
use parity::sets::single;

// Whether the machine is new. Its allowance does not count.
pub fn is_new<M: Machine>(machine: &M) -> bool
    ensures yes { result ≡ true → NewMachine (M.Chip.layout machine.now) (M.Machine.meaning machine.now) }
    ensures no { result ≡ false → NewMachine (M.Chip.layout machine.now) (M.Machine.meaning machine.now) → ⊥ }
{
    has_fresh_words(machine) && has_all_in_service(machine)
}

// Whether place q carries bit q alone, for each q.
fn has_fresh_words<M: Machine>(machine: &M) -> bool
    ensures yes { result ≡ true → (M.Machine.meaning machine.now).words ≡ fresh (M.Chip.layout machine.now).places }
    ensures no { result ≡ false → (q : ℕ) × (q < (M.Chip.layout machine.now).places) × (slice_index (M.Machine.meaning machine.now).words q ≢ 2 ^ q) }
{
    (0..machine.width()).all(|q| has_fresh_word(machine, q))
}

fn has_fresh_word<M: Machine>(machine: &M, q: usize) -> bool
    ensures yes { result ≡ true → q < (M.Chip.layout machine.now).places → slice_index (M.Machine.meaning machine.now).words q ≡ 2 ^ q }
    ensures no { result ≡ false → q < (M.Chip.layout machine.now).places → slice_index (M.Machine.meaning machine.now).words q ≢ 2 ^ q }
{
    machine.word(q) == Ok(single(q))
}

// Whether every coupler is in service.
fn has_all_in_service<M: Machine>(machine: &M) -> bool
    ensures yes { result ≡ true → (M.Machine.meaning machine.now).service ≡ replicate (length (M.Chip.layout machine.now).couplers) true }
    ensures no { result ≡ false → (k : ℕ) × (k < length (M.Chip.layout machine.now).couplers) × (InService (M.Machine.meaning machine.now) k → ⊥) }
{
    (0..machine.couplers()).all(|k| is_in_service(machine, k))
}

fn is_in_service<M: Machine>(machine: &M, k: usize) -> bool
    ensures yes { result ≡ true → k < length (M.Chip.layout machine.now).couplers → InService (M.Machine.meaning machine.now) k }
    ensures no { result ≡ false → k < length (M.Chip.layout machine.now).couplers → InService (M.Machine.meaning machine.now) k → ⊥ }
{
    machine.serves(k) == Ok(true)
}
