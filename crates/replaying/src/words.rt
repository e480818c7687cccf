// The words of 64 wires or places.
ghost use Rattle.std.specs.Prelude.{◌≡◌, ℕ, slice_index, ◌-◌, ◌*◌, ◌^◌, ◌<◌, ◌≤◌, ◌↔◌, length, All, IsTrue, MatchOption, IsSome, swap, count_ones};
ghost use Rattle.parity.specs.Words.{cnot};
ghost use Rattle.replaying.specs.Words.{HasWord, HasWordsBelow};

use machine::Machine;

// Adds word a into word b, if there are both.
pub fn add(words: &mut [u64], a: usize, b: usize) -> Option<()>
    ensures there { IsSome result ↔ ((a < length words.old) × (b < length words.old)) }
    ensures leaves { MatchOption result (words.new ≡ words.old) (λ _. words.new ≡ cnot (a, b) words.old) }
{
    if a >= words.len() || b >= words.len() {
        return None;
    }
    words[b] ^= words[a];
    Some(())
}

// Exchanges words a and b, if there are both.
pub fn exchange(words: &mut [u64], a: usize, b: usize) -> Option<()>
    ensures there { IsSome result ↔ ((a < length words.old) × (b < length words.old)) }
    ensures leaves { MatchOption result (words.new ≡ words.old) (λ _. words.new ≡ swap words.old a b) }
{
    if a >= words.len() || b >= words.len() {
        return None;
    }
    words.swap(a, b);
    Some(())
}

// Whether each word is one wire.
pub fn all_single(words: &[u64]) -> bool
    ensures { IsTrue result ↔ All (λ word. count_ones word ≡ 1) words.now }
{
    words.iter().all(|word| word.count_ones() == 1)
}

// The most gates that a plan for n places may have, 2n(n - 1), if a usize can say it.
pub fn most_gates(n: usize) -> Option<usize>
    ensures { MatchOption result (2 ^ 64 ≤ n * (n - 1) * 2) (λ gates. gates ≡ n * (n - 1) * 2) }
{
    n.checked_mul(n.saturating_sub(1))?.checked_mul(2)
}

// The first place, of those that words are given for, where the machine has another word or is no place.
pub fn first_other_word<M: Machine>(machine: &M, words: &[u64]) -> Option<usize>
    ensures { MatchOption result (HasWordsBelow (M.Chip.layout machine.now) (M.Machine.meaning machine.now) words.now (length words.now)) (λ q. (q < length words.now) × ¬ HasWord (M.Chip.layout machine.now) (M.Machine.meaning machine.now) q (slice_index words.now q) × HasWordsBelow (M.Chip.layout machine.now) (M.Machine.meaning machine.now) words.now q) }
{
    words
        .iter()
        .enumerate()
        .position(|(q, word)| !has_word(machine, q, *word))
}

// Whether the machine has the word at place q.
fn has_word<M: Machine>(machine: &M, q: usize, word: u64) -> bool
    ensures { IsTrue result ↔ HasWord (M.Chip.layout machine.now) (M.Machine.meaning machine.now) q word }
{
    machine.word(q) == Ok(word)
}
