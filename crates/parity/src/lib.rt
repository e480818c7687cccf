// Words and gates: what a CNOT does to the words at the places of a chip.
#![tactic(auto)]

ghost use Rattle.std.specs.Prelude.{◌≡◌, ◌^◌, ◌<◌, map};
ghost use Rattle.parity.specs.Words.{fresh, cnot, gate_of, replay, Rereads};

use sets::ends_of;
use std::array;

pub mod laws;
pub mod sets;

// The fresh words of 64 places: place q carries bit q alone.
pub fn fresh_words() -> [u64; 64]
    ensures { result ≡ fresh 64 }
{
    array::from_fn(|q| fresh_word(q))
}

// The word of place q: its own bit.
// Apart from `fresh_words`, so that a wrong word is refused at the source.
fn fresh_word(q: usize) -> u64
    requires { q < 64 }
    ensures { result ≡ 2 ^ q }
{
    1 << q
}

// Replays gates, each written as 64 x control + target, on words.
// A gate with an end past the words changes nothing.
pub fn replay_entries(entries: &[u16], words: &mut [u64])
    ensures { words.new ≡ replay (map gate_of entries.now) words.old }
{
    for e in entries {
        apply_entry(*e, words);
    }
}

// Applies one gate.
fn apply_entry(e: u16, words: &mut [u64])
    ensures { words.new ≡ cnot (gate_of e) words.old }
{
    let (c, t) = ends_of(e);
    if c >= words.len() || t >= words.len() {
        return;
    }
    words[t] = words[c] ^ words[t];
}

// A gate below 64 places is read back from its entry.
pub fn entries_tell_gates() -> u8
    ensures { Rereads }
{
    0
}
