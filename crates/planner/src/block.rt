// Blocks: what a run of CX and SWAP calls has added up to.
ghost use Rattle.std.specs.Prelude.{◌≡◌, ◌<◌, ◌≤◌, length, Some, None};
ghost use Rattle.arrayvec.specs.ArrayVec.{array_vec_len};
ghost use Rattle.chip.specs.Answers.{answered, kept};
ghost use Rattle.parity.specs.Words.{fresh, cnot};
ghost use Rattle.planner.specs.Blocks.{wire_fault, traded};
ghost use Rattle.planner.specs.Views.{words_of};

use crate::fault::WireFault;
use crate::store::Block;
use arrayvec::ArrayVec;
use parity::fresh_words;

impl Block {
    // The block of n wires that does nothing; None unless 1 <= n <= 64.
    pub fn new(n: usize) -> Option<Block>
        ensures some { (b : Block) → result ≡ Some b → (length (words_of b) ≡ n) × (words_of b ≡ fresh n) }
        ensures none { result ≡ None → 1 ≤ n → 64 < n }
    {
        if n < 1 || n > 64 {
            return None;
        }
        Some(Block {
            words: fresh_of(n),
            duals: fresh_of(n),
        })
    }

    // The number of wires.
    pub fn wires(&self) -> usize
        ensures { result ≡ length (words_of self.now) }
    {
        self.words.len()
    }

    // The word of each wire.
    pub fn words(&self) -> &[u64]
        ensures { result.now ≡ words_of self.now }
    {
        self.words.as_slice()
    }

    // CX from wire a to wire b: the word of a is added into that of b, and the dual of b into that of a.
    // Refused, nothing changes.
    pub fn cx(&mut self, a: usize, b: usize) -> Result<(), WireFault>
        ensures answer { result ≡ answered (wire_fault (length (words_of self.old)) a b) tt }
        ensures leaves { words_of self.new ≡ kept (wire_fault (length (words_of self.old)) a b) (cnot (a, b) (words_of self.old)) (words_of self.old) }
        ensures same_size { length (words_of self.new) ≡ length (words_of self.old) }
    {
        check_wires(self.words.len(), a, b)?;
        add_into(&mut self.words, a, b);
        add_into(&mut self.duals, b, a);
        Ok(())
    }

    // Exchanges the wires a and b. Refused, nothing changes.
    pub fn swap(&mut self, a: usize, b: usize) -> Result<(), WireFault>
        ensures answer { result ≡ answered (wire_fault (length (words_of self.old)) a b) tt }
        ensures leaves { words_of self.new ≡ kept (wire_fault (length (words_of self.old)) a b) (traded a b (words_of self.old)) (words_of self.old) }
        ensures same_size { length (words_of self.new) ≡ length (words_of self.old) }
    {
        check_wires(self.words.len(), a, b)?;
        exchange(&mut self.words, a, b);
        exchange(&mut self.duals, a, b);
        Ok(())
    }
}

// The words of n wires before any gate.
fn fresh_of(n: usize) -> ArrayVec<u64, 64>
    requires { n ≤ 64 }
    ensures { result.items ≡ fresh n }
{
    let mut words = ArrayVec::from(fresh_words());
    words.truncate(n);
    words
}

// Whether a and b are two of n wires.
// Kept: a pair of wires, in each call here that has two, would be taken apart at once, as control and target or as ends of an exchange.
fn check_wires(n: usize, a: usize, b: usize) -> Result<(), WireFault>
    ensures { result ≡ answered (wire_fault n a b) tt }
{
    if a >= n || b >= n {
        return Err(WireFault::NoSuchWire);
    }
    if a == b {
        return Err(WireFault::SameWire);
    }
    Ok(())
}

// Adds a word into another.
fn add_into(words: &mut ArrayVec<u64, 64>, from: usize, into: usize)
    requires { (from < array_vec_len words.old) × (into < array_vec_len words.old) }
    ensures { words.new.items ≡ cnot (from, into) words.old.items }
{
    words[into] = words[from] ^ words[into];
}

// Exchanges two words.
fn exchange(words: &mut ArrayVec<u64, 64>, a: usize, b: usize)
    requires { (a < array_vec_len words.old) × (b < array_vec_len words.old) }
    ensures { words.new.items ≡ traded a b words.old.items }
{
    words.swap(a, b);
}
