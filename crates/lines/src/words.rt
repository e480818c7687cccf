// Words as a line: those of a machine's places and those of a block.
ghost use Rattle.std.specs.Prelude.{◌≡◌, ◌<◌, string_bytes, MatchResult, slice_index};
ghost use Rattle.replies.specs.declared.refusal.Refusal.TheVariants.{NoMemory as OutOfMemory};
ghost use Rattle.lines.specs.Lines.{words_text, block_text};

use crate::add::{Spaced, add_all};
use chip::Chip;
use machine::Machine;
use replies::refusal::Refusal;
use std::alloc::Global;

// The line "words", then the word at each place in base ten.
pub fn words_line<M: Machine>(heap: Global, machine: &M) -> Result<String, Refusal>
    ensures { MatchResult result (λ line. string_bytes line ≡ words_text (M.Machine.meaning machine.now).words) (λ f. f ≡ OutOfMemory) }
{
    let mut line = String::from_str(heap, "words")?;
    // a proof knows nothing of what a closure has added to a line, so this is a loop and no `try_for_each`
    for q in 0..machine.width() {
        word_at(machine, q).add_to(&mut line)?;
    }
    Ok(line)
}

fn word_at<M: Machine>(machine: &M, q: usize) -> u64
    requires { q < (M.Chip.layout machine.now).places }
    ensures { result ≡ slice_index (M.Machine.meaning machine.now).words q }
{
    machine.word(q).unwrap()
}

// The line "block", then the word of each wire in base ten.
pub fn block_line(heap: Global, words: &[u64]) -> Result<String, Refusal>
    ensures { MatchResult result (λ line. string_bytes line ≡ block_text words.now) (λ f. f ≡ OutOfMemory) }
{
    let mut line = String::from_str(heap, "block")?;
    add_all(&mut line, words)?;
    Ok(line)
}
