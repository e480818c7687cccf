// What stands behind a command's name.
ghost use Rattle.std.specs.Prelude.{◌≡◌, MatchOption};
ghost use Rattle.command.specs.Shapes.{bare, one_word, one_number, two_numbers, Fills, Unfilled};
ghost use Rattle.command.specs.Words.{words};

use crate::Command;
use crate::number::number;
use crate::words::first_word;

// Nothing, if no word is left.
pub fn no_word(rest: &[u8]) -> Option<()>
    ensures { MatchOption result (Unfilled bare (words rest.now)) (λ x. Fills bare (words rest.now) x) }
{
    first_word(rest).is_none().then_some(())
}

// The command, if no word is left.
pub fn alone<'a>(command: Command<'a>, rest: &[u8]) -> Option<Command<'a>>
    ensures { MatchOption result (Unfilled bare (words rest.now)) (λ c. Fills bare (words rest.now) tt × (c ≡ command.entry)) }
{
    no_word(rest)?;
    Some(command)
}

// The one word that is left.
pub fn one_word(rest: &[u8]) -> Option<&[u8]>
    ensures { MatchOption result (Unfilled one_word (words rest.now)) (λ x. Fills one_word (words rest.now) x.now) }
{
    let (word, rest) = first_word(rest)?;
    no_word(rest)?;
    Some(word)
}

// The one number that is left.
pub fn one_number(rest: &[u8]) -> Option<usize>
    ensures { MatchOption result (Unfilled one_number (words rest.now)) (λ x. Fills one_number (words rest.now) x) }
{
    number(one_word(rest)?)
}

// The two numbers that are left.
pub fn two_numbers(rest: &[u8]) -> Option<(usize, usize)>
    ensures { MatchOption result (Unfilled two_numbers (words rest.now)) (λ x. Fills two_numbers (words rest.now) x) }
{
    let (word, rest) = first_word(rest)?;
    let first = number(word)?;
    let second = one_number(rest)?;
    Some((first, second))
}
