// One line of a console script, read as a command.
#![tactic(auto)]

ghost use Rattle.std.specs.Prelude.{◌∷◌, MatchOption};
ghost use Rattle.command.specs.Commands.{Says, Reads};
ghost use Rattle.command.specs.Shapes.{shape, Unfilled};
ghost use Rattle.command.specs.Verbs.{name_of};
ghost use Rattle.command.specs.Words.{words};

pub mod laws;
mod number;
mod shape;
pub mod verb;
mod words;

use shape::{alone, one_number, one_word, two_numbers};
use verb::{Mistake, Verb};
use words::first_word;

#[derive(Clone, Copy)]
pub enum Command<'a> {
    // A blank line or a comment.
    Nothing,
    Grid { rows: usize, columns: usize },
    Map { file: &'a [u8] },
    Table,
    Tape { length: usize },
    Out { coupler: usize },
    In { coupler: usize },
    Cnot { control: usize, target: usize },
    Words,
    Serves { coupler: usize },
    Allowance,
}

// Reads a line without its line feed. A number is in base ten, with no sign and no zero in front, and below 2^64.
pub fn read(line: &[u8]) -> Result<Command<'_>, Mistake>
    ensures { Reads (words line.now) result }
{
    let Some((word, rest)) = first_word(line) else {
        return Ok(Command::Nothing);
    };
    let verb = Verb::try_from(word)?;
    command_of(verb, rest).ok_or(Mistake::Usage(verb))
}

// A verb's command, from the words behind its name.
// Kept: each verb takes other words, so a table of closures would have to give them one shape.
fn command_of(verb: Verb, rest: &[u8]) -> Option<Command<'_>>
    ensures { MatchOption result (Unfilled (shape verb) (words rest.now)) (λ c. Says (name_of verb ∷ words rest.now) c) }
{
    match verb {
        Verb::Grid => {
            let (rows, columns) = two_numbers(rest)?;
            Some(Command::Grid { rows, columns })
        }
        Verb::Map => Some(Command::Map {
            file: one_word(rest)?,
        }),
        Verb::Table => alone(Command::Table, rest),
        Verb::Tape => Some(Command::Tape {
            length: one_number(rest)?,
        }),
        Verb::Out => Some(Command::Out {
            coupler: one_number(rest)?,
        }),
        Verb::In => Some(Command::In {
            coupler: one_number(rest)?,
        }),
        Verb::Cnot => {
            let (control, target) = two_numbers(rest)?;
            Some(Command::Cnot { control, target })
        }
        Verb::Words => alone(Command::Words, rest),
        Verb::Serves => Some(Command::Serves {
            coupler: one_number(rest)?,
        }),
        Verb::Allowance => alone(Command::Allowance, rest),
    }
}
