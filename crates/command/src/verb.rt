// The names of the commands, and what is said of a line that is none.
ghost use Rattle.std.specs.Prelude.{◌≡◌, ◌≢◌, ◌++◌, Some, codes, MatchOption};
ghost use Rattle.std.specs.List.{AllByRecursion};
ghost use Rattle.std.specs.Str.{bytes_eq};
ghost use Rattle.command.specs.Verbs.{name_of, usage_of, wanted, Names};

use std::fmt;

#[derive(Clone, Copy, PartialEq, Eq, Debug)]
pub enum Verb {
    Grid,
    Map,
    Table,
    Tape,
    Out,
    In,
    Cnot,
    Words,
    Serves,
    Allowance,
}

// Every verb once.
const VERBS: [Verb; 10] = [
    Verb::Grid,
    Verb::Map,
    Verb::Table,
    Verb::Tape,
    Verb::Out,
    Verb::In,
    Verb::Cnot,
    Verb::Words,
    Verb::Serves,
    Verb::Allowance,
];

impl Verb {
    // The first word of its command.
    pub fn name(self) -> &'static [u8]
        ensures { result.now ≡ name_of self }
    {
        match self {
            Verb::Grid => b"grid",
            Verb::Map => b"map",
            Verb::Table => b"table",
            Verb::Tape => b"tape",
            Verb::Out => b"out",
            Verb::In => b"in",
            Verb::Cnot => b"cnot",
            Verb::Words => b"words",
            Verb::Serves => b"serves",
            Verb::Allowance => b"allowance",
        }
    }

    fn is_named(self, word: &[u8]) -> bool
        ensures { result ≡ bytes_eq word.now (name_of self) }
    {
        word == self.name()
    }

    // Its command with every word.
    pub fn usage(self) -> &'static str
        ensures { result.now ≡ usage_of self }
    {
        match self {
            Verb::Grid => "grid R C",
            Verb::Map => "map FILE",
            Verb::Table => "table",
            Verb::Tape => "tape LENGTH",
            Verb::Out => "out K",
            Verb::In => "in K",
            Verb::Cnot => "cnot C T",
            Verb::Words => "words",
            Verb::Serves => "serves K",
            Verb::Allowance => "allowance",
        }
    }
}

// The first of some verbs that a word names, if it names one.
fn named_among(verbs: &[Verb], word: &[u8]) -> Option<Verb>
    ensures { MatchOption result (AllByRecursion (λ v. word.now ≢ name_of v) verbs.now) (λ v. word.now ≡ name_of v) }
{
    verbs.iter().find(|verb| verb.is_named(word)).copied()
}

// The verb that a word names, if it names one.
pub fn verb_named(word: &[u8]) -> Option<Verb>
    ensures { MatchOption result ((v : Verb) → word.now ≢ name_of v) (λ v. word.now ≡ name_of v) }
{
    named_among(&VERBS, word)
}

impl<'a> TryFrom<&'a [u8]> for Verb {
    type Error = Mistake;

    ghost try_from_gives = { Names };

    fn try_from(word: &'a [u8]) -> Result<Verb, Mistake> {
        verb_named(word).ok_or(Mistake::Command)
    }
}

// What was expected in place of a line.
#[derive(Clone, Copy, PartialEq, Eq, Debug)]
pub enum Mistake {
    Command,
    Usage(Verb),
}

impl Mistake {
    pub fn wanted(&self) -> &'static str
        ensures { result.now ≡ wanted self.now }
    {
        match self {
            Mistake::Command => "a command",
            Mistake::Usage(verb) => verb.usage(),
        }
    }
}

// Kept: clauses say what is written, and thiserror's derive promises nothing of its text.
impl fmt::Display for Mistake {
    ghost output = { λ m. Some (codes "expected: " ++ wanted m) };

    fn fmt<W: fmt::Write>(&self, f: &mut fmt::Formatter<W>) -> fmt::Result {
        let wanted = self.wanted();
        write!(f, "expected: {wanted}")
    }
}
