// The words of a line, from the front.
ghost use Rattle.std.specs.Prelude.{◌≡◌, true, false, [], ◌∷◌, MatchOption};
ghost use Rattle.command.specs.Words.{blank, Front, words, wordless};

fn is_blank(b: u8) -> bool
    ensures { result ≡ blank b }
{
    matches!(b, b' ' | b'\t' | b'\r')
}

// How many bytes stand before the first word.
// Kept: a loop, here and below, since `position` with a closure takes two to three times as long.
fn gap_length(line: &[u8]) -> usize
    ensures { Front true line.now result }
{
    for (i, b) in line.iter().enumerate() {
        if !is_blank(*b) {
            return i;
        }
    }
    line.len()
}

// How many bytes stand before the first blank.
fn word_length(rest: &[u8]) -> usize
    ensures { Front false rest.now result }
{
    for (i, b) in rest.iter().enumerate() {
        if is_blank(*b) {
            return i;
        }
    }
    rest.len()
}

// Whether what is left past the blanks has no word: it is empty, or a comment.
fn wordless(rest: &[u8]) -> bool
    ensures { result ≡ wordless rest.now }
{
    matches!(rest, [] | [b'#', ..])
}

// The first word, with what stands behind it.
pub fn first_word(line: &[u8]) -> Option<(&[u8], &[u8])>
    ensures { MatchOption result (words line.now ≡ []) (λ p. words line.now ≡ p.0.now ∷ words p.1.now) }
{
    let rest = &line[gap_length(line)..];
    if wordless(rest) {
        return None;
    }
    Some(rest.split_at(word_length(rest)))
}
