// Numbers, as they are written in a word.
ghost use Rattle.std.specs.Prelude.{◌≡◌, ℕ, ◌+◌, ◌*◌, ◌^◌, ◌<◌, ◌≤◌, MatchOption};
ghost use Rattle.command.specs.Numbers.{Writes, zero_led};

// Whether a zero stands before other bytes.
fn zero_led(word: &[u8]) -> bool
    ensures { result ≡ zero_led word.now }
{
    word.len() > 1 && word[0] == b'0'
}

// A number with one more digit behind it, if that is below 2^64.
fn with_digit(number: usize, digit: u8) -> Option<usize>
    ensures { MatchOption result (2 ^ 64 ≤ 10 * number + digit) (λ n. (n < 2 ^ 64) × (n ≡ 10 * number + digit)) }
{
    number.checked_mul(10)?.checked_add(digit as usize)
}

// The number that a word writes in base ten, if it writes one below 2^64.
// Kept: digit by digit, since `from_utf8` and `from_str_radix` take half as long again.
pub fn number(word: &[u8]) -> Option<usize>
    ensures { MatchOption result ((n : ℕ) → Writes word.now n → ⊥) (λ n. Writes word.now n) }
{
    if word.is_empty() || zero_led(word) {
        return None;
    }
    let mut value: usize = 0;
    for b in word {
        if !b.is_ascii_digit() {
            return None;
        }
        value = with_digit(value, *b - b'0')?;
    }
    Some(value)
}
