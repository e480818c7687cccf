// Words as sets of places, in code. No place of a word is 64 or above.
ghost use Rattle.std.specs.Prelude.{◌≡◌, ℕ, ◌-◌, ◌^◌, ◌<◌, ◌≤◌, ◌≢◌, ◌==◌, bit_xor, MatchOption};
ghost use Rattle.parity.specs.Words.{entry, gate_of};
ghost use Rattle.parity.specs.Sets.{bit, when, LowestPlace};
ghost use Rattle.parity.specs.Gates.{act};
ghost use Rattle.parity.specs.Pairing.{dot};

// Whether place q is in x.
pub fn has(x: u64, q: usize) -> bool
    ensures { result ≡ (bit x q == 1) }
{
    digit(x, q) == 1
}

// The bit of x at place q, 0 past the last place.
fn digit(x: u64, q: usize) -> u64
    ensures { result ≡ bit x q }
{
    if q < 64 { (x >> q) & 1 } else { 0 }
}

// The set of place q alone; empty past the last place.
pub fn single(q: usize) -> u64
    ensures place { q < 64 → result ≡ 2 ^ q }
    ensures past { 64 ≤ q → result ≡ 0 }
{
    if q < 64 { 1 << q } else { 0 }
}

// x with place q flipped; x itself past the last place.
pub fn flip(x: u64, q: usize) -> u64
    ensures place { q < 64 → result ≡ bit_xor x (2 ^ q) }
    ensures past { 64 ≤ q → result ≡ x }
{
    if q < 64 { x ^ single(q) } else { x }
}

// The places of x that are not in y.
pub fn without(x: u64, y: u64) -> u64
    ensures only { (q : ℕ) → bit result q ≡ 1 → (bit x q ≡ 1) × (bit y q ≡ 0) }
    ensures all { (q : ℕ) → bit x q ≡ 1 → bit y q ≡ 0 → bit result q ≡ 1 }
{
    common(x, others(y))
}

// The places in both x and y. Those of x are below 64, so y is asked for no others.
fn common(x: u64, y: u64) -> u64
    ensures only { (q : ℕ) → bit result q ≡ 1 → (bit x q ≡ 1) × (bit y q ≡ 1) }
    ensures all { (q : ℕ) → bit x q ≡ 1 → (q < 64 → bit y q ≡ 1) → bit result q ≡ 1 }
{
    x & y
}

// The places that are not in y.
fn others(y: u64) -> u64
    ensures only { (q : ℕ) → bit result q ≡ 1 → bit y q ≡ 0 }
    ensures all { (q : ℕ) → q < 64 → bit y q ≡ 0 → bit result q ≡ 1 }
{
    !y
}

// The lowest place of x, if it has one.
pub fn lowest(x: u64) -> Option<usize>
    ensures { MatchOption result (x ≡ 0) (LowestPlace x) }
{
    if x == 0 {
        None
    } else {
        Some(zeros_before(x) as usize)
    }
}

// How many places there are before the first place of x.
fn zeros_before(x: u64) -> u32
    ensures below { x ≢ 0 → result < 64 }
    ensures inside { x ≢ 0 → bit x result ≡ 1 }
    ensures least { (q : ℕ) → q < result → bit x q ≡ 0 }
    ensures none { x ≡ 0 → result ≡ 64 }
{
    x.trailing_zeros()
}

// The places below n.
pub fn all_below(n: usize) -> u64
    ensures places { n ≤ 64 → result ≡ 2 ^ n - 1 }
    ensures past { 64 ≤ n → result ≡ 2 ^ 64 - 1 }
{
    if n < 64 { (1 << n) - 1 } else { u64::MAX }
}

// 1 where x and y share an odd number of places, and 0 where an even number.
pub fn pairing(x: u64, y: u64) -> u32
    ensures { result ≡ dot x y }
{
    (x & y).count_ones() % 2
}

// The set x after the gate with control c and target t; x itself for a control past the last place.
// Kept: control and target are two numbers, here and wherever a gate is asked for, as a CNOT is commonly written.
pub fn acted(x: u64, c: usize, t: usize) -> u64
    ensures places { c < 64 → result ≡ act (c, t) x }
    ensures past { 64 ≤ c → result ≡ x }
{
    if c < 64 { x ^ flipped(x, c, t) } else { x }
}

// What the gate flips in x: its control, where its target is in x.
fn flipped(x: u64, c: usize, t: usize) -> u64
    requires { c < 64 }
    ensures { result ≡ when (bit x t) (2 ^ c) }
{
    if has(x, t) { single(c) } else { 0 }
}

// The gate with control c and target t as an entry; 0 where an end is past the last place.
// Kept: each caller knows that its ends are places, and would only have to open an option.
pub fn entry_of(c: usize, t: usize) -> u16
    ensures gate { c < 64 → t < 64 → result ≡ entry (c, t) }
    ensures past_control { 64 ≤ c → result ≡ 0 }
    ensures past_target { 64 ≤ t → result ≡ 0 }
{
    if c < 64 && t < 64 {
        (64 * c + t) as u16
    } else {
        0
    }
}

// The control and the target of an entry's gate.
pub fn ends_of(e: u16) -> (usize, usize)
    ensures { result ≡ gate_of e }
{
    ((e / 64) as usize, (e % 64) as usize)
}
