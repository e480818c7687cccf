// Random numbers from a seed, so that each run makes the same ones.
#![tactic(auto)]

ghost use Rattle.std.specs.Prelude.{◌≡◌, ◌+◌, ◌%◌, ◌<◌, ◌≢◌, MatchOption, IfSome};
ghost use Rattle.random.specs.Random.{seeded, stepped, drawn, drawn_below, drawn_pair};

use std::marker::Model;

const SPREAD: u64 = 0x9e37_79b9_7f4a_7c15;

// A generator of random numbers, known by its state, which is never 0: that would stay 0.
#[derive(Drop)]
pub struct Random {
    state: u64,
}

impl Model for Random {
    ghost use Rattle.std.specs.Prelude.{ℕ, ◌<◌};

    ghost Value = { ℕ };

    ghost view = { λ r. r.state };

    ghost invariant = { λ r. 0 < r.state };
}

impl Random {
    // The last bit is set, so that the state is not 0.
    pub fn new(seed: u64) -> Random
        ensures { result ≡ seeded seed }
    {
        Random {
            state: seed.wrapping_mul(SPREAD) | 1,
        }
    }

    // A number below n, if there is one.
    pub fn below(&mut self, n: usize) -> Option<usize>
        ensures number { MatchOption result (n ≡ 0) (λ k. (k < n) × (k ≡ drawn_below self.old n)) }
        ensures state { MatchOption result (self.new ≡ self.old) (λ _. self.new ≡ stepped self.old) }
    {
        if n == 0 {
            return None;
        }
        Some(self.next() as usize % n)
    }

    // Two different numbers below n, if there are two.
    pub fn pair(&mut self, n: usize) -> Option<(usize, usize)>
        ensures below { MatchOption result (n < 2) (λ p. (p.0 < n) × ((p.1 < n) × (p.0 ≢ p.1))) }
        ensures numbers { IfSome result (λ p. p ≡ drawn_pair self.old n) }
        ensures state { MatchOption result (self.new ≡ self.old) (λ _. self.new ≡ stepped (stepped self.old)) }
    {
        if n < 2 {
            return None;
        }
        let a = self.below(n)?;
        let step = self.below(n - 1)?;
        Some((a, after(a, step, n)))
    }

    fn next(&mut self) -> u64
        ensures number { result ≡ drawn self.old }
        ensures state { self.new ≡ stepped self.old }
    {
        let mut x = self.state;
        x ^= x << 13;
        x ^= x >> 7;
        x ^= x << 17;
        self.state = x;
        x.wrapping_mul(SPREAD) >> 32
    }
}

// The number that is step + 1 after a, round the numbers below n.
fn after(a: usize, step: usize, n: usize) -> usize
    requires number { a < n }
    requires step { step + 1 < n }
    ensures below { result < n }
    ensures another { result ≢ a }
    ensures round { result ≡ (a + 1 + step) % n }
{
    if step < n - 1 - a {
        a + 1 + step
    } else {
        step - (n - 1 - a)
    }
}
