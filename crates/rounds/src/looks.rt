// What is asked of wanted sets: whether they are single places, and whether they straddle islands.
ghost use Rattle.std.specs.Prelude.{◌≡◌, ℕ, ◌-◌, ◌^◌, ◌<◌, ◌≤◌, true, false, ◌≢◌, length, Some, None, bit_and, count_ones, slice_index};
ghost use Rattle.parity.specs.Sets.{bit};
ghost use Rattle.rounds.specs.Ways.{Graph, OneIsland, Straddles};
ghost use Rattle.rounds.specs.Plans.{AllSingle};
ghost use Rattle.rounds.specs.Exactness.{FirstStraddling};

use islands::LiveGraph;
use parity::sets::{all_below, lowest, without};

// Whether each set is a single place.
pub fn all_single(wanted: &[u64]) -> bool
    ensures yes { result ≡ true → AllSingle (length wanted.now) wanted.now }
    ensures no { AllSingle (length wanted.now) wanted.now → result ≡ true }
{
    wanted.iter().all(|x| x.count_ones() == 1)
}

// Whether each set with a place on the island is a single place.
pub fn all_single_on(island: u64, wanted: &[u64]) -> bool
    ensures yes { result ≡ true → (v : ℕ) → v < length wanted.now → (q : ℕ) → bit (slice_index wanted.now v) q ≡ 1 → bit island q ≡ 1 → count_ones (slice_index wanted.now v) ≡ 1 }
    ensures no { result ≡ false → (v : ℕ) × (v < length wanted.now) × (count_ones (slice_index wanted.now v) ≢ 1) × ((q : ℕ) × (bit (slice_index wanted.now v) q ≡ 1) × (bit island q ≡ 1)) }
{
    wanted.iter().all(|x| is_single_on(island, *x))
}

// Whether the set is a single place, if it has a place on the island.
fn is_single_on(island: u64, x: u64) -> bool
    ensures yes { result ≡ true → (q : ℕ) → bit x q ≡ 1 → bit island q ≡ 1 → count_ones x ≡ 1 }
    ensures no { result ≡ false → (count_ones x ≢ 1) × ((q : ℕ) × (bit x q ≡ 1) × (bit island q ≡ 1)) }
{
    x & island == 0 || x.count_ones() == 1
}

// The first wire whose set has two places with no way between them.
pub fn first_straddling(adj: &[u64], wanted: &[u64]) -> Option<usize>
    requires small { length adj.now ≤ 64 }
    requires graph { Graph adj.now }
    requires below { (w : ℕ) → slice_index wanted.now w < 2 ^ length adj.now }
    ensures straddles { (w : ℕ) → result ≡ Some w → FirstStraddling adj.now wanted.now w }
    ensures none { result ≡ None → (w : ℕ) → w < length wanted.now → OneIsland adj.now (slice_index wanted.now w) }
{
    let graph = LiveGraph {
        rows: adj,
        live: all_below(adj.len()),
    };
    wanted.iter().position(|x| straddles(&graph, *x))
}

// Whether the set has two places with no way between them, in a graph whose places are all live.
fn straddles(graph: &LiveGraph<'_>, x: u64) -> bool
    requires graph { Graph graph.now.rows.now }
    requires all_live { graph.now.live ≡ 2 ^ length graph.now.rows.now - 1 }
    ensures yes { result ≡ true → x < 2 ^ length graph.now.rows.now → Straddles graph.now.rows.now x }
    ensures no { result ≡ false → x < 2 ^ length graph.now.rows.now → OneIsland graph.now.rows.now x }
{
    match lowest(x & graph.live) {
        Some(q) => any(off_island(x, graph.live, graph.island_of(q))),
        None => false,
    }
}

// The places of x that are of live and not of the island.
fn off_island(x: u64, live: u64, island: u64) -> u64
    ensures only { (q : ℕ) → bit result q ≡ 1 → (bit (bit_and x live) q ≡ 1) × (bit island q ≡ 0) }
    ensures all { (q : ℕ) → bit (bit_and x live) q ≡ 1 → bit island q ≡ 0 → bit result q ≡ 1 }
{
    without(x & live, island)
}

// Whether a set has a place.
// Kept: apart from its caller, so that a wrong test is refused at the source.
fn any(x: u64) -> bool
    ensures yes { result ≡ true → x ≢ 0 }
    ensures no { result ≡ false → x ≡ 0 }
{
    x != 0
}
