// The free choices of a plan: which wire is next, and which place it is given.
// The plan is right for any choice that meets these contracts.
ghost use Rattle.std.specs.Prelude.{◌≡◌, ℕ, ◌+◌, ◌^◌, ◌<◌, ◌≤◌, true, ◌≢◌, length, ◌==◌, bit_xor, count_ones, MatchOption};
ghost use Rattle.parity.specs.Sets.{bit};
ghost use Rattle.islands.specs.Graphs.{Reach};
ghost use Rattle.rounds.specs.Ways.{Graph};
ghost use Rattle.rounds.specs.Rounds.{CanGo};

use islands::LiveGraph;
use parity::sets::{has, lowest, single, without};

// The first of the waiting wires whose set and dual have the fewest places, if any waits.
pub fn next_wire(waiting: u64, wanted: &[u64], duals: &[u64]) -> Option<usize>
    ensures { MatchOption result (waiting ≡ 0) (λ w. bit waiting w ≡ 1) }
{
    let first = lowest(waiting)?;
    let fewest = wanted
        .iter()
        .zip(duals.iter())
        .enumerate()
        .filter(|(w, _)| has(waiting, *w))
        .min_by_key(|(_, (x, y))| size(x, y));
    Some(fewest.map_or(first, |(w, _)| w))
}

// How many places a set and its dual have.
fn size(set: &u64, dual: &u64) -> u32
    ensures { result ≡ count_ones set.now + count_ones dual.now }
{
    set.count_ones() + dual.count_ones()
}

// A place of start's island that can go: the nearest to start that is found.
// Kept: that edges stand at both ends, here and in `plan`, `give` and the looks, is no fact of the type: `island_of` does not ask it.
pub fn root(graph: &LiveGraph<'_>, start: usize) -> usize
    requires graph { Graph graph.now.rows.now }
    requires inside { start < length graph.now.rows.now }
    requires alive { bit graph.now.live start ≡ 1 }
    ensures below { result < length graph.now.rows.now }
    ensures alive { bit graph.now.live result ≡ 1 }
    ensures reached { Reach graph.now.rows.now graph.now.live start result }
    ensures can_go { CanGo graph.now.rows.now graph.now.live result }
{
    let tree = graph.tree_order(start);
    let island = LiveGraph {
        rows: graph.rows,
        live: graph.island_of(start),
    };
    tree.order
        .iter()
        .find(|r| hangs_together_without(&island, **r))
        .copied()
        .unwrap_or(tree.order[tree.order.len() - 1])
}

// Whether the other places of an island reach one another without r.
fn hangs_together_without(island: &LiveGraph<'_>, r: usize) -> bool
    ensures { result ≡ true → Graph island.now.rows.now → bit island.now.live r ≡ 1 → (x y : ℕ) → x ≢ r → y ≢ r → bit island.now.live x ≡ 1 → bit island.now.live y ≡ 1 → Reach island.now.rows.now (bit_xor island.now.live (2 ^ r)) x y }
{
    let rest = without(island.live, single(r));
    let others = LiveGraph {
        rows: island.rows,
        live: rest,
    };
    match lowest(rest) {
        Some(q) => found_all(others.island_of(q), rest),
        None => true,
    }
}

// Whether what was found is all that there is.
// Kept: apart from its caller, so that a wrong test is refused at the source.
fn found_all(found: u64, all: u64) -> bool
    ensures { result ≡ (found == all) }
{
    found == all
}
