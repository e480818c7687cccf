// Plans for wanted sets: round by round, each wire is given a place of its own.
#![tactic(auto)]

ghost use Rattle.std.specs.Prelude.{◌≡◌, ℕ, ◌+◌, ◌-◌, ◌*◌, ◌^◌, ◌<◌, ◌≤◌, length, Some, None, count_ones, slice_index};
ghost use Rattle.parity.specs.Sets.{bit};
ghost use Rattle.parity.specs.Pairing.{dot};
ghost use Rattle.islands.specs.Graphs.{Reach};
ghost use Rattle.rounds.specs.Ways.{Graph};
ghost use Rattle.rounds.specs.Duals.{Paired};
ghost use Rattle.rounds.specs.Rounds.{Given, Told};
ghost use Rattle.rounds.specs.Plans.{Planned};
ghost use Rattle.rounds.specs.Exactness.{Refused, Exact, StraddlingStays, StraddlingNeverSingle};

use choice::{next_wire, root};
use islands::LiveGraph;
use looks::{all_single, all_single_on, first_straddling};
use parity::sets::{all_below, lowest, single};
use round::bring_both;

pub mod choice;
pub mod looks;
pub mod round;

// Gates on edges that turn each wanted set into a place of its own, written to the front of out.
// Returns how many, or None where there are none; then nothing is touched.
pub fn plan(adj: &[u64], wanted: &mut [u64], duals: &mut [u64], out: &mut [u16]) -> Option<usize>
    requires small { length adj.now ≤ 64 }
    requires graph { Graph adj.now }
    requires lengths { (length wanted.old ≡ length adj.now) × (length duals.old ≡ length adj.now) }
    requires sets_below { (w : ℕ) → slice_index wanted.old w < 2 ^ length adj.now }
    requires duals_below { (w : ℕ) → slice_index duals.old w < 2 ^ length adj.now }
    requires paired { Paired (length adj.now) wanted.old duals.old }
    requires room { 2 * (length adj.now * (length adj.now - 1)) ≤ length out.old }
    ensures planned { (k : ℕ) → result ≡ Some k → Planned adj.now wanted.old wanted.new duals.old duals.new out.old out.new k }
    ensures refused { result ≡ None → Refused adj.now wanted.old }
    ensures exact { Exact adj.now wanted.old }
    ensures nothing_touched { result ≡ None → (wanted.new ≡ wanted.old) × (duals.new ≡ duals.old) × (out.new ≡ out.old) }
{
    if all_single(wanted) {
        return Some(0);
    }
    if first_straddling(adj, wanted).is_some() {
        return None;
    }
    let mut live = all_below(adj.len());
    let mut waiting = live;
    let mut at = 0;
    while let Some(w) = next_wire(waiting, wanted, duals) {
        let graph = LiveGraph { rows: adj, live };
        let (r, end) = give(&graph, w, wanted, duals, out, at);
        at = end;
        live ^= single(r);
        waiting ^= single(w);
    }
    Some(at)
}

// Gives the wire w a place: by a round, unless each set on its island is a single place.
// Writes the gates into out from `at` on. Returns the place, and where the gates end.
// Kept: the contract says between which places of the one buffer the gates lie, so a writer of both would be taken apart.
fn give(
    graph: &LiveGraph<'_>,
    w: usize,
    wanted: &mut [u64],
    duals: &mut [u64],
    out: &mut [u16],
    at: usize,
) -> (usize, usize)
    requires graph { Graph graph.now.rows.now }
    requires wire { (w < length wanted.old) × (w < length duals.old) }
    requires alive { (q : ℕ) → bit (slice_index wanted.old w) q ≡ 1 → bit graph.now.live q ≡ 1 }
    requires on_island { (p q : ℕ) → bit (slice_index wanted.old w) p ≡ 1 → bit (slice_index wanted.old w) q ≡ 1 → Reach graph.now.rows.now graph.now.live p q }
    requires paired { dot (slice_index wanted.old w) (slice_index duals.old w) ≡ 1 }
    requires room { at + 4 * (count_ones graph.now.live - 1) ≤ length out.old }
    ensures below { result.0 < length graph.now.rows.now }
    ensures alive { bit graph.now.live result.0 ≡ 1 }
    ensures told { Told graph.now.rows.now graph.now.live result.0 }
    ensures given { Given graph.now.rows.now graph.now.live w result.0 wanted.old wanted.new duals.old duals.new out.old out.new at result.1 }
{
    let start = lowest(wanted[w]).unwrap();
    let island = graph.island_of(start);
    if all_single_on(island, wanted) {
        return (start, at);
    }
    let r = root(graph, start);
    let end = bring_both(graph, w, r, wanted, duals, out, at);
    (r, end)
}

// A set with places on two islands has places on both after any gates on edges, so it never becomes a single place.
pub fn straddling_sets_keep_straddling() -> u8
    ensures stays { StraddlingStays }
    ensures never_single { StraddlingNeverSingle }
{
    0
}
