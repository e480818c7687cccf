// A round: gates that bring a wire's wanted set to a place, and of its dual leave there nothing else on the island.
ghost use Rattle.std.specs.Prelude.{◌≡◌, ℕ, ◌+◌, ◌-◌, ◌*◌, ◌/◌, ◌%◌, ◌^◌, ◌<◌, ◌≤◌, map, length, take, drop, count_ones, slice_index};
ghost use Rattle.parity.specs.Words.{entry, gate_of};
ghost use Rattle.parity.specs.Sets.{bit};
ghost use Rattle.parity.specs.Gates.{act, TwoPlaces, Each};
ghost use Rattle.parity.specs.Pairing.{dot, turned};
ghost use Rattle.parity.specs.Entries.{gates_in};
ghost use Rattle.islands.specs.Graphs.{Reach};
ghost use Rattle.rounds.specs.Duals.{Moved};
ghost use Rattle.rounds.specs.Rounds.{BothBrought, Told};

use islands::LiveGraph;
use parity::sets::{acted, ends_of, entry_of};

// Brings the wanted set of the wire w to r, along edges inside live, and then its dual, as far as it lies on the island of r,
// with control and target exchanged. Writes the gates into out from `at` on, and returns where they end.
// Kept: sets and duals, here and in `plan`, `give` and `next_wire`, change roles halfway, so a pair would be taken apart.
// Kept: the contract says between which places of the one buffer the gates lie, so a writer of both would be taken apart.
pub fn bring_both(
    graph: &LiveGraph<'_>,
    w: usize,
    r: usize,
    wanted: &mut [u64],
    duals: &mut [u64],
    out: &mut [u16],
    at: usize,
) -> usize
    requires inside { r < length graph.now.rows.now }
    requires alive { bit graph.now.live r ≡ 1 }
    requires wire { (w < length wanted.old) × (w < length duals.old) }
    requires on_island { (q : ℕ) → bit (slice_index wanted.old w) q ≡ 1 → Reach graph.now.rows.now graph.now.live r q }
    requires paired { dot (slice_index wanted.old w) (slice_index duals.old w) ≡ 1 }
    requires room { at + 4 * (count_ones graph.now.live - 1) ≤ length out.old }
    ensures both { BothBrought graph.now.rows.now graph.now.live w r wanted.old wanted.new duals.old duals.new out.old out.new at result }
    ensures told { Told graph.now.rows.now graph.now.live r }
{
    let tree = graph.tree_order(r);
    let mid = graph.bring_along(&tree, r, wanted[w], out, at);
    carry(&out[at..mid], wanted, duals);
    let island = graph.island_of(r);
    let end = graph.bring_along(&tree, r, duals[w] & island, out, mid);
    carry(&out[mid..end], duals, wanted);
    turn(&mut out[mid..end]);
    end
}

// The gates of the entries act on each set of `straight`, and turned on each of `reversed`.
fn carry(entries: &[u16], straight: &mut [u64], reversed: &mut [u64])
    requires { Each (TwoPlaces 64) (map gate_of entries.now) }
    ensures moved { Moved (map gate_of entries.now) straight.old straight.new }
    ensures moved_turned { Moved (turned (map gate_of entries.now)) reversed.old reversed.new }
{
    for e in entries {
        let (c, t) = ends_of(*e);
        act_on_each(straight, c, t);
        act_on_each(reversed, t, c);
    }
}

// Each set after the gate with control c and target t.
fn act_on_each(sets: &mut [u64], c: usize, t: usize)
    requires { c < 64 }
    ensures { sets.new ≡ map (act (c, t)) sets.old }
{
    for x in sets.iter_mut() {
        *x = acted(*x, c, t);
    }
}

// Exchanges control and target in each entry.
fn turn(entries: &mut [u16])
    requires { Each (TwoPlaces 64) (map gate_of entries.old) }
    ensures { map gate_of entries.new ≡ turned (map gate_of entries.old) }
{
    for e in entries.iter_mut() {
        *e = turned_entry(*e);
    }
}

// The entry of the same gate with control and target exchanged.
fn turned_entry(e: u16) -> u16
    ensures { e / 64 < 64 → result ≡ entry (e % 64, e / 64) }
{
    let (c, t) = ends_of(e);
    entry_of(t, c)
}
