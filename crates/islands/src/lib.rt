// Islands: which places hang together, trees on them, and gates that gather a set of places into one.
#![tactic(auto)]

ghost use Rattle.std.specs.Prelude.{◌≡◌, ℕ, ◌+◌, ◌-◌, ◌*◌, ◌^◌, ◌<◌, ◌≤◌, ◌≢◌, List, [], ◌∷◌, ◌++◌, length, set, bit_and, bit_or, count_ones, slice_index, slice_set};
ghost use Rattle.arrayvec.specs.ArrayVec.{array_vec_len};
ghost use Rattle.parity.specs.Words.{entry, replay};
ghost use Rattle.parity.specs.Sets.{bit, xor_over};
ghost use Rattle.parity.specs.Gates.{acts, TwoPlaces, Each, Spares};
ghost use Rattle.parity.specs.Entries.{gates_in, Wrote};
ghost use Rattle.islands.specs.Graphs.{Reach, OnEdge, OnIsland};
ghost use Rattle.islands.specs.Trees.{TreeOrder, ParentsFirst, PlacesBelow, Within};
ghost use Rattle.islands.specs.Moves.{AlongTree, Settled};
ghost use Rattle.islands.specs.Laws.{LastPlaceCanGo};

use arrayvec::ArrayVec;
use parity::sets::{entry_of, flip, has, lowest, single, without};

// For each of at most 64 places the set of its neighbours, and which places are live: may still be used.
#[derive(Clone, Copy)]
pub struct LiveGraph<'a> {
    pub rows: &'a [u64],
    pub live: u64,
    ghost small: { length rows.now ≤ 64 },
    ghost inside: { live < 2 ^ length rows.now },
}

// A tree on an island: its places in order, the root first, and the parent of each other place.
#[derive(Drop)]
pub struct Tree {
    pub order: ArrayVec<usize, 64>,
    pub parent: [usize; 64],
}

impl LiveGraph<'_> {
    // The island of start: the places that are reached from it by steps to places of live.
    pub fn island_of(&self, start: usize) -> u64
        requires { start < length self.now.rows.now }
        ensures only_reached { (q : ℕ) → bit result q ≡ 1 → Reach self.now.rows.now self.now.live start q }
        ensures all_reached { (q : ℕ) → Reach self.now.rows.now self.now.live start q → bit result q ≡ 1 }
    {
        let mut seen = single(start);
        let mut done: u64 = 0;
        while let Some(q) = lowest(without(seen, done)) {
            seen = with_live(seen, self.rows[q], self.live);
            done ^= single(q);
        }
        seen
    }

    // The island of root as a tree, breadth first.
    pub fn tree_order(&self, root: usize) -> Tree
        requires inside { root < length self.now.rows.now }
        ensures no_more_than_places { array_vec_len result.order ≤ length self.now.rows.now }
        ensures no_more_than_live { bit self.now.live root ≡ 1 → array_vec_len result.order ≤ count_ones self.now.live }
        ensures tree { TreeOrder self.now.rows.now self.now.live root result.order.items result.parent (array_vec_len result.order) }
    {
        let mut seen = single(root);
        // In place from the start: a move of a tree copies a kibibyte.
        let mut tree = Tree {
            order: ArrayVec::new(),
            parent: [0; 64],
        };
        tree.order.push(root);
        let mut head = 0;
        // Kept: the order grows while it is walked, so no iterator may hold it.
        while head < tree.order.len() {
            let q = tree.order[head];
            match lowest(without(self.rows[q] & self.live, seen)) {
                Some(r) => {
                    seen ^= single(r);
                    hang(&mut tree, r, q);
                }
                None => head += 1,
            }
        }
        tree
    }

    // Brings the set `word` to root, along neighbours inside live. Writes the gates into out from `at` on,
    // and returns where they end.
    // Kept: the contracts say between which places of the one buffer the gates of each call lie, so a writer of both would be taken apart.
    pub fn bring(&self, root: usize, word: u64, out: &mut [u16], at: usize) -> usize
        requires inside { root < length self.now.rows.now }
        requires some { word ≢ 0 }
        requires on_island { (q : ℕ) → bit word q ≡ 1 → Reach self.now.rows.now self.now.live root q }
        requires alive { bit self.now.live root ≡ 1 }
        requires room { at + 2 * (count_ones self.now.live - 1) ≤ length out.old }
        ensures wrote { Wrote out.old out.new at result (2 * (count_ones self.now.live - 1)) }
        ensures brought { acts (gates_in out.new at result) word ≡ 2 ^ root }
        ensures two_places { Each (TwoPlaces (length self.now.rows.now)) (gates_in out.new at result) }
        ensures on_edges { Each (OnEdge self.now.rows.now) (gates_in out.new at result) }
        ensures on_island { Each (OnIsland self.now.rows.now self.now.live root) (gates_in out.new at result) }
        ensures spares_root { bit word root ≡ 1 → Each (Spares root) (gates_in out.new at result) }
        ensures delivers { (ws : List ℕ) → length ws ≡ length self.now.rows.now → slice_index (replay (gates_in out.new at result) ws) root ≡ xor_over ws word }
    {
        let tree = self.tree_order(root);
        self.bring_along(&tree, root, word, out, at)
    }

    // The same along a tree that is at hand.
    pub fn bring_along(
        &self,
        tree: &Tree,
        root: usize,
        word: u64,
        out: &mut [u16],
        at: usize,
    ) -> usize
        requires tree { TreeOrder self.now.rows.now self.now.live root tree.now.order.items tree.now.parent (array_vec_len tree.now.order) }
        requires few { array_vec_len tree.now.order ≤ count_ones self.now.live }
        requires some { word ≢ 0 }
        requires on_island { (q : ℕ) → bit word q ≡ 1 → Reach self.now.rows.now self.now.live root q }
        requires alive { bit self.now.live root ≡ 1 }
        requires room { at + 2 * (count_ones self.now.live - 1) ≤ length out.old }
        ensures wrote { Wrote out.old out.new at result (2 * (count_ones self.now.live - 1)) }
        ensures brought { acts (gates_in out.new at result) word ≡ 2 ^ root }
        ensures two_places { Each (TwoPlaces (length self.now.rows.now)) (gates_in out.new at result) }
        ensures on_edges { Each (OnEdge self.now.rows.now) (gates_in out.new at result) }
        ensures on_island { Each (OnIsland self.now.rows.now self.now.live root) (gates_in out.new at result) }
        ensures spares_root { bit word root ≡ 1 → Each (Spares root) (gates_in out.new at result) }
        ensures delivers { (ws : List ℕ) → length ws ≡ length self.now.rows.now → slice_index (replay (gates_in out.new at result) ws) root ≡ xor_over ws word }
    {
        gather(tree.order.as_slice(), &tree.parent, word, out, at)
    }
}

// Gathers the set `word` into the root of a tree, from the last place of the order up.
// Writes the gates into out from `at` on, and returns where they end.
// Kept: the contract says between which places of the one buffer the gates lie, so a writer of both would be taken apart.
pub fn gather(order: &[usize], parent: &[usize], word: u64, out: &mut [u16], at: usize) -> usize
    requires some { (0 < length order.now) × (word ≢ 0) }
    requires places { (PlacesBelow order.now (length parent.now)) × (length parent.now ≤ 64) }
    requires tree { ParentsFirst order.now parent.now }
    requires within { Within order.now (length order.now) word }
    requires room { at + 2 * (length order.now - 1) ≤ length out.old }
    ensures wrote { Wrote out.old out.new at result (2 * (length order.now - 1)) }
    ensures gathered { acts (gates_in out.new at result) word ≡ 2 ^ slice_index order.now 0 }
    ensures along_tree { Each (AlongTree order.now parent.now) (gates_in out.new at result) }
    ensures spares_all_but_children { (q : ℕ) → ((i : ℕ) → 0 < i → i < length order.now → slice_index order.now i ≢ q) → bit word q ≡ 1 → Each (Spares q) (gates_in out.new at result) }
    ensures delivers { (ws : List ℕ) → PlacesBelow order.now (length ws) → slice_index (replay (gates_in out.new at result) ws) (slice_index order.now 0) ≡ xor_over ws word }
{
    let mut x = word;
    let mut k = at;
    for u in order[1..].iter().rev() {
        (x, k) = settle(*u, parent[*u], x, out, k);
    }
    k
}

// Clears place u of the set x through its neighbour p. Writes the gates into out from k on,
// and returns what is left of the set and where the gates end.
// Kept: the contract says between which places of the one buffer the gates lie, so a writer of both would be taken apart.
fn settle(u: usize, p: usize, x: u64, out: &mut [u16], k: usize) -> (u64, usize)
    requires places { (u < 64) × (p < 64) }
    requires apart { u ≢ p }
    requires room { k + 2 ≤ length out.old }
    ensures { Settled u p x result.0 out.old out.new k result.1 }
{
    if !has(x, u) {
        return (x, k);
    }
    if has(x, p) {
        let end = write_gate(out, k, u, p);
        (flip(x, u), end)
    } else {
        let mid = write_gate(out, k, p, u);
        let end = write_gate(out, mid, u, p);
        (flip(flip(x, p), u), end)
    }
}

// What is seen, and the live ones of some neighbours.
fn with_live(seen: u64, neighbours: u64, live: u64) -> u64
    ensures { result ≡ bit_or seen (bit_and neighbours live) }
{
    seen | (neighbours & live)
}

// Puts the place r at the end of the order, with q for its parent.
// Apart from `tree_order`, so that a wrong parent is refused at the source.
fn hang(tree: &mut Tree, r: usize, q: usize)
    requires room { (array_vec_len tree.old.order < 64) × (r < 64) }
    ensures placed { tree.new.order.items ≡ tree.old.order.items ++ r ∷ [] }
    ensures one_more { array_vec_len tree.new.order ≡ array_vec_len tree.old.order + 1 }
    ensures below_its_parent { tree.new.parent ≡ slice_set tree.old.parent r q }
{
    tree.order.push(r);
    tree.parent[r] = q;
}

// Writes the gate with control c and target t as entry k of out, and returns where the gates end then.
fn write_gate(out: &mut [u16], k: usize, c: usize, t: usize) -> usize
    requires room { k < length out.old }
    requires places { (c < 64) × (t < 64) }
    ensures wrote { out.new ≡ slice_set out.old k (entry (c, t)) }
    ensures counted { result ≡ k + 1 }
{
    out[k] = entry_of(c, t);
    k + 1
}

// Without the last place of a tree order the rest of the island still hangs together.
pub fn last_place_of_a_tree_order_can_go() -> u8
    ensures { LastPlaceCanGo }
{
    0
}
