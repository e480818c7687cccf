// Islands of a machine: which places hang together over the couplers in service.
ghost use Rattle.std.specs.Prelude.{◌≡◌, ℕ, ◌<◌, ◌↔◌, length};
ghost use Rattle.parity.specs.Sets.{bit};
ghost use Rattle.rounds.specs.Ways.{Way};
ghost use Rattle.planner.specs.Adjacent.{Shows, CouplerWay};
ghost use Rattle.planner.specs.Views.{neighbours_of};

use crate::store::Adjacency;
use chip::Chip;
use islands::LiveGraph;
use machine::Machine;
use parity::sets::all_below;

// The island of the place p: the places that a way over couplers in service joins to it. Empty where there is no such place.
pub fn island<M: Machine>(machine: &M, p: usize) -> u64
    ensures { (q : ℕ) → (bit result q ≡ 1) ↔ ((p < (M.Chip.layout machine.now).places) × CouplerWay (M.Chip.layout machine.now) (M.Machine.meaning machine.now).service p q) }
{
    let adjacency = Adjacency::of(machine);
    island_over(machine, &adjacency, p)
}

// The same over an adjacency that shows the machine.
fn island_over<M: Machine>(machine: &M, adjacency: &Adjacency, p: usize) -> u64
    requires shows { Shows (M.Chip.layout machine.now) (M.Machine.meaning machine.now).service (neighbours_of adjacency.now) }
    ensures { (q : ℕ) → (bit result q ≡ 1) ↔ ((p < (M.Chip.layout machine.now).places) × CouplerWay (M.Chip.layout machine.now) (M.Machine.meaning machine.now).service p q) }
{
    adjacency.island(p)
}

impl Adjacency {
    // The places that a way between neighbours joins to p.
    fn island(&self, p: usize) -> u64
        ensures { (q : ℕ) → (bit result q ≡ 1) ↔ ((p < length (neighbours_of self.now)) × Way (neighbours_of self.now) p q) }
    {
        let places = self.rows.len();
        if p >= places {
            return 0;
        }
        let graph = LiveGraph {
            rows: self.rows.as_slice(),
            live: all_below(places),
        };
        graph.island_of(p)
    }
}
