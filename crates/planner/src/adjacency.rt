// Adjacency: which places are neighbours, read off a machine.
ghost use Rattle.std.specs.Prelude.{◌≡◌, ◌<◌, ◌≤◌, length};
ghost use Rattle.planner.specs.Adjacent.{Shows, serving_ends, Added};
ghost use Rattle.planner.specs.Views.{neighbours_of};

use crate::store::Adjacency;
use arrayvec::ArrayVec;
use chip::Chip;
use machine::Machine;
use parity::sets::single;

impl Adjacency {
    // The neighbours of each place: those that a coupler in service joins to it.
    pub fn of<M: Machine>(machine: &M) -> Adjacency
        ensures { Shows (M.Chip.layout machine.now) (M.Machine.meaning machine.now).service (neighbours_of result) }
    {
        let mut rows = ArrayVec::from([0; 64]);
        rows.truncate(machine.width());
        for k in 0..machine.couplers() {
            if let Some((left, right)) = serving(machine, k) {
                join(&mut rows, left, right);
            }
        }
        Adjacency { rows }
    }

    // The number of places.
    pub fn places(&self) -> usize
        ensures { result ≡ length (neighbours_of self.now) }
    {
        self.rows.len()
    }
}

// The ends of coupler k, if it is in service.
fn serving<M: Machine>(machine: &M, k: usize) -> Option<(usize, usize)>
    ensures { k < length (M.Chip.layout machine.now).couplers → result ≡ serving_ends (M.Chip.layout machine.now) (M.Machine.meaning machine.now).service k }
{
    let on = machine.serves(k).ok()?;
    let ends = machine.ends(k).ok()?;
    on.then_some(ends)
}

// Makes a and b neighbours.
fn join(rows: &mut [u64], a: usize, b: usize)
    requires { (length rows.old ≤ 64) × ((a < length rows.old) × (b < length rows.old)) }
    ensures { Added rows.old rows.new a b }
{
    rows[a] |= single(b);
    rows[b] |= single(a);
}
