// Gates on a machine's couplers, replayed on words of their own.
ghost use Rattle.std.specs.Prelude.{◌≡◌, ◌↔◌, map, IsTrue, MatchOption, MatchResult};
ghost use Rattle.machine.specs.OnCoupler.{OnCoupler, OnCouplers};
ghost use Rattle.parity.specs.Words.{fresh, gate_of, replay};
ghost use Rattle.replaying.specs.Gates.{IsFirstOff, ServesBetween};

use crate::words::add;
use chip::{Chip, meets};
use machine::Machine;
use parity::fresh_words;
use parity::sets::ends_of;

// The first coupler in service that joins the two places, if one does.
pub fn coupler_between<M: Machine>(machine: &M, a: usize, b: usize) -> Option<usize>
    ensures { MatchOption result (¬ OnCoupler (M.Chip.layout machine.now) (M.Machine.meaning machine.now).service (a, b)) (λ k. ServesBetween (M.Chip.layout machine.now) (M.Machine.meaning machine.now).service a b k) }
{
    (0..machine.couplers()).find(|&k| serves_between(machine, k, a, b))
}

// Whether coupler k is in service and joins the two places, in either order.
fn serves_between<M: Machine>(machine: &M, k: usize, a: usize, b: usize) -> bool
    ensures { IsTrue result ↔ ServesBetween (M.Chip.layout machine.now) (M.Machine.meaning machine.now).service a b k }
{
    let (Ok(true), Ok(ends)) = (machine.serves(k), machine.ends(k)) else {
        return false;
    };
    meets((a, b), ends)
}

// What the gates leave at each place, or the first gate that is on no coupler in service.
pub fn replayed<M: Machine>(machine: &M, gates: &[u16]) -> Result<[u64; 64], u16>
    ensures { MatchResult result (λ words. OnCouplers (M.Chip.layout machine.now) (M.Machine.meaning machine.now).service (map gate_of gates.now) × (words ≡ replay (map gate_of gates.now) (fresh 64))) (λ gate. IsFirstOff (M.Chip.layout machine.now) (M.Machine.meaning machine.now).service gates.now gate) }
{
    let mut words = fresh_words();
    for gate in gates {
        let (control, target) = ends_of(*gate);
        let _ = coupler_between(machine, control, target).ok_or(*gate)?;
        add(&mut words, control, target).ok_or(*gate)?;
    }
    Ok(words)
}
