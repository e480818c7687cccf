// A machine: a chip that also acts. What it is known by is its layout and its meaning:
// which couplers are in service, the word at each place, and how many gates it still takes.
#![tactic(auto)]

ghost use Rattle.std.specs.Prelude.{◌≡◌};
ghost use Rattle.chip.specs.Answers.{answered, kept};
ghost use Rattle.machine.specs.Meaning.{Meaning, Fitting, switched, played};
ghost use Rattle.machine.specs.Calls.{word_fault, coupler_fault, fits_fault, cnot_fault, word_at, serves_at};
ghost use Rattle.machine.specs.OnCoupler.{ObeysExactly};

pub mod fault;
pub mod marks;
pub mod service;

use chip::Chip;
use fault::MachineFault;

pub trait Machine: Chip {
    ghost meaning: { Self → Meaning };

    // The word at place q.
    fn word(&self, q: usize) -> Result<u64, MachineFault>
        ensures { result ≡ answered (word_fault (Self.Chip.layout self.now) q) (word_at (meaning self.now) q) };

    // Whether coupler k is in service.
    fn serves(&self, k: usize) -> Result<bool, MachineFault>
        ensures { result ≡ answered (coupler_fault (Self.Chip.layout self.now) k) (serves_at (meaning self.now) k) };

    // How many gates the machine still takes.
    fn allowance(&self) -> usize
        ensures { result ≡ (meaning self.now).allowance };

    // Puts coupler k in service or takes it out.
    fn set(&mut self, k: usize, on: bool) -> Result<(), MachineFault>
        ensures answer { result ≡ answered (coupler_fault (Self.Chip.layout self.old) k) tt }
        ensures leaves { meaning self.new ≡ kept (coupler_fault (Self.Chip.layout self.old) k) (switched (meaning self.old) k on) (meaning self.old) }
        ensures same_chip { Self.Chip.layout self.new ≡ Self.Chip.layout self.old };

    // Whether g more gates are within the allowance.
    fn fits(&self, g: usize) -> Result<(), MachineFault>
        ensures { result ≡ answered (fits_fault (meaning self.now) g) tt }
    {
        let left = self.allowance();
        if g > left {
            return Err(MachineFault::AllowanceExceeded { asked: g, left });
        }
        Ok(())
    }

    // Whether the CNOT with control c and target t would be obeyed.
    fn check_cnot(&self, c: usize, t: usize) -> Result<(), MachineFault>
        ensures { result ≡ answered (cnot_fault (Self.Chip.layout self.now) (meaning self.now) c t) tt }
    {
        let n = self.width();
        if c >= n || t >= n {
            return Err(MachineFault::PlaceOutOfRange);
        }
        if c == t {
            return Err(MachineFault::NotCoupled);
        }
        let k = self.joins(c, t).ok_or(MachineFault::NotCoupled)?;
        if !self.serves(k)? {
            return Err(MachineFault::NotCoupled);
        }
        self.fits(1)
    }

    // The CNOT with control c and target t.
    fn cnot(&mut self, c: usize, t: usize) -> Result<(), MachineFault>
        ensures answer { result ≡ answered (cnot_fault (Self.Chip.layout self.old) (meaning self.old) c t) tt }
        ensures leaves { meaning self.new ≡ kept (cnot_fault (Self.Chip.layout self.old) (meaning self.old) c t) (played (meaning self.old) (c, t)) (meaning self.old) }
        ensures same_chip { Self.Chip.layout self.new ≡ Self.Chip.layout self.old };

    ghost fitting: { (m : Self) → Fitting (Self.Chip.layout m) (meaning m) };
}

// With allowance left, `cnot` obeys a gate exactly when the gate lies on a coupler in service.
pub fn cnot_obeys_exactly_on_couplers_in_service() -> u8
    ensures { ObeysExactly }
{
    0
}
