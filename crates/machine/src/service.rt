// Service marks beside a chip: what every machine that keeps its own marks shares.
ghost use Rattle.std.specs.Prelude.{◌≡◌, ◌<◌, true, false, replicate, slice_index_or, slice_set};
ghost use Rattle.chip.specs.Answers.{answered, kept};
ghost use Rattle.machine.specs.Calls.{coupler_fault};
ghost use Rattle.machine.specs.Service.{service_of};

use crate::fault::MachineFault;
use crate::marks::Marks;
use chip::Chip;

impl Marks {
    // Every coupler in service.
    pub fn all_in_service() -> Marks
        ensures { result.marks ≡ replicate 256 true }
    {
        Marks { marks: [true; 256] }
    }

    // Whether coupler k of the chip is in service.
    pub fn serves<C: Chip>(&self, chip: &C, k: usize) -> Result<bool, MachineFault>
        ensures { result ≡ answered (coupler_fault (C.Chip.layout chip.now) k) (slice_index_or (service_of (C.Chip.layout chip.now) self.now) k false) }
    {
        self.marks[..chip.couplers()]
            .get(k)
            .copied()
            .ok_or(MachineFault::NoSuchCoupler)
    }

    // Puts coupler k of the chip in service or takes it out.
    pub fn set<C: Chip>(&mut self, chip: &C, k: usize, on: bool) -> Result<(), MachineFault>
        ensures answer { result ≡ answered (coupler_fault (C.Chip.layout chip.now) k) tt }
        ensures leaves { service_of (C.Chip.layout chip.now) self.new ≡ kept (coupler_fault (C.Chip.layout chip.now) k) (slice_set (service_of (C.Chip.layout chip.now) self.old) k on) (service_of (C.Chip.layout chip.now) self.old) }
    {
        if k >= chip.couplers() {
            return Err(MachineFault::NoSuchCoupler);
        }
        self.mark_as(k, on);
        Ok(())
    }

    // Sets the mark of coupler k. Apart from `set`, so that a wrong mark is refused at the source.
    fn mark_as(&mut self, k: usize, on: bool)
        requires { k < 256 }
        ensures { self.new.marks ≡ slice_set self.old.marks k on }
    {
        self.marks[k] = on;
    }
}
