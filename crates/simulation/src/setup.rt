// The chip and the machine that a script has set up. A machine stands on a chip of its own, of the same layout.
use device::chips::AnyChip;
use device::machines::AnyMachine;

#[derive(Drop)]
pub struct Setup {
    pub(crate) chip: Option<AnyChip>,
    pub(crate) machine: Option<AnyMachine>,
}
