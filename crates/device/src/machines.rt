// A machine of either kind, on a chip of either kind.
ghost use Rattle.std.specs.Prelude.{◌≡◌};
ghost use Rattle.device.specs.Machines.{any_chip, any_meaning};
ghost use Rattle.device.specs.Laws.{machine_fits};

use crate::chips::AnyChip;
use chip::on_chip::OnChip;
use machine::Machine;
use machine::fault::MachineFault;
use table::store::TableMachine;
use tape::store::TapeMachine;

#[derive(Drop)]
pub enum AnyMachine {
    Table(TableMachine<AnyChip>),
    Tape(TapeMachine<AnyChip>),
}

impl OnChip for AnyMachine {
    type Inner = AnyChip;

    ghost inner = { any_chip };

    fn chip(&self) -> &AnyChip {
        match self {
            AnyMachine::Table(m) => m.chip(),
            AnyMachine::Tape(m) => m.chip(),
        }
    }
}

// Kept: with each match below, as a `dyn Machine` may not be handed out, and a generic enum of two would not name its kinds.
impl Machine for AnyMachine {
    ghost meaning = { any_meaning };

    ghost fitting = { λ c. machine_fits c };

    fn word(&self, q: usize) -> Result<u64, MachineFault> {
        match self {
            AnyMachine::Table(m) => m.word(q),
            AnyMachine::Tape(m) => m.word(q),
        }
    }

    fn serves(&self, k: usize) -> Result<bool, MachineFault> {
        match self {
            AnyMachine::Table(m) => m.serves(k),
            AnyMachine::Tape(m) => m.serves(k),
        }
    }

    fn allowance(&self) -> usize {
        match self {
            AnyMachine::Table(m) => m.allowance(),
            AnyMachine::Tape(m) => m.allowance(),
        }
    }

    fn set(&mut self, k: usize, on: bool) -> Result<(), MachineFault> {
        match self {
            AnyMachine::Table(m) => m.set(k, on),
            AnyMachine::Tape(m) => m.set(k, on),
        }
    }

    fn cnot(&mut self, c: usize, t: usize) -> Result<(), MachineFault> {
        match self {
            AnyMachine::Table(m) => m.cnot(c, t),
            AnyMachine::Tape(m) => m.cnot(c, t),
        }
    }
}
