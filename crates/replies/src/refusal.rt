// Why a command of the console was not obeyed.
ghost use Rattle.std.specs.Prelude.{◌≡◌, Some};
ghost use Rattle.replies.specs.declared.refusal.Refusal.TheVariants.{Chip as OfChip, Machine as OfMachine, Wire as OfWire, NoMemory as OutOfMemory};
ghost use Rattle.replies.specs.Refusals.{refusal_text};

use chip::fault::ChipFault;
use machine::fault::MachineFault;
use planner::fault::WireFault;
use std::alloc::AllocError;
use std::fmt;

#[derive(Clone, Copy, PartialEq, Eq, Debug)]
pub enum Refusal {
    NoChip,
    NoMachine,
    Chip(ChipFault),
    Machine(MachineFault),
    Wire(WireFault),
    // No gates do what the block asks: the word of this wire, the first such, needs places on two islands.
    Unreachable { wire: usize },
    NoMemory,
}

// Kept: the kit's derive of errors writes `From` and `Display` with no contract, and here clauses tell which error `?` makes and what is printed.
impl From<ChipFault> for Refusal {
    ghost from_gives = { λ e r. r ≡ OfChip e };

    fn from(e: ChipFault) -> Refusal {
        Refusal::Chip(e)
    }
}

impl From<MachineFault> for Refusal {
    ghost from_gives = { λ e r. r ≡ OfMachine e };

    fn from(e: MachineFault) -> Refusal {
        Refusal::Machine(e)
    }
}

impl From<WireFault> for Refusal {
    ghost from_gives = { λ e r. r ≡ OfWire e };

    fn from(e: WireFault) -> Refusal {
        Refusal::Wire(e)
    }
}

impl From<AllocError> for Refusal {
    ghost from_gives = { λ _ r. r ≡ OutOfMemory };

    fn from(_: AllocError) -> Refusal {
        Refusal::NoMemory
    }
}

// Writing to a string fails only for want of memory.
impl From<fmt::Error> for Refusal {
    ghost from_gives = { λ _ r. r ≡ OutOfMemory };

    fn from(_: fmt::Error) -> Refusal {
        Refusal::NoMemory
    }
}

impl fmt::Display for Refusal {
    ghost output = { λ f. Some (refusal_text f) };

    fn fmt<W: fmt::Write>(&self, f: &mut fmt::Formatter<W>) -> fmt::Result {
        match self {
            Refusal::NoChip => write!(f, "no chip: expected grid R C or map FILE first"),
            Refusal::NoMachine => write!(f, "no machine: expected table or tape LENGTH first"),
            Refusal::Chip(fault) => write!(f, "{fault}"),
            Refusal::Machine(fault) => write!(f, "{fault}"),
            Refusal::Wire(fault) => write!(f, "{fault}"),
            Refusal::Unreachable { wire } => {
                write!(
                    f,
                    "refused 17: no gates do it, wire {wire} needs two islands"
                )
            }
            Refusal::NoMemory => write!(f, "refused 0: no memory"),
        }
    }
}
