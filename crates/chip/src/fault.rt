// Why a chip turns a call down.
ghost use Rattle.std.specs.Prelude.{◌≡◌, Some};
ghost use Rattle.chip.specs.Faults.{chip_refusal, chip_text};
ghost use Rattle.chip.specs.declared.fault.ChipFault.TheVariants.{NoMemory as OutOfMemory};

use std::alloc::AllocError;
use std::fmt;

#[derive(Clone, Copy, PartialEq, Eq, Debug)]
pub enum ChipFault {
    NoSuchCoupler,
    WrongLength,
    SizeOffLimits,
    BadCoupler { coupler: usize },
    NoMemory,
}

impl ChipFault {
    // The refusal's number in the manual; 0 where there was no memory.
    pub fn number(&self) -> u8
        ensures { result ≡ (chip_refusal self.now).number }
    {
        match self {
            ChipFault::NoSuchCoupler => 2,
            ChipFault::WrongLength => 5,
            ChipFault::SizeOffLimits => 6,
            ChipFault::BadCoupler { .. } => 7,
            ChipFault::NoMemory => 0,
        }
    }
}

impl From<AllocError> for ChipFault {
    ghost from_gives = { λ _ f. f ≡ OutOfMemory };

    fn from(_: AllocError) -> ChipFault {
        ChipFault::NoMemory
    }
}

// Kept: callers' clauses say what is written, and thiserror's derive promises nothing of its text.
impl fmt::Display for ChipFault {
    ghost output = { λ f. Some (chip_text f) };

    fn fmt<W: fmt::Write>(&self, f: &mut fmt::Formatter<W>) -> fmt::Result {
        match self {
            ChipFault::NoSuchCoupler => write!(f, "refused 2: no such coupler"),
            ChipFault::WrongLength => write!(f, "refused 5: the map has the wrong length"),
            ChipFault::SizeOffLimits => write!(f, "refused 6: a size is out of range"),
            ChipFault::BadCoupler { coupler } => {
                write!(f, "refused 7: coupler {coupler} is no coupler of its own")
            }
            ChipFault::NoMemory => write!(f, "refused 0: no memory"),
        }
    }
}
