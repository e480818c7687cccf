// Why a machine turns a call down.
ghost use Rattle.std.specs.Prelude.{◌≡◌, Some};
ghost use Rattle.machine.specs.Faults.{machine_refusal, machine_text};

use std::fmt;

#[derive(Clone, Copy, PartialEq, Eq, Debug)]
pub enum MachineFault {
    PlaceOutOfRange,
    NoSuchCoupler,
    NotCoupled,
    AllowanceExceeded { asked: usize, left: usize },
    TapeTooLong,
    NoMemory,
}

impl MachineFault {
    // The refusal's number in the manual; 0 where there was no memory.
    pub fn number(&self) -> u8
        ensures { result ≡ (machine_refusal self.now).number }
    {
        match self {
            MachineFault::PlaceOutOfRange => 1,
            MachineFault::NoSuchCoupler => 2,
            MachineFault::NotCoupled => 3,
            MachineFault::AllowanceExceeded { .. } => 4,
            MachineFault::TapeTooLong => 8,
            MachineFault::NoMemory => 0,
        }
    }
}

// Kept: callers' clauses say what is written, and thiserror's derive promises nothing of its text.
impl fmt::Display for MachineFault {
    ghost output = { λ f. Some (machine_text f) };

    fn fmt<W: fmt::Write>(&self, f: &mut fmt::Formatter<W>) -> fmt::Result {
        match self {
            MachineFault::PlaceOutOfRange => write!(f, "refused 1: no such place"),
            MachineFault::NoSuchCoupler => write!(f, "refused 2: no such coupler"),
            MachineFault::NotCoupled => write!(
                f,
                "refused 3: no coupler in service joins the two places"
            ),
            MachineFault::AllowanceExceeded { asked, left } => {
                write!(f, "refused 4: {asked} gates asked, {left} left")
            }
            MachineFault::TapeTooLong => write!(f, "refused 8: a tape has at most 8192 entries"),
            MachineFault::NoMemory => write!(f, "refused 0: no memory"),
        }
    }
}
