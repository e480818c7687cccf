// Why a session turns a call down. What a lower layer turned down is carried inside, unchanged.
#![tactic(auto)]

ghost use Rattle.std.specs.Prelude.{◌≡◌, Some};
ghost use Rattle.session_fault.specs.declared.SessionFault.TheVariants.{Machine as OfMachine, NoMemory as OutOfMemory};
ghost use Rattle.session_fault.specs.Faults.{session_refusal, session_event, session_text, of_wires, of_plan};

use machine::fault::MachineFault;
use planner::fault::{PlanFault, WireFault};
use std::alloc::AllocError;
use std::fmt;

#[derive(Clone, Copy, PartialEq, Eq, Debug)]
pub enum SessionFault {
    // the machine's words are not fresh, or a coupler is out of service
    MachineNotNew,
    // the machine's places or couplers are not as many as the session's
    SizeMismatch,
    CouplerNotIn,
    // the pass names another session's number
    OtherSession,
    CouplerNotOut,
    PlanBufferTooShort { needed: usize },
    // no list of gates, of any length, does it
    Unreachable,
    Machine(MachineFault),
    NoSuchWire,
    SameWire,
    NoMemory,
}

impl SessionFault {
    // The refusal's number in the manual; 0 where there was no memory.
    pub fn number(&self) -> u8
        ensures { result ≡ (session_refusal self.now).number }
    {
        match self {
            SessionFault::MachineNotNew => 10,
            SessionFault::SizeMismatch => 11,
            SessionFault::CouplerNotIn => 12,
            SessionFault::OtherSession => 14,
            SessionFault::CouplerNotOut => 15,
            SessionFault::PlanBufferTooShort { .. } => 16,
            SessionFault::Unreachable => 17,
            SessionFault::Machine(_) => 18,
            SessionFault::NoSuchWire => 19,
            SessionFault::SameWire => 20,
            SessionFault::NoMemory => 0,
        }
    }

    // What happened.
    fn event(&self) -> &'static str
        ensures { result.now ≡ session_event self.now }
    {
        match self {
            SessionFault::MachineNotNew => "the machine is not new",
            SessionFault::SizeMismatch => "the machine is of another size",
            SessionFault::CouplerNotIn => "the coupler is not in",
            SessionFault::OtherSession => "the pass is of another session",
            SessionFault::CouplerNotOut => "the coupler is not out here",
            SessionFault::PlanBufferTooShort { .. } => "the plan buffer is too short",
            SessionFault::Unreachable => "no gates do it",
            SessionFault::Machine(_) => "the machine turned it down",
            SessionFault::NoSuchWire => "no such wire",
            SessionFault::SameWire => "both wires are one",
            SessionFault::NoMemory => "no memory",
        }
    }
}

// Kept: thiserror's derive writes `From` and `Display` with no contract, and here clauses say what each gives.
impl From<MachineFault> for SessionFault {
    ghost from_gives = { λ e r. r ≡ OfMachine e };

    fn from(e: MachineFault) -> SessionFault {
        SessionFault::Machine(e)
    }
}

impl From<WireFault> for SessionFault {
    ghost from_gives = { λ e r. r ≡ of_wires e };

    fn from(e: WireFault) -> SessionFault {
        match e {
            WireFault::NoSuchWire => SessionFault::NoSuchWire,
            WireFault::SameWire => SessionFault::SameWire,
        }
    }
}

impl From<PlanFault> for SessionFault {
    ghost from_gives = { λ e r. r ≡ of_plan e };

    fn from(e: PlanFault) -> SessionFault {
        match e {
            PlanFault::SizeMismatch => SessionFault::SizeMismatch,
            PlanFault::BufferTooShort { needed } => SessionFault::PlanBufferTooShort { needed },
            PlanFault::Unreachable => SessionFault::Unreachable,
        }
    }
}

impl From<AllocError> for SessionFault {
    ghost from_gives = { λ _ r. r ≡ OutOfMemory };

    fn from(_: AllocError) -> SessionFault {
        Self::NoMemory
    }
}

impl fmt::Display for SessionFault {
    ghost output = { λ f. Some (session_text f) };

    fn fmt<W: fmt::Write>(&self, f: &mut fmt::Formatter<W>) -> fmt::Result {
        match self {
            SessionFault::PlanBufferTooShort { needed } => {
                let k = *needed;
                write!(f, "refused 16: the plan buffer needs {k} entries")
            }
            SessionFault::Machine(fault) => write!(f, "refused 18: {fault}"),
            _ => {
                let number = self.number();
                let event = self.event();
                write!(f, "refused {number}: {event}")
            }
        }
    }
}
