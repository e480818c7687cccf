// Why a call of the planner is turned down.
ghost use Rattle.std.specs.Prelude.{◌≡◌, Some};
ghost use Rattle.planner.specs.Faults.{wire_refusal, wire_event, wire_text, plan_refusal, plan_event, plan_text};

use std::fmt;

#[derive(Clone, Copy, PartialEq, Eq, Debug)]
pub enum WireFault {
    NoSuchWire,
    SameWire,
}

impl WireFault {
    // The refusal's number in the manual.
    pub fn number(&self) -> u8
        ensures { result ≡ (wire_refusal self.now).number }
    {
        match self {
            WireFault::NoSuchWire => 19,
            WireFault::SameWire => 20,
        }
    }

    // What happened.
    fn event(&self) -> &'static str
        ensures { result.now ≡ wire_event self.now }
    {
        match self {
            WireFault::NoSuchWire => "no such wire",
            WireFault::SameWire => "both wires are one",
        }
    }
}

// Kept: clauses say what is written, and thiserror's derive promises nothing of its text.
impl fmt::Display for WireFault {
    ghost output = { λ f. Some (wire_text f) };

    fn fmt<W: fmt::Write>(&self, f: &mut fmt::Formatter<W>) -> fmt::Result {
        let number = self.number();
        let event = self.event();
        write!(f, "refused {number}: {event}")
    }
}

#[derive(Clone, Copy, PartialEq, Eq, Debug)]
pub enum PlanFault {
    // adjacency, block and placement are not of one size
    SizeMismatch,
    BufferTooShort { needed: usize },
    // no list of gates, of any length, does it
    Unreachable,
}

impl PlanFault {
    // The refusal's number in the manual.
    pub fn number(&self) -> u8
        ensures { result ≡ (plan_refusal self.now).number }
    {
        match self {
            PlanFault::SizeMismatch => 11,
            PlanFault::BufferTooShort { .. } => 16,
            PlanFault::Unreachable => 17,
        }
    }

    // What happened.
    fn event(&self) -> &'static str
        ensures { result.now ≡ plan_event self.now }
    {
        match self {
            PlanFault::SizeMismatch => "the sizes differ",
            PlanFault::BufferTooShort { .. } => "the buffer is too short",
            PlanFault::Unreachable => "no gates do it",
        }
    }
}

// Kept: clauses say what is written, and thiserror's derive promises nothing of its text.
impl fmt::Display for PlanFault {
    ghost output = { λ f. Some (plan_text f) };

    fn fmt<W: fmt::Write>(&self, f: &mut fmt::Formatter<W>) -> fmt::Result {
        let number = self.number();
        let event = self.event();
        match self {
            PlanFault::SizeMismatch => write!(f, "refused {number}: {event}"),
            PlanFault::BufferTooShort { needed } => {
                let entries = *needed;
                write!(f, "refused {number}: {event}, {entries} entries needed")
            }
            PlanFault::Unreachable => write!(f, "refused {number}: {event}"),
        }
    }
}
