// What the console answers to a command that was obeyed.
ghost use Rattle.std.specs.Prelude.{◌≡◌, Some};
ghost use Rattle.replies.specs.Replies.{reply_text};

use std::fmt;

#[derive(Drop)]
pub enum Reply {
    Nothing,
    Chip {
        places: usize,
        couplers: usize,
    },
    Table {
        allowance: usize,
    },
    Tape {
        allowance: usize,
    },
    Out {
        coupler: usize,
    },
    In {
        coupler: usize,
    },
    Cnot {
        control: usize,
        target: usize,
        left: usize,
    },
    Serves {
        coupler: usize,
    },
    ServesNot {
        coupler: usize,
    },
    Allowance {
        left: usize,
    },
    Cx {
        control: usize,
        target: usize,
    },
    Swap {
        first: usize,
        second: usize,
    },
    // The words of a machine or of a block, or a plan.
    Line {
        line: String,
    },
}

// Kept: the kit's derive writes `From` and `Display` with no contract, and here clauses say what each gives.
impl fmt::Display for Reply {
    ghost output = { λ r. Some (reply_text r) };

    fn fmt<W: fmt::Write>(&self, f: &mut fmt::Formatter<W>) -> fmt::Result {
        match self {
            Reply::Nothing => write!(f, ""),
            Reply::Chip { places, couplers } => {
                write!(f, "chip: {places} places, {couplers} couplers")
            }
            Reply::Table { allowance } => write!(f, "table: {allowance} gates allowed"),
            Reply::Tape { allowance } => write!(f, "tape: {allowance} gates allowed"),
            Reply::Out { coupler } => write!(f, "coupler {coupler} taken out of service"),
            Reply::In { coupler } => write!(f, "coupler {coupler} put in service"),
            Reply::Cnot {
                control,
                target,
                left,
            } => write!(f, "cnot {control} {target}: {left} left"),
            Reply::Serves { coupler } => write!(f, "coupler {coupler} is in service"),
            Reply::ServesNot { coupler } => write!(f, "coupler {coupler} is out of service"),
            Reply::Allowance { left } => write!(f, "allowance: {left} left"),
            Reply::Cx { control, target } => write!(f, "cx {control} {target} collected"),
            Reply::Swap { first, second } => write!(f, "swap {first} {second} collected"),
            Reply::Line { line } => write!(f, "{line}"),
        }
    }
}
