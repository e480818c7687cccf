// What a script asks for, and what is noted of it.
use session_fault::SessionFault;

// A call to make. A pass is named by the slot that it is in.
#[derive(Clone, Copy)]
pub enum Order {
    Cx { a: usize, b: usize },
    Swap { a: usize, b: usize },
    Place { wire: usize },
    TakeOut { coupler: usize, slot: usize },
    GiveBack { slot: usize },
    WriteOff { slot: usize },
    Flush,
}

// What an obeyed call answers.
#[derive(Clone, Copy)]
pub enum Outcome {
    Obeyed,
    At { place: usize },
    Flushed { gates: usize },
}

// What is noted of an order: the answer of its call. None where no call was made, since a take-out has no free slot, or a
// give-back or write-off no pass.
pub type Answer = Option<Result<Outcome, SessionFault>>;

#[derive(Clone, Copy)]
pub struct Turn {
    pub order: Order,
    pub answer: Answer,
}
