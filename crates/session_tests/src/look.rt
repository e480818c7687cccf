// What can be seen of a session and its machine.
use machine::Machine;
use machine::fault::MachineFault;
use session::store::Session;
use session_fault::SessionFault;
use std::array;

#[derive(Clone, Copy, PartialEq, Eq, Debug)]
pub(crate) struct Look {
    places: [Result<usize, SessionFault>; 8],
    words: [Result<u64, MachineFault>; 8],
    serves: [Result<bool, MachineFault>; 8],
    allowance: usize,
}

impl Look {
    // Of the first 8 places and couplers.
    pub(crate) fn of<M: Machine>(session: &Session, machine: &M) -> Look {
        Look {
            places: array::from_fn(|w| session.place(w)),
            words: array::from_fn(|q| machine.word(q)),
            serves: array::from_fn(|k| machine.serves(k)),
            allowance: machine.allowance(),
        }
    }
}
