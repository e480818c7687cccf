// Opening a session on a new machine.
ghost use Rattle.session.specs.New.{Opens, Starts};
ghost use Rattle.session.specs.Views.{view};

use crate::records::Records;
use crate::store::Session;
use chip::Chip;
use machine::Machine;
use newness::is_new;
use planner::store::{Block, Places};
use session_fault::SessionFault;
use std::alloc::Global;

impl Session {
    // Opens a session with any number on a machine with fresh words and every coupler in service. Memory is had here and
    // never again.
    pub fn open<M: Machine>(heap: Global, number: u32, machine: &M) -> Result<Session, SessionFault>
        ensures { Opens (M.Chip.layout machine.now) (M.Machine.meaning machine.now) number result }
    {
        if !is_new(machine) {
            return Err(SessionFault::MachineNotNew);
        }
        let records = Records::all_in(heap, machine.couplers())?;
        Ok(Session::begin(number, machine, records))
    }

    fn begin<M: Machine>(number: u32, machine: &M, records: Records) -> Session
        ensures { Starts (M.Chip.layout machine.now).places number records.items.items (view result) }
    {
        let n = machine.width();
        let block = Block::new(n).unwrap();
        let places = Places::new(n).unwrap();
        Session {
            number,
            block,
            places,
            records,
        }
    }
}
