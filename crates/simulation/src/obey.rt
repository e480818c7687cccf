// A command of a script, obeyed or refused.
ghost use Rattle.simulation.specs.Statuses.{status_of};
ghost use Rattle.simulation.specs.Obeying.{Obeys};

use crate::setup::Setup;
use command::Command;
use replies::refusal::Refusal;
use replies::reply::Reply;
use std::alloc::Global;

// Obeys a command on what was set up; `file` is what the file that a command names holds.
// Kept: each command has its own arguments and reply, so a table of closures would have to give them one shape.
pub fn obey(
    setup: &mut Setup,
    heap: Global,
    command: Command<'_>,
    file: &[u8],
) -> Result<Reply, Refusal>
    ensures { Obeys (status_of setup.old) command.entry file.now result (status_of setup.new) }
{
    match command {
        Command::Nothing => Ok(Reply::Nothing),
        Command::Grid { rows, columns } => {
            let (places, couplers) = setup.grid(rows, columns)?;
            Ok(Reply::Chip { places, couplers })
        }
        Command::Map { file: _ } => {
            let (places, couplers) = setup.map(heap, file)?;
            Ok(Reply::Chip { places, couplers })
        }
        Command::Table => Ok(Reply::Table {
            allowance: setup.table(heap)?,
        }),
        Command::Tape { length } => Ok(Reply::Tape {
            allowance: setup.tape(heap, length)?,
        }),
        Command::Out { coupler } => {
            setup.set(coupler, false)?;
            Ok(Reply::Out { coupler })
        }
        Command::In { coupler } => {
            setup.set(coupler, true)?;
            Ok(Reply::In { coupler })
        }
        Command::Cnot { control, target } => Ok(Reply::Cnot {
            control,
            target,
            left: setup.cnot(control, target)?,
        }),
        Command::Words => Ok(Reply::Line {
            line: setup.words(heap)?,
        }),
        Command::Serves { coupler } => {
            if setup.serves(coupler)? {
                Ok(Reply::Serves { coupler })
            } else {
                Ok(Reply::ServesNot { coupler })
            }
        }
        Command::Allowance => Ok(Reply::Allowance {
            left: setup.allowance()?,
        }),
    }
}
