// A script from a new session to its end.
ghost use Rattle.std.specs.Prelude.{◌≡◌};
ghost use Rattle.session.specs.Views.{state};
ghost use Rattle.script.specs.Turns.{orders};
ghost use Rattle.closing.specs.Good.{Good};
ghost use Rattle.closing.specs.Whole.{RanToEnd, RunsWhole};

use crate::close::close;
use crate::slots::empty_slots;
use chip::Chip;
use machine::Machine;
use script::order::Turn;
use script::run::run;
use session::pass::Pass;
use session::store::Session;
use session_fault::SessionFault;
use std::alloc::Global;

// Opens a session with any number on a new machine, runs the script with n slots for passes, and closes the session. Answers
// how many passes were still in slots; a refusal comes before the first call and changes nothing.
pub fn run_whole<M: Machine>(
    heap: Global,
    number: u32,
    machine: &mut M,
    n: usize,
    buffer: &mut [u16],
    script: &mut [Turn],
) -> Result<usize, SessionFault>
    ensures same_orders { orders script.new ≡ orders script.old }
    ensures outcome { RunsWhole (M.Chip.layout machine.old) (M.Machine.meaning machine.old) number n buffer.old script.old result (M.Chip.layout machine.new) (M.Machine.meaning machine.new) buffer.new script.new }
{
    let session = Session::open(heap, number, machine)?;
    let slots = empty_slots(heap, n)?;
    Ok(run_to_end(session, machine, slots, buffer, script))
}

fn run_to_end<M: Machine>(
    mut session: Session,
    machine: &mut M,
    mut slots: Vec<Option<Pass>>,
    buffer: &mut [u16],
    script: &mut [Turn],
) -> usize
    requires { Good (state session (M.Chip.layout machine.old) (M.Machine.meaning machine.old)) slots.items }
    ensures same_orders { orders script.new ≡ orders script.old }
    ensures ends { RanToEnd (state session (M.Chip.layout machine.old) (M.Machine.meaning machine.old)) slots.items buffer.old script.new result (M.Chip.layout machine.new) (M.Machine.meaning machine.new) buffer.new }
{
    run(&mut session, machine, &mut slots, buffer, script);
    close(session, machine, slots)
}
