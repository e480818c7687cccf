// Passes that are handed out and always ended, since no pass can be let go.
ghost use Rattle.std.specs.Prelude.{◌≡◌, IfOk, Ok};
ghost use Rattle.session.specs.Views.{view, state};
ghost use Rattle.session.specs.Outages.{GiveBack, WriteOff};
ghost use Rattle.session_tests.specs.Passes.{Ends, Keeps, KeepsOthers};

use chip::Chip;
use machine::Machine;
use session::pass::Pass;
use session::store::Session;
use session_fault::SessionFault;
use std::test::*;

// Gives a pass back that can be ended.
pub(crate) fn give<M: Machine>(session: &mut Session, machine: &mut M, pass: Pass)
    requires { Ends (state session.old (M.Chip.layout machine.old) (M.Machine.meaning machine.old)) pass }
    ensures { KeepsOthers (state session.old (M.Chip.layout machine.old) (M.Machine.meaning machine.old)) pass.coupler (state session.new (M.Chip.layout machine.new) (M.Machine.meaning machine.new)) }
{
    if let Err((_, _)) = session.give_back(machine, pass) {
        unreachable()
    }
}

// Writes a pass off that can be ended.
pub(crate) fn write<M: Machine>(session: &mut Session, machine: &M, pass: Pass)
    requires { Ends (state session.old (M.Chip.layout machine.now) (M.Machine.meaning machine.now)) pass }
    ensures { KeepsOthers (state session.old (M.Chip.layout machine.now) (M.Machine.meaning machine.now)) pass.coupler (state session.new (M.Chip.layout machine.now) (M.Machine.meaning machine.now)) }
{
    if let Err((_, _)) = session.write_off(machine, pass) {
        unreachable()
    }
}

// Takes a coupler out, and gives it back at once.
pub(crate) fn take_and_give<M: Machine>(
    session: &mut Session,
    machine: &mut M,
    k: usize,
) -> Result<(), SessionFault>
    ensures { Keeps (state session.old (M.Chip.layout machine.old) (M.Machine.meaning machine.old)) (state session.new (M.Chip.layout machine.new) (M.Machine.meaning machine.new)) }
{
    let pass = session.take_out(machine, k)?;
    give(session, machine, pass);
    Ok(())
}

// Why a pass was turned down, by each way of ending it.
#[derive(Clone, Copy, PartialEq, Eq, Debug)]
pub(crate) struct Refusals {
    give_back: SessionFault,
    write_off: SessionFault,
}

impl Refusals {
    // Both for one reason.
    pub(crate) fn both(fault: SessionFault) -> Refusals {
        Refusals {
            give_back: fault,
            write_off: fault,
        }
    }
}

// Offers a pass where both ways of ending it should be refused, and hands it on, with why the two were refused.
pub(crate) fn turned_down<M: Machine>(
    session: &mut Session,
    machine: &mut M,
    pass: Pass,
) -> Result<(Refusals, Pass), Fail>
    ensures { IfOk result (λ x. (x.1 ≡ pass) × (state session.new (M.Chip.layout machine.new) (M.Machine.meaning machine.new) ≡ state session.old (M.Chip.layout machine.old) (M.Machine.meaning machine.old))) }
{
    let Err((give_back, pass)) = session.give_back(machine, pass) else {
        return Err(Fail::new("given back"));
    };
    let Err((write_off, pass)) = session.write_off(machine, pass) else {
        return Err(Fail::new("written off"));
    };
    let refusals = Refusals {
        give_back,
        write_off,
    };
    Ok((refusals, pass))
}
