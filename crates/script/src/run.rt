// A whole script.
ghost use Rattle.std.specs.Prelude.{◌≡◌};
ghost use Rattle.script.specs.Turns.{bench, Acts, orders, Ran};

use crate::act::act;
use crate::order::Turn;
use chip::Chip;
use machine::Machine;
use session::pass::Pass;
use session::store::Session;

// Makes the calls that a script asks for, one after another, and notes what came of each.
pub fn run<M: Machine>(
    session: &mut Session,
    machine: &mut M,
    slots: &mut [Option<Pass>],
    buffer: &mut [u16],
    script: &mut [Turn],
)
    ensures same_orders { orders script.new ≡ orders script.old }
    ensures ran { Ran (bench session.old (M.Chip.layout machine.old) (M.Machine.meaning machine.old) slots.old buffer.old) script.new (bench session.new (M.Chip.layout machine.new) (M.Machine.meaning machine.new) slots.new buffer.new) }
{
    for turn in script.iter_mut() {
        take_turn(session, machine, slots, buffer, turn);
    }
}

fn take_turn<M: Machine>(
    session: &mut Session,
    machine: &mut M,
    slots: &mut [Option<Pass>],
    buffer: &mut [u16],
    turn: &mut Turn,
)
    ensures acts { Acts (bench session.old (M.Chip.layout machine.old) (M.Machine.meaning machine.old) slots.old buffer.old) turn.new.order turn.new.answer (bench session.new (M.Chip.layout machine.new) (M.Machine.meaning machine.new) slots.new buffer.new) }
    ensures same_order { turn.new.order ≡ turn.old.order }
{
    turn.answer = act(session, machine, slots, buffer, turn.order);
}
