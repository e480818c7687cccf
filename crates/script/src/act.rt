// One turn of a script: the call that its order asks for.
ghost use Rattle.std.specs.Prelude.{◌≡◌, ◌<◌, true, length, Some, None};
ghost use Rattle.script.specs.declared.order.Order.TheVariants as order;
ghost use Rattle.session.specs.Views.{state};
ghost use Rattle.script.specs.Answers.{plain};
ghost use Rattle.script.specs.Slots.{vacant, filled, TakesInto, GivesFrom, WritesFrom};
ghost use Rattle.script.specs.Turns.{bench, Acts};

use crate::order::{Answer, Order, Outcome};
use chip::Chip;
use machine::Machine;
use session::pass::Pass;
use session::store::Session;
use session_fault::SessionFault;

// Makes the call that the order asks for, if its slot allows one, and answers what came of it.
// Kept: session, machine, slots and buffer come apart, in `run` and what it calls: callers have them so, and a struct would borrow all.
// Kept: each order has its own arguments and call, so this is a match and no table of closures.
pub fn act<M: Machine>(
    session: &mut Session,
    machine: &mut M,
    slots: &mut [Option<Pass>],
    buffer: &mut [u16],
    order: Order,
) -> Answer
    ensures { Acts (bench session.old (M.Chip.layout machine.old) (M.Machine.meaning machine.old) slots.old buffer.old) order result (bench session.new (M.Chip.layout machine.new) (M.Machine.meaning machine.new) slots.new buffer.new) }
{
    match order {
        Order::Cx { a, b } => noted(session.cx(a, b)),
        Order::Swap { a, b } => noted(session.swap(a, b)),
        Order::Place { wire } => Some(session.place(wire).map(|place| Outcome::At { place })),
        Order::TakeOut { coupler, slot } => {
            if is_vacant(slots, slot) {
                Some(take_into(session, machine, slots, coupler, slot))
            } else {
                None
            }
        }
        Order::GiveBack { slot } => {
            if holds_pass(slots, slot) {
                Some(give_from(session, machine, slots, slot))
            } else {
                None
            }
        }
        Order::WriteOff { slot } => {
            if holds_pass(slots, slot) {
                Some(write_from(session, machine, slots, slot))
            } else {
                None
            }
        }
        Order::Flush => Some(
            session
                .flush(machine, buffer)
                .map(|gates| Outcome::Flushed { gates }),
        ),
    }
}

// What is noted of a call that answers nothing but that it was obeyed.
fn noted(answer: Result<(), SessionFault>) -> Answer
    ensures { result ≡ Some (plain answer) }
{
    Some(answer.map(|()| Outcome::Obeyed))
}

// Whether there is such a slot, and it is empty.
fn is_vacant(slots: &[Option<Pass>], slot: usize) -> bool
    ensures { result ≡ vacant slots.now slot }
{
    slots.get(slot).is_some_and(|held| held.is_none())
}

// Whether there is such a slot, and a pass in it.
fn holds_pass(slots: &[Option<Pass>], slot: usize) -> bool
    ensures { result ≡ filled slots.now slot }
{
    slots.get(slot).is_some_and(|held| held.is_some())
}

fn take_into<M: Machine>(
    session: &mut Session,
    machine: &mut M,
    slots: &mut [Option<Pass>],
    coupler: usize,
    slot: usize,
) -> Result<Outcome, SessionFault>
    requires { vacant slots.old slot ≡ true }
    ensures { TakesInto (state session.old (M.Chip.layout machine.old) (M.Machine.meaning machine.old)) slots.old coupler slot result (state session.new (M.Chip.layout machine.new) (M.Machine.meaning machine.new)) slots.new }
{
    let handed_out = session.take_out(machine, coupler)?;
    slots[slot] = Some(handed_out);
    Ok(Outcome::Obeyed)
}

fn give_from<M: Machine>(
    session: &mut Session,
    machine: &mut M,
    slots: &mut [Option<Pass>],
    slot: usize,
) -> Result<Outcome, SessionFault>
    requires { filled slots.old slot ≡ true }
    ensures { GivesFrom (state session.old (M.Chip.layout machine.old) (M.Machine.meaning machine.old)) slots.old slot result (state session.new (M.Chip.layout machine.new) (M.Machine.meaning machine.new)) slots.new }
{
    let pass = slots[slot].take().unwrap();
    match session.give_back(machine, pass) {
        Ok(()) => Ok(Outcome::Obeyed),
        Err((fault, back)) => {
            slots[slot] = Some(back);
            Err(fault)
        }
    }
}

// Kept: alike to `give_from`, but the machine is only read; shared by a closure, the contract would say what any such call promises.
fn write_from<M: Machine>(
    session: &mut Session,
    machine: &M,
    slots: &mut [Option<Pass>],
    slot: usize,
) -> Result<Outcome, SessionFault>
    requires { filled slots.old slot ≡ true }
    ensures { WritesFrom (state session.old (M.Chip.layout machine.now) (M.Machine.meaning machine.now)) slots.old slot result (state session.new (M.Chip.layout machine.now) (M.Machine.meaning machine.now)) slots.new }
{
    let pass = slots[slot].take().unwrap();
    match session.write_off(machine, pass) {
        Ok(()) => Ok(Outcome::Obeyed),
        Err((fault, pass)) => {
            slots[slot] = Some(pass);
            Err(fault)
        }
    }
}
