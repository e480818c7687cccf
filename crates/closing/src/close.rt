// The end of a session and its slots.
ghost use Rattle.std.specs.Prelude.{◌≡◌, Some, None, vec_len};
ghost use Rattle.session.specs.Outages.{end_fault};
ghost use Rattle.session.specs.Views.{state};
ghost use Rattle.closing.specs.Good.{Good, passes_in, filled_count, slot_fault, after_write_off};

use chip::Chip;
use machine::Machine;
use session::pass::Pass;
use session::store::Session;

// Writes off every pass that is still in a slot, ends the slots and the session, and answers how many passes there were.
// It requires that each can be ended, since nothing else lets a pass go: one that were turned down here could be put nowhere.
pub fn close<M: Machine>(mut session: Session, machine: &M, mut slots: Vec<Option<Pass>>) -> usize
    requires { Good (state session (M.Chip.layout machine.now) (M.Machine.meaning machine.now)) slots.items }
    ensures { result ≡ filled_count slots.items }
{
    let passes = end_all(&mut session, machine, &mut slots);
    slots.destroy_empty();
    passes
}

// Writes off the pass of each slot, from the last, and answers how many there were.
// Kept: session and machine come apart, here and in all that it calls, since a session holds no machine.
fn end_all<M: Machine>(session: &mut Session, machine: &M, slots: &mut Vec<Option<Pass>>) -> usize
    requires { Good (state session.old (M.Chip.layout machine.now) (M.Machine.meaning machine.now)) slots.old.items }
    ensures passes { result ≡ filled_count slots.old.items }
    ensures none_left { vec_len slots.new ≡ 0 }
{
    let mut passes = 0;
    while let Some(slot) = slots.pop() {
        passes += end_slot(session, machine, slot);
    }
    passes
}

// Writes off the pass of one slot, if there is one, and answers how many there were.
fn end_slot<M: Machine>(session: &mut Session, machine: &M, slot: Option<Pass>) -> usize
    requires { slot_fault (state session.old (M.Chip.layout machine.now) (M.Machine.meaning machine.now)) slot ≡ None }
    ensures passes { result ≡ passes_in slot }
    ensures leaves { state session.new (M.Chip.layout machine.now) (M.Machine.meaning machine.now) ≡ after_write_off (state session.old (M.Chip.layout machine.now) (M.Machine.meaning machine.now)) slot }
{
    match slot {
        Some(pass) => {
            end_pass(session, machine, pass);
            1
        }
        None => 0,
    }
}

fn end_pass<M: Machine>(session: &mut Session, machine: &M, pass: Pass)
    requires { end_fault (state session.old (M.Chip.layout machine.now) (M.Machine.meaning machine.now)) pass ≡ None }
    ensures { state session.new (M.Chip.layout machine.now) (M.Machine.meaning machine.now) ≡ after_write_off (state session.old (M.Chip.layout machine.now) (M.Machine.meaning machine.now)) (Some pass) }
{
    match session.write_off(machine, pass) {
        Ok(()) => {}
        Err(_) => unreachable(),
    }
}
