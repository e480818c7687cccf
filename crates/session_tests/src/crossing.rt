// Passes and machines crossed: only the number, the coupler and the sizes count.
ghost use Rattle.std.specs.Prelude.{◌≡◌, IfOk};
ghost use Rattle.session.specs.Views.{state};

use crate::look::Look;
use crate::machines::{check_words, star, table, tape};
use crate::passes::{Refusals, give, take_and_give, turned_down};
use chip::Chip;
use machine::Machine;
use session::pass::Pass;
use session::store::Session;
use session_fault::SessionFault;
use std::process::Abort;
use std::test::*;

// Takes coupler 0 out in two sessions that have one number, and ends each outage by the other's pass. Answers why the second
// turned the pass down before its own coupler was out.
fn cross<L: Machine, R: Machine>(
    first: &mut Session,
    left: &mut L,
    second: &mut Session,
    right: &mut R,
) -> Result<Refusals, Fail> {
    if first.number() != second.number() {
        return Err(Fail::new("two numbers"));
    }
    let ours = first.take_out(left, 0)?;
    let (refusals, ours) = turned_down(second, right, ours)?;
    let Ok(theirs) = second.take_out(right, 0) else {
        give(first, left, ours);
        return Err(Fail::new("not in"));
    };
    give(second, right, ours);
    give(first, left, theirs);
    Ok(refusals)
}

#[test]
fn passes_of_sessions_with_one_number_are_alike(rt: HostRuntime) -> Result<(), Fail> {
    let heap = rt.alloc();
    let (mut left, mut right) = (table(1, 3)?, tape(heap, 1, 3, 9)?);
    let mut first = Session::open(heap, 4, &left)?;
    let mut second = Session::open(heap, 4, &right)?;
    let refusals = cross(&mut first, &mut left, &mut second, &mut right)?;
    assert_eq!(rt; refusals, Refusals::both(SessionFault::CouplerNotOut));
    assert_eq!(rt; (left.serves(0), right.serves(0)), (Ok(true), Ok(true)));
    assert_eq!(rt; take_and_give(&mut first, &mut left, 0), Ok(()));
    assert_eq!(rt; take_and_give(&mut second, &mut right, 0), Ok(()));
    Ok(())
}

// Offers a pass where it is turned down and changes nothing, and hands it on.
// Kept: the session and the machine are no pair in one struct, since one session meets two machines here.
fn offer<M: Machine>(
    rt: &impl Abort,
    session: &mut Session,
    machine: &mut M,
    pass: Pass,
) -> Result<(Refusals, Pass), Fail>
    ensures { IfOk result (λ x. (x.1 ≡ pass) × (state session.new (M.Chip.layout machine.new) (M.Machine.meaning machine.new) ≡ state session.old (M.Chip.layout machine.old) (M.Machine.meaning machine.old))) }
{
    let before = Look::of(session, machine);
    let (refusals, pass) = turned_down(session, machine, pass)?;
    assert_eq!(rt; Look::of(session, machine), before);
    Ok((refusals, pass))
}

// Takes coupler 0 out, offers the pass to another session, and gives it back.
fn offer_to_session<L: Machine, R: Machine>(
    rt: &impl Abort,
    first: &mut Session,
    left: &mut L,
    second: &mut Session,
    right: &mut R,
) -> Result<Refusals, Fail> {
    let pass = first.take_out(left, 0)?;
    let (refusals, pass) = offer(rt, second, right, pass)?;
    give(first, left, pass);
    Ok(refusals)
}

// The same on another machine for the same session.
// Kept: one function for both would borrow the session twice.
fn offer_on_machine<L: Machine, R: Machine>(
    rt: &impl Abort,
    session: &mut Session,
    machine: &mut L,
    other: &mut R,
) -> Result<Refusals, Fail> {
    let pass = session.take_out(machine, 0)?;
    let (refusals, pass) = offer(rt, session, other, pass)?;
    give(session, machine, pass);
    Ok(refusals)
}

#[test]
fn a_pass_of_another_number_is_turned_down(rt: HostRuntime) -> Result<(), Fail> {
    let heap = rt.alloc();
    let (mut left, mut right) = (table(1, 3)?, tape(heap, 1, 3, 9)?);
    let mut first = Session::open(heap, 4, &left)?;
    let mut second = Session::open(heap, u32::MAX, &right)?;
    let refusals = offer_to_session(&rt, &mut first, &mut left, &mut second, &mut right)?;
    assert_eq!(rt; refusals, Refusals::both(SessionFault::OtherSession));
    assert_eq!(rt; (left.serves(0), right.serves(0)), (Ok(true), Ok(true)));
    Ok(())
}

// Checks that a machine of another size is refused by each call that is given it.
fn check_size<M: Machine>(
    rt: &impl Abort,
    columns: usize,
    session: &mut Session,
    machine: &mut M,
) -> Result<(), Fail> {
    let fault = SessionFault::SizeMismatch;
    assert_eq!(rt; take_and_give(session, machine, 0), Err(fault), "{columns}");
    assert_eq!(rt;
        session.flush(machine, &mut [0; 264]),
        Err(fault),
        "{columns}"
    );
    Ok(())
}

#[test]
fn a_machine_of_another_size_is_refused(rt: HostRuntime) -> Result<(), Fail> {
    let heap = rt.alloc();
    let mut machine = table(2, 2)?;
    let mut session = Session::open(heap, 4, &machine)?;
    session.cx(0, 3)?;
    // other places; as many places and other couplers
    for (rows, columns) in [(1, 2), (1, 4), (4, 1), (2, 3)] {
        let mut other = table(rows, columns)?;
        check_size(&rt, columns, &mut session, &mut other)?;
        let refusals = offer_on_machine(&rt, &mut session, &mut machine, &mut other)?;
        assert_eq!(rt; refusals, Refusals::both(SessionFault::SizeMismatch));
        assert_eq!(rt; other.serves(0), Ok(true));
    }
    let _ = session.flush(&mut machine, &mut [0; 24])?;
    assert_eq!(rt; machine.word(session.place(3)?), Ok(0b1001));
    Ok(())
}

#[test]
fn a_machine_of_the_same_size_with_other_couplers_is_taken(rt: HostRuntime) -> Result<(), Fail> {
    let heap = rt.alloc();
    let mut row = table(1, 4)?;
    let mut hub = star(heap)?;
    let mut session = Session::open(heap, 4, &row)?;
    // on the row the places 0 and 3 do not touch; on the star each place touches place 3 alone
    session.cx(0, 3)?;
    assert!(rt; session.flush(&mut hub, &mut [0; 24])? > 0);
    assert_eq!(rt; hub.word(session.place(3)?), Ok(0b1001));
    check_words(&rt, &row, &[1, 2, 4, 8]);
    assert_eq!(rt;
        give_back_elsewhere(&mut session, &mut hub, &mut row)?,
        Ok(())
    );
    assert_eq!(rt; (hub.serves(0), row.serves(0)), (Ok(false), Ok(true)));
    Ok(())
}

// Takes coupler 0 of one machine out and gives the pass back on another machine of the same size; says how that was answered.
fn give_back_elsewhere<L: Machine, R: Machine>(
    session: &mut Session,
    machine: &mut L,
    other: &mut R,
) -> Result<Result<(), SessionFault>, Fail> {
    let pass = session.take_out(machine, 0)?;
    if let Err((fault, pass)) = session.give_back(other, pass) {
        give(session, machine, pass);
        return Ok(Err(fault));
    }
    Ok(Ok(()))
}
