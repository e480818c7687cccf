// Refusals, each with everything as it was: places, words, service, allowance, and the block, which the next flush shows.
use crate::look::Look;
use crate::machines::{check_words, table, tape};
use crate::passes::{give, take_and_give, write};
use chip::Chip;
use machine::Machine;
use machine::fault::MachineFault;
use session::store::Session;
use session_fault::SessionFault;
use std::alloc::Global;
use std::process::Abort;
use std::test::*;

// Checks that no session is opened, since the machine is not new.
fn check_not_new<M: Machine>(
    rt: &impl Abort,
    why: &str,
    heap: Global,
    machine: &M,
) -> Result<(), Fail> {
    let refused = Session::open(heap, 1, machine).err();
    assert_eq!(rt; refused, Some(SessionFault::MachineNotNew), "{why}");
    Ok(())
}

#[test]
fn a_machine_that_is_not_new_is_refused(rt: HostRuntime) -> Result<(), Fail> {
    let heap = rt.alloc();
    let mut machine = tape(heap, 1, 2, 4)?;
    machine.set(0, false)?;
    check_not_new(&rt, "a coupler is out", heap, &machine)?;
    machine.set(0, true)?;
    machine.cnot(1, 0)?;
    check_not_new(&rt, "a word is not fresh", heap, &machine)?;
    check_words(&rt, &machine, &[3, 2]);
    // the words are fresh again, and the allowance does not count
    machine.cnot(1, 0)?;
    assert_eq!(rt; Session::open(heap, 1, &machine)?.number(), 1);
    Ok(())
}

// Checks the refusals of wires, couplers and buffers on four places in a row.
fn check_bad_arguments<M: Machine>(
    rt: &impl Abort,
    session: &mut Session,
    machine: &mut M,
) -> Result<(), Fail> {
    let no_wire = SessionFault::NoSuchWire;
    for (a, b) in [(0, 4), (4, 0), (4, 4), (usize::MAX, 0)] {
        assert_eq!(rt;
            (session.cx(a, b), session.swap(a, b)),
            (Err(no_wire), Err(no_wire))
        );
    }
    let same = SessionFault::SameWire;
    assert_eq!(rt;
        (session.cx(3, 3), session.swap(0, 0)),
        (Err(same), Err(same))
    );
    assert_eq!(rt; session.place(4), Err(no_wire));
    let no_coupler = SessionFault::Machine(MachineFault::NoSuchCoupler);
    for k in [3, usize::MAX] {
        assert_eq!(rt; take_and_give(session, machine, k), Err(no_coupler), "{k}");
    }
    let short = SessionFault::PlanBufferTooShort { needed: 24 };
    assert_eq!(rt; session.flush(machine, &mut [0; 23]), Err(short));
    Ok(())
}

// Checks that a block is refused since its gates are too many for an allowance of none.
fn check_spent<M: Machine>(
    rt: &impl Abort,
    session: &mut Session,
    machine: &mut M,
) -> Result<(), Fail> {
    let answer = session.flush(machine, &mut [0; 24]);
    let Err(SessionFault::Machine(MachineFault::AllowanceExceeded { asked, left })) = answer else {
        return Err(Fail::new("not refused for its gates"));
    };
    assert!(rt; asked > 0 && left == 0);
    Ok(())
}

#[test]
fn bad_arguments_change_nothing(rt: HostRuntime) -> Result<(), Fail> {
    let heap = rt.alloc();
    let mut machine = tape(heap, 1, 4, 0)?;
    let mut session = Session::open(heap, 1, &machine)?;
    session.cx(0, 3)?;
    let before = Look::of(&session, &machine);
    check_bad_arguments(&rt, &mut session, &mut machine)?;
    check_spent(&rt, &mut session, &mut machine)?;
    assert_eq!(rt; Look::of(&session, &machine), before);
    // the block is still the one CX: the same again undoes it, and an exchange then takes no gate
    session.cx(0, 3)?;
    session.swap(0, 3)?;
    assert_eq!(rt; session.flush(&mut machine, &mut [0; 24]), Ok(0));
    assert_eq!(rt; (session.place(0), session.place(3)), (Ok(3), Ok(0)));
    Ok(())
}

// While coupler k is out it is not taken out again, and the block, which needs it, is unreachable.
fn refused_while_out<M: Machine>(
    rt: &impl Abort,
    session: &mut Session,
    machine: &mut M,
    k: usize,
) -> Result<(), Fail> {
    let pass = session.take_out(machine, k)?;
    let before = Look::of(session, machine);
    let taken = take_and_give(session, machine, k);
    let flushed = session.flush(machine, &mut [0; 24]);
    let after = Look::of(session, machine);
    give(session, machine, pass);
    assert_eq!(rt; taken, Err(SessionFault::CouplerNotIn), "{k}");
    assert_eq!(rt; flushed, Err(SessionFault::Unreachable), "{k}");
    assert_eq!(rt; after, before, "{k}");
    Ok(())
}

// A coupler that is written off stays out, and is never taken out again.
fn check_written_off<M: Machine>(
    rt: &impl Abort,
    session: &mut Session,
    machine: &mut M,
    k: usize,
) -> Result<(), Fail> {
    let pass = session.take_out(machine, k)?;
    write(session, machine, pass);
    let taken = take_and_give(session, machine, k);
    assert_eq!(rt; taken, Err(SessionFault::CouplerNotIn));
    assert_eq!(rt; machine.serves(k), Ok(false));
    Ok(())
}

// On four places in a row a CX between the ends needs each coupler.
fn check_needed(rt: &impl Abort, heap: Global, k: usize) -> Result<(), Fail> {
    let mut machine = table(1, 4)?;
    let mut session = Session::open(heap, 1, &machine)?;
    session.cx(0, 3)?;
    refused_while_out(rt, &mut session, &mut machine, k)?;
    let _ = session.flush(&mut machine, &mut [0; 24])?;
    assert_eq!(rt; machine.word(session.place(3)?), Ok(0b1001), "{k}");
    Ok(())
}

#[test]
fn a_coupler_that_is_out_is_missed_until_it_is_back(rt: HostRuntime) -> Result<(), Fail> {
    for k in 0..3 {
        check_needed(&rt, rt.alloc(), k)?;
    }
    Ok(())
}

#[test]
fn a_coupler_written_off_is_missed_for_good(rt: HostRuntime) -> Result<(), Fail> {
    let mut machine = table(1, 4)?;
    let mut session = Session::open(rt.alloc(), 1, &machine)?;
    check_written_off(&rt, &mut session, &mut machine, 2)?;
    session.cx(0, 2)?;
    assert!(rt; session.flush(&mut machine, &mut [0; 24])? > 0);
    session.cx(0, 3)?;
    let refused = session.flush(&mut machine, &mut [0; 24]);
    assert_eq!(rt; refused, Err(SessionFault::Unreachable));
    Ok(())
}

#[test]
fn each_refusal_has_its_number(rt: HostRuntime) -> Result<(), Fail> {
    let cases = [
        (SessionFault::MachineNotNew, 10),
        (SessionFault::SizeMismatch, 11),
        (SessionFault::CouplerNotIn, 12),
        (SessionFault::OtherSession, 14),
        (SessionFault::CouplerNotOut, 15),
        (SessionFault::PlanBufferTooShort { needed: 24 }, 16),
        (SessionFault::Unreachable, 17),
        (SessionFault::Machine(MachineFault::NoSuchCoupler), 18),
        (SessionFault::NoSuchWire, 19),
        (SessionFault::SameWire, 20),
    ];
    for (fault, number) in cases {
        assert_eq!(rt; fault.number(), number);
    }
    Ok(())
}
