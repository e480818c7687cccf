// The least and the largest: tapes of no entries, one place, 64 places.
use crate::machines::{check_words, table, tape};
use chip::Chip;
use machine::Machine;
use machine::fault::MachineFault;
use replaying::gates::replayed;
use session::store::Session;
use session_fault::SessionFault;
use std::process::Abort;
use std::test::*;

#[test]
fn a_tape_of_no_entries_lets_wires_be_renamed_and_no_more(rt: HostRuntime) -> Result<(), Fail> {
    let heap = rt.alloc();
    let mut machine = tape(heap, 1, 2, 0)?;
    let mut session = Session::open(heap, 0, &machine)?;
    let mut buffer = [9; 4];
    session.swap(0, 1)?;
    assert_eq!(rt; session.flush(&mut machine, &mut buffer), Ok(0));
    assert_eq!(rt; (session.place(0), session.place(1)), (Ok(1), Ok(0)));
    session.cx(0, 1)?;
    let answer = session.flush(&mut machine, &mut buffer);
    let Err(SessionFault::Machine(MachineFault::AllowanceExceeded { asked, left: 0 })) = answer
    else {
        return Err(Fail::new("not refused for its gates"));
    };
    // the plan stands in the buffer: wire 0 at place 1 goes into wire 1 at place 0
    let words = replayed(&machine, buffer.get(..asked).ok_or("too many gates")?)?;
    let plan = (words[0], words[1]);
    assert!(rt; plan == (3, 2) || plan == (2, 3), "{asked}");
    assert_eq!(rt; (session.place(0), session.place(1)), (Ok(1), Ok(0)));
    check_words(&rt, &machine, &[1, 2]);
    Ok(())
}

#[test]
fn one_place_needs_no_buffer(rt: HostRuntime) -> Result<(), Fail> {
    let mut machine = table(1, 1)?;
    let mut session = Session::open(rt.alloc(), 0, &machine)?;
    assert_eq!(rt; session.cx(0, 0), Err(SessionFault::SameWire));
    assert_eq!(rt; session.flush(&mut machine, &mut []), Ok(0));
    assert_eq!(rt; session.place(0), Ok(0));
    Ok(())
}

// Adds each wire into the wire half the chip away.
fn fold(session: &mut Session) -> Result<(), Fail> {
    for w in 0..32 {
        session.cx(w, w + 32)?;
    }
    Ok(())
}

// Checks that each wire carries what it should after that.
fn check_folded<M: Machine>(rt: &impl Abort, session: &Session, machine: &M) -> Result<(), Fail> {
    for w in 0..32 {
        assert_eq!(rt; machine.word(session.place(w)?), Ok(1 << w), "{w}");
        let both = (1 << w) | (1 << (w + 32));
        assert_eq!(rt; machine.word(session.place(w + 32)?), Ok(both), "{w}");
    }
    Ok(())
}

#[test]
fn the_largest_chip_needs_8064_entries(rt: HostRuntime) -> Result<(), Fail> {
    let mut machine = table(8, 8)?;
    let mut session = Session::open(rt.alloc(), 0, &machine)?;
    fold(&mut session)?;
    let refused = session.flush(&mut machine, &mut [0; 8063]);
    assert_eq!(rt;
        refused,
        Err(SessionFault::PlanBufferTooShort { needed: 8064 })
    );
    assert!(rt; session.flush(&mut machine, &mut [0; 8064])? > 32);
    check_folded(&rt, &session, &machine)
}
