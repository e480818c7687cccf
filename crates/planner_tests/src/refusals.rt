// What the planner turns down, with nothing touched.
use crate::chips::line;
use crate::task::{empty_block, own_places};
use crate::trial::{BUFFER, Trial, UNTOUCHED, plan_for};
use chip::Chip;
use machine::Machine;
use planner::fault::{PlanFault, WireFault};
use planner::store::{Block, Places};
use replaying::words::most_gates;
use std::process::Abort;
use std::test::*;

// A buffer one entry short is refused with the length that is needed; that length is enough.
fn check_short<M: Machine>(rt: &impl Abort, machine: &M) -> Result<(), Fail> {
    let n = machine.width();
    let trial = Trial::new(rt, "line", machine, 0);
    let case = trial.case;
    let mut block = empty_block(n)?;
    block.cx(n.saturating_sub(1), 0)?;
    let places = own_places(n)?;
    let needed = most_gates(n).ok_or("too wide")?;
    let mut out = [UNTOUCHED; BUFFER];
    let short = out.get_mut(..needed.saturating_sub(1)).ok_or("no room")?;
    let refused = plan_for(machine, &block, &places, short).err();
    assert_eq!(rt;
        refused,
        Some(PlanFault::BufferTooShort { needed }),
        "{case}"
    );
    trial.check_untouched(&out);
    let enough = out.get_mut(..needed).ok_or("no room")?;
    assert!(rt;
        plan_for(machine, &block, &places, enough).is_ok(),
        "{case}"
    );
    Ok(())
}

#[test]
fn a_short_buffer_is_told_what_is_needed(rt: HostRuntime) -> Result<(), Fail> {
    for places in [2, 3, 7, 63, 64] {
        check_short(&rt, &line(rt.alloc(), places)?)?;
    }
    Ok(())
}

// A block or a placement of another size than the machine is refused.
fn check_mismatch<M: Machine>(
    rt: &impl Abort,
    machine: &M,
    wires: usize,
    placed: usize,
) -> Result<(), Fail> {
    let trial = Trial::new(rt, "line", machine, wires);
    let case = trial.case;
    let block = empty_block(wires)?;
    let places = own_places(placed)?;
    let mut out = [UNTOUCHED; BUFFER];
    let refused = plan_for(machine, &block, &places, &mut out).err();
    assert_eq!(rt; refused, Some(PlanFault::SizeMismatch), "{case}");
    trial.check_untouched(&out);
    Ok(())
}

#[test]
fn sizes_that_differ_are_refused(rt: HostRuntime) -> Result<(), Fail> {
    let machine = line(rt.alloc(), 3)?;
    for (wires, placed) in [(2, 3), (3, 2), (4, 4), (64, 3), (3, 64)] {
        check_mismatch(&rt, &machine, wires, placed)?;
    }
    assert!(rt; Block::new(0).is_none() && Block::new(65).is_none());
    assert!(rt; Places::new(0).is_none() && Places::new(65).is_none());
    Ok(())
}

#[test]
fn calls_with_bad_wires_change_nothing(rt: HostRuntime) -> Result<(), Fail> {
    let mut block = empty_block(2)?;
    block.cx(0, 1)?;
    for (a, b) in [(0, 2), (2, 0), (2, 2), (usize::MAX, 0)] {
        assert_eq!(rt; block.cx(a, b), Err(WireFault::NoSuchWire));
        assert_eq!(rt; block.swap(a, b), Err(WireFault::NoSuchWire));
    }
    for a in [0, 1] {
        assert_eq!(rt; block.cx(a, a), Err(WireFault::SameWire));
        assert_eq!(rt; block.swap(a, a), Err(WireFault::SameWire));
    }
    assert_eq!(rt; block.words(), &[1, 3][..]);
    Ok(())
}
