// Random runs on some grids, on machines of both kinds.
use crate::machines::{table, tape};
use crate::nest::Run;
use chip::Chip;
use machine::Machine;
use session::store::Session;
use std::alloc::Global;
use std::process::Abort;
use std::test::*;

// A random run of some hundred calls on a new machine.
fn run<'a, R: Abort, M: Machine>(
    rt: &'a R,
    heap: Global,
    machine: &mut M,
    seed: u64,
) -> Result<Run<'a, R>, Fail> {
    let mut session = Session::open(heap, 7, machine)?;
    let mut run = Run::new(rt, heap, seed, machine.couplers())?;
    // half of the couplers and one more out at once
    let depth = machine.couplers() / 2 + 1;
    for number in 0..4 {
        run.progress.part = number;
        run.nest(&mut session, machine, depth)?;
    }
    Ok(run)
}

// Random runs on a grid, with many flushes obeyed and many unreachable.
fn check_grid(rt: &impl Abort, heap: Global, rows: usize, columns: usize) -> Result<(), Fail> {
    let (mut obeyed, mut unreachable): (usize, usize) = (0, 0);
    for seed in 0..12 {
        let run = run(rt, heap, &mut table(rows, columns)?, seed)?;
        obeyed = obeyed.checked_add(run.obeyed).ok_or("too many")?;
        unreachable = unreachable.checked_add(run.unreachable).ok_or("too many")?;
    }
    assert!(rt; obeyed > 60, "{rows}, {columns}: {obeyed}");
    assert!(rt; unreachable > 20, "{rows}, {columns}: {unreachable}");
    Ok(())
}

#[test]
fn random_runs_with_outages_follow_the_sheet(rt: HostRuntime) -> Result<(), Fail> {
    for (rows, columns) in [(1, 2), (1, 4), (2, 3), (3, 3), (3, 4)] {
        check_grid(&rt, rt.alloc(), rows, columns)?;
    }
    Ok(())
}

// Checks that two machines of one chip have the same words and the same couplers in service.
fn check_same<L: Machine, R: Machine>(rt: &impl Abort, seed: u64, left: &L, right: &R) {
    let word = (0..left.width()).find(|&q| left.word(q) != right.word(q));
    assert_eq!(rt; word, None, "{seed}");
    let service = (0..left.couplers()).find(|&k| left.serves(k) != right.serves(k));
    assert_eq!(rt; service, None, "{seed}");
}

#[test]
fn a_run_on_a_tape_is_the_run_on_a_table(rt: HostRuntime) -> Result<(), Fail> {
    let heap = rt.alloc();
    for seed in 100..108 {
        let (mut left, mut right) = (table(2, 3)?, tape(heap, 2, 3, 8192)?);
        let first = run(&rt, heap, &mut left, seed)?;
        let second = run(&rt, heap, &mut right, seed)?;
        assert_eq!(rt; first.trace, second.trace, "{seed}");
        check_same(&rt, seed, &left, &right);
    }
    Ok(())
}
