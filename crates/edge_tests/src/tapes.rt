// Tapes: their lengths, their entries, and the words they give.
use crate::rows::{SPENT, Trial, tape, tape_on};
use chip::Chip;
use grid::GridChip;
use machine::Machine;
use machine::fault::MachineFault;
use play::play;
use std::array;
use std::process::Abort;
use std::test::Fail;
use table::store::TableMachine;
use tape::store::TapeMachine;

#[test]
fn a_tape_of_no_entries_takes_no_gate(rt: HostRuntime) -> Result<(), Fail> {
    let mut machine = tape(rt.alloc(), 2, 0)?;
    assert_eq!(rt; machine.allowance(), 0);
    assert_eq!(rt; machine.cnot(0, 1), Err(SPENT));
    assert!(rt; machine.entries().is_empty());
    Trial::new(&rt, "tape", &mut machine).check_words(&[1, 2]);
    Ok(())
}

#[test]
fn a_tape_of_two_entries_takes_two_gates(rt: HostRuntime) -> Result<(), Fail> {
    let mut machine = tape(rt.alloc(), 2, 2)?;
    machine.cnot(0, 1)?;
    machine.cnot(1, 0)?;
    assert_eq!(rt; machine.cnot(0, 1), Err(SPENT));
    assert_eq!(rt; machine.allowance(), 0);
    assert_eq!(rt; machine.entries(), &[1, 64][..]);
    Trial::new(&rt, "tape", &mut machine).check_words(&[2, 3]);
    Ok(())
}

#[test]
fn the_longest_tape_can_be_filled(rt: HostRuntime) -> Result<(), Fail> {
    let mut machine = tape(rt.alloc(), 2, 8192)?;
    for _ in 0..4096 {
        machine.cnot(0, 1)?;
        machine.cnot(1, 0)?;
    }
    assert_eq!(rt; machine.entries().len(), 8192);
    assert_eq!(rt; machine.cnot(0, 1), Err(SPENT));
    // Three such pairs of gates give the fresh words back, and 4096 is one above a multiple of three.
    Trial::new(&rt, "tape", &mut machine).check_words(&[2, 3]);
    Ok(())
}

#[test]
fn a_longer_tape_is_refused_and_the_chip_comes_back(rt: HostRuntime) -> Result<(), Fail> {
    for length in [8193, usize::MAX] {
        let Err(back) = TapeMachine::new(rt.alloc(), GridChip::new(2, 3)?, length) else {
            return Err(Fail::new("a machine was made"));
        };
        assert_eq!(rt; back.fault, MachineFault::TapeTooLong);
        assert_eq!(rt; (back.chip.width(), back.chip.couplers()), (6, 7));
    }
    Ok(())
}

#[test]
fn an_entry_is_64_times_the_control_and_the_target(rt: HostRuntime) -> Result<(), Fail> {
    let mut machine = tape_on(rt.alloc(), GridChip::new(8, 8)?, 4)?;
    for (c, t) in [(0, 1), (1, 0), (55, 63), (63, 62)] {
        machine.cnot(c, t)?;
    }
    assert_eq!(rt; machine.entries(), &[1, 64, 3583, 4094][..]);
    Ok(())
}

// Plays a gate over each coupler, one way or the other.
fn play_over_each<M: Machine, F: Fn((usize, usize)) -> (usize, usize)>(
    machine: &mut M,
    gate: F,
) -> Result<(), Fail>
    requires { F.IsAlwaysCallable gate }
{
    for k in 0..machine.couplers() {
        let (control, target) = gate(machine.ends(k)?);
        machine.cnot(control, target)?;
    }
    Ok(())
}

// Plays a gate one way over each coupler, and then a gate the other way over each.
fn weave<M: Machine>(machine: &mut M) -> Result<(), Fail> {
    play_over_each(machine, |ends| ends)?;
    play_over_each(machine, |(left, right)| (right, left))
}

// The words of a machine at 64 places.
fn words_of<M: Machine>(machine: &M) -> [Result<u64, MachineFault>; 64] {
    array::from_fn(|q| machine.word(q))
}

// Checks that two machines of 64 places have the same words.
fn check_same_words<L: Machine, R: Machine>(rt: &impl Abort, left: &L, right: &R, when: &str) {
    let words = words_of(left);
    assert!(rt; words.iter().all(|word| word.is_ok()), "{when}");
    assert_eq!(rt; words, words_of(right), "{when}");
}

#[test]
fn a_tape_gives_the_words_of_a_table(rt: HostRuntime) -> Result<(), Fail> {
    let chip = GridChip::new(8, 8)?;
    let mut tape = tape_on(rt.alloc(), chip, 224)?;
    let mut table = TableMachine::new(chip);
    let mut player = TableMachine::new(chip);
    check_same_words(&rt, &tape, &table, "fresh");
    weave(&mut tape)?;
    weave(&mut table)?;
    check_same_words(&rt, &tape, &table, "gate by gate");
    play(&mut player, tape.entries())?;
    check_same_words(&rt, &tape, &player, "played from the tape");
    assert_ne!(rt; tape.word(63), Ok(1 << 63));
    Ok(())
}
