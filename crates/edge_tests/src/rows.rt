// Machines to test, most on a row of places where coupler k joins places k and k + 1.
use grid::GridChip;
use machine::Machine;
use machine::fault::MachineFault;
use play::play;
use replaying::words::first_other_word;
use std::alloc::Global;
use std::process::Abort;
use std::test::Fail;
use table::store::TableMachine;
use tape::store::TapeMachine;

// What a machine says to a gate when its allowance is spent.
pub(crate) const SPENT: MachineFault = MachineFault::AllowanceExceeded { asked: 1, left: 0 };

// A table machine on a row.
// Kept: the other tests have one, too; shared, it would need a contract that is longer than its body.
pub(crate) fn table(places: usize) -> Result<TableMachine<GridChip>, Fail> {
    Ok(TableMachine::new(GridChip::new(1, places)?))
}

// A tape machine on a row.
pub(crate) fn tape(
    heap: Global,
    places: usize,
    length: usize,
) -> Result<TapeMachine<GridChip>, Fail> {
    tape_on(heap, GridChip::new(1, places)?, length)
}

// A tape machine on a grid.
// Kept: the other tests have one, too; shared, it would need a contract that is longer than its body.
pub(crate) fn tape_on(
    heap: Global,
    chip: GridChip,
    length: usize,
) -> Result<TapeMachine<GridChip>, Fail> {
    Ok(TapeMachine::new(heap, chip, length).map_err(|back| back.fault)?)
}

// A machine of some kind under test; the kind is said where a check fails.
#[derive(Drop)]
pub(crate) struct Trial<'a, R, M> {
    pub(crate) rt: &'a R,
    pub(crate) machine: &'a mut M,
    pub(crate) kind: &'a str,
}

impl<'a, R: Abort, M: Machine> Trial<'a, R, M> {
    pub(crate) fn new(rt: &'a R, kind: &'a str, machine: &'a mut M) -> Trial<'a, R, M> {
        Trial { rt, machine, kind }
    }

    // Checks the words at place 0 and the places after it.
    pub(crate) fn check_words(&self, words: &[u64]) {
        let kind = self.kind;
        assert_eq!(self.rt; first_other_word(self.machine, words), None, "{kind}");
    }

    // Checks what playing some gates is answered.
    pub(crate) fn check_play(&mut self, gates: &[u16], answer: Result<(), MachineFault>) {
        let kind = self.kind;
        assert_eq!(self.rt; play(self.machine, gates), answer, "{kind}");
    }
}
