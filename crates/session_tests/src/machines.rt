// Machines to open sessions on.
use grid::GridChip;
use machine::Machine;
use map::MappedChip;
use replaying::words::first_other_word;
use std::alloc::Global;
use std::process::Abort;
use std::test::*;
use table::store::TableMachine;
use tape::store::TapeMachine;

// A table machine on a grid.
// Kept: the other tests have one, too; shared, it would need a contract that is longer than its body.
pub(crate) fn table(rows: usize, columns: usize) -> Result<TableMachine<GridChip>, Fail> {
    Ok(TableMachine::new(GridChip::new(rows, columns)?))
}

// A tape machine on a grid.
// Kept: the other tests have one, too; shared, it would need a contract that is longer than its body.
pub(crate) fn tape(
    heap: Global,
    rows: usize,
    columns: usize,
    length: usize,
) -> Result<TapeMachine<GridChip>, Fail> {
    let chip = GridChip::new(rows, columns)?;
    Ok(TapeMachine::new(heap, chip, length).map_err(|back| back.fault)?)
}

// Checks the words at place 0 and the places after it.
pub(crate) fn check_words<M: Machine>(rt: &impl Abort, machine: &M, words: &[u64]) {
    assert_eq!(rt; first_other_word(machine, words), None);
}

// A table machine on a star of four places, whose couplers all end at place 3.
pub(crate) fn star(heap: Global) -> Result<TableMachine<MappedChip>, Fail> {
    let chip = MappedChip::read(heap, &[4, 3, 0, 0, 1, 2, 3, 3, 3])?;
    Ok(TableMachine::new(chip))
}
