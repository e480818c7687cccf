// Chips to plan on, read from map files that are put together here.
use draft::Draft;
use map::MappedChip;
use std::alloc::{AllocError, Global};
use std::test::*;
use table::store::TableMachine;

// A machine on a chip with these couplers.
fn machine(heap: Global, places: u8, draft: &Draft) -> Result<TableMachine<MappedChip>, Fail> {
    let file = draft.file(heap, places)?;
    Ok(TableMachine::new(MappedChip::read(heap, file.as_slice())?))
}

// Couplers between places one after another; coupler q joins place q to the next.
fn row(heap: Global, places: u8) -> Result<Draft, AllocError> {
    let mut draft = Draft::new(heap);
    for q in 1..places {
        draft.join(q - 1, q)?;
    }
    Ok(draft)
}

// Places one after another.
pub(crate) fn line(heap: Global, places: u8) -> Result<TableMachine<MappedChip>, Fail> {
    machine(heap, places, &row(heap, places)?)
}

// Three or more places round a ring.
pub(crate) fn ring(heap: Global, places: u8) -> Result<TableMachine<MappedChip>, Fail> {
    let mut draft = row(heap, places)?;
    draft.join(places.checked_sub(1).ok_or("no places")?, 0)?;
    machine(heap, places, &draft)
}

// All places joined to the last.
pub(crate) fn star(heap: Global, places: u8) -> Result<TableMachine<MappedChip>, Fail> {
    let mut draft = Draft::new(heap);
    for q in 1..places {
        draft.join(places - 1, q - 1)?;
    }
    machine(heap, places, &draft)
}
