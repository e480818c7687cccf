// The chips that are no plain grids, as map files.
ghost use Rattle.std.specs.Prelude.{◌<◌};

use draft::{Draft, DraftFault};
use map::MappedChip;
use std::alloc::{AllocError, Global};

// The chip of a map file, if there was memory for both.
fn read(heap: Global, file: Result<Vec<u8>, DraftFault>) -> Option<MappedChip> {
    MappedChip::read(heap, file.ok()?.as_slice()).ok()
}

// Two rings of eight, places 0 to 7 and 8 to 15, joined by couplers from place 2 to 15 and from 3 to 14.
pub(crate) fn two_rings(heap: Global) -> Option<MappedChip> {
    read(heap, two_rings_file(heap))
}

fn two_rings_file(heap: Global) -> Result<Vec<u8>, DraftFault> {
    let mut draft = Draft::new(heap);
    for q in 0u8..8 {
        let next = (q + 1) % 8;
        draft.join(q, next)?;
        draft.join(q + 8, next + 8)?;
    }
    draft.join(2, 15)?;
    draft.join(3, 14)?;
    draft.file(heap, 16)
}

// Four rows of five places, with both diagonals in each square whose row and column add up to an odd number.
pub(crate) fn with_diagonals(heap: Global) -> Option<MappedChip> {
    read(heap, with_diagonals_file(heap))
}

fn with_diagonals_file(heap: Global) -> Result<Vec<u8>, DraftFault> {
    let mut draft = Draft::new(heap);
    for row in 0u8..4 {
        for column in 0u8..5 {
            join_onward(&mut draft, row, column)?;
        }
    }
    draft.file(heap, 20)
}

// Joins a place to the places after it: right, down, and over the square to its right and below.
fn join_onward(draft: &mut Draft, row: u8, column: u8) -> Result<(), AllocError>
    requires row { row < 4 }
    requires column { column < 5 }
{
    let place = row * 5 + column;
    if column < 4 {
        draft.join(place, place + 1)?;
    }
    if row < 3 {
        draft.join(place, place + 5)?;
    }
    if row < 3 && column < 4 && (row + column) % 2 == 1 {
        draft.join(place, place + 6)?;
        draft.join(place + 1, place + 5)?;
    }
    Ok(())
}
