// Mapped chips: whole files, and what is wrong with the others.
use chip::Chip;
use chip::fault::ChipFault;
use map::MappedChip;
use std::alloc::{AllocError, Global};
use std::array;
use std::process::Abort;
use std::test::Fail;

// Checks that a file with something wrong in it is refused, and why.
fn check_refused(rt: &impl Abort, heap: Global, file: &[u8], fault: ChipFault, wrong: &str) {
    assert_eq!(rt; MappedChip::read(heap, file).err(), Some(fault), "{wrong}");
}

#[test]
fn left_ends_come_first_and_then_right_ends(rt: HostRuntime) -> Result<(), Fail> {
    let chip = MappedChip::read(rt.alloc(), &[3, 2, 0, 0, 1, 1, 2])?;
    assert_eq!(rt; chip.width(), 3);
    assert_eq!(rt; chip.couplers(), 2);
    assert_eq!(rt; chip.ends(0), Ok((0, 1)));
    assert_eq!(rt; chip.ends(1), Ok((1, 2)));
    assert_eq!(rt; chip.ends(2), Err(ChipFault::NoSuchCoupler));
    Ok(())
}

#[test]
fn places_are_joined_in_either_order(rt: HostRuntime) -> Result<(), Fail> {
    let chip = MappedChip::read(rt.alloc(), &[3, 2, 0, 0, 2, 1, 1])?;
    for (a, b, k) in [
        (0, 1, Some(0)),
        (1, 0, Some(0)),
        (1, 2, Some(1)),
        (2, 1, Some(1)),
        (0, 2, None),
        (1, 1, None),
        (1, 3, None),
    ] {
        assert_eq!(rt; chip.joins(a, b), k, "{a}; {b}");
    }
    Ok(())
}

#[test]
fn one_place_without_couplers_is_a_chip(rt: HostRuntime) -> Result<(), Fail> {
    let chip = MappedChip::read(rt.alloc(), &[1, 0, 0])?;
    assert_eq!(rt; chip.width(), 1);
    assert_eq!(rt; chip.couplers(), 0);
    assert_eq!(rt; chip.ends(0), Err(ChipFault::NoSuchCoupler));
    Ok(())
}

#[test]
fn a_bad_coupler_is_named(rt: HostRuntime) {
    let heap = rt.alloc();
    let first = ChipFault::BadCoupler { coupler: 0 };
    let second = ChipFault::BadCoupler { coupler: 1 };
    check_refused(
        &rt,
        heap,
        &[3, 2, 0, 0, 1, 1, 0],
        second,
        "the first, turned round",
    );
    check_refused(&rt, heap, &[3, 2, 0, 0, 0, 1, 1], second, "the first again");
    check_refused(
        &rt,
        heap,
        &[3, 2, 0, 0, 3, 1, 2],
        second,
        "a left end past the places",
    );
    check_refused(
        &rt,
        heap,
        &[3, 2, 0, 0, 1, 1, 3],
        second,
        "a right end past the places",
    );
    check_refused(&rt, heap, &[3, 1, 0, 1, 1], first, "equal ends");
    check_refused(
        &rt,
        heap,
        &[3, 2, 0, 2, 1, 2, 1],
        first,
        "the first of two that are bad",
    );
    check_refused(&rt, heap, &[1, 1, 0, 0, 1], first, "one place");
}

#[test]
fn a_wrong_length_is_refused(rt: HostRuntime) {
    let heap = rt.alloc();
    let fault = ChipFault::WrongLength;
    check_refused(&rt, heap, &[], fault, "no byte");
    check_refused(&rt, heap, &[0], fault, "one byte");
    check_refused(&rt, heap, &[65, 255], fault, "two bytes");
    check_refused(&rt, heap, &[3, 2, 0, 0, 1, 1], fault, "one byte short");
    check_refused(&rt, heap, &[3, 2, 0, 0, 1, 1, 2, 0], fault, "one byte long");
    check_refused(
        &rt,
        heap,
        &[3, 1, 0, 1, 1, 1],
        fault,
        "before a bad coupler",
    );
}

#[test]
fn a_size_is_refused_before_a_length(rt: HostRuntime) {
    let heap = rt.alloc();
    let fault = ChipFault::SizeOffLimits;
    check_refused(&rt, heap, &[0, 0, 0], fault, "no place");
    check_refused(&rt, heap, &[65, 0, 0], fault, "65 places");
    check_refused(
        &rt,
        heap,
        &[3, 1, 1],
        fault,
        "257 couplers, none of them there",
    );
    check_refused(
        &rt,
        heap,
        &[0, 1, 0],
        fault,
        "no place, and a coupler short",
    );
    check_refused(&rt, heap, &[64, 255, 255, 0], fault, "65535 couplers");
}

// A file of 64 places and 256 couplers, the last one given: any other coupler k joins place k % 64
// to the place 1 + k / 64 steps on, round the ring of places.
fn full_file(heap: Global, last: (u8, u8)) -> Result<Vec<u8>, AllocError> {
    let mut lefts: [u8; 256] = array::from_fn(|k| (k % 64) as u8);
    let mut rights: [u8; 256] = array::from_fn(|k| ((k % 64 + k / 64 + 1) % 64) as u8);
    (lefts[255], rights[255]) = last;
    let mut file = vec![in heap; 64, 0, 1]?;
    file.extend_from_slice(&lefts)?;
    file.extend_from_slice(&rights)?;
    Ok(file)
}

#[test]
fn the_largest_map_is_a_chip(rt: HostRuntime) -> Result<(), Fail> {
    let heap = rt.alloc();
    let file = full_file(heap, (63, 3))?;
    assert_eq!(rt; file.len(), 515);
    let chip = MappedChip::read(heap, file.as_slice())?;
    assert_eq!(rt; chip.width(), 64);
    assert_eq!(rt; chip.couplers(), 256);
    assert_eq!(rt; chip.ends(0), Ok((0, 1)));
    assert_eq!(rt; chip.ends(255), Ok((63, 3)));
    assert_eq!(rt; chip.ends(256), Err(ChipFault::NoSuchCoupler));
    assert_eq!(rt; chip.joins(3, 63), Some(255));
    Ok(())
}

#[test]
fn the_last_coupler_of_the_largest_map_is_checked(rt: HostRuntime) -> Result<(), Fail> {
    let heap = rt.alloc();
    let fault = ChipFault::BadCoupler { coupler: 255 };
    for last in [(1, 0), (0, 1), (63, 63), (63, 64)] {
        let file = full_file(heap, last)?;
        check_refused(&rt, heap, file.as_slice(), fault, "the last coupler");
    }
    Ok(())
}

#[test]
fn a_second_chip_of_the_same_layout_is_alike(rt: HostRuntime) -> Result<(), Fail> {
    let heap = rt.alloc();
    let first = MappedChip::read(heap, full_file(heap, (63, 3))?.as_slice())?;
    let second = first.duplicate(heap)?;
    assert_eq!(rt; second.width(), first.width());
    assert_eq!(rt; second.couplers(), first.couplers());
    for k in 0..257 {
        assert_eq!(rt; second.ends(k), first.ends(k), "{k}");
    }
    Ok(())
}
