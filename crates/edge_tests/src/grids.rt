// Grid chips: sizes at the limits, the order of the couplers, and which places are joined.
use chip::Chip;
use chip::fault::ChipFault;
use grid::GridChip;
use std::process::Abort;
use std::test::Fail;

// Checks how many places and couplers a grid has.
fn check_sizes(
    rt: &impl Abort,
    rows: usize,
    columns: usize,
    places: usize,
    couplers: usize,
) -> Result<(), Fail> {
    let chip = GridChip::new(rows, columns)?;
    assert_eq!(rt; chip.width(), places, "{rows}; {columns}");
    assert_eq!(rt; chip.couplers(), couplers, "{rows}; {columns}");
    Ok(())
}

#[test]
fn sizes_at_the_limits_are_taken(rt: HostRuntime) -> Result<(), Fail> {
    let cases = [
        (1, 1, 1, 0),
        (1, 64, 64, 63),
        (64, 1, 64, 63),
        (8, 8, 64, 112),
    ];
    for (rows, columns, places, couplers) in cases {
        check_sizes(&rt, rows, columns, places, couplers)?;
    }
    Ok(())
}

#[test]
fn sizes_past_the_limits_are_refused(rt: HostRuntime) {
    let most = usize::MAX;
    let half = 1 << 32;
    let cases = [
        (0, 1),
        (1, 0),
        (0, 0),
        (65, 1),
        (1, 65),
        (5, 13),
        (most, 1),
        (1, most),
        (half, half),
        (most, most),
    ];
    for (rows, columns) in cases {
        let fault = GridChip::new(rows, columns).err();
        assert_eq!(rt; fault, Some(ChipFault::SizeOffLimits), "{rows}; {columns}");
    }
}

// Checks the ends of some couplers, each given as its number, its left end and its right end.
fn check_ends(rt: &impl Abort, chip: &GridChip, cases: &[(usize, usize, usize)]) {
    for &(k, left, right) in cases {
        assert_eq!(rt; chip.ends(k), Ok((left, right)), "{k}");
    }
}

#[test]
fn couplers_go_along_the_rows_and_then_down(rt: HostRuntime) -> Result<(), Fail> {
    let chip = GridChip::new(2, 2)?;
    assert_eq!(rt; chip.couplers(), 4);
    check_ends(&rt, &chip, &[(0, 0, 1), (1, 2, 3), (2, 0, 2), (3, 1, 3)]);
    let chip = GridChip::new(8, 8)?;
    check_ends(
        &rt,
        &chip,
        &[
            (0, 0, 1),
            (6, 6, 7),
            (7, 8, 9),
            (55, 62, 63),
            (56, 0, 8),
            (111, 55, 63),
        ],
    );
    Ok(())
}

#[test]
fn the_coupler_past_the_last_is_refused(rt: HostRuntime) -> Result<(), Fail> {
    for (rows, columns) in [(1, 1), (1, 64), (2, 2), (8, 8)] {
        let chip = GridChip::new(rows, columns)?;
        assert_eq!(rt;
            chip.ends(chip.couplers()),
            Err(ChipFault::NoSuchCoupler),
            "{rows}; {columns}"
        );
        assert_eq!(rt; chip.ends(usize::MAX), Err(ChipFault::NoSuchCoupler));
    }
    Ok(())
}

#[test]
fn neighbours_are_joined_in_either_order_and_no_others(rt: HostRuntime) -> Result<(), Fail> {
    let chip = GridChip::new(2, 2)?;
    for (a, b, k) in [
        (0, 1, 0),
        (1, 0, 0),
        (2, 3, 1),
        (0, 2, 2),
        (2, 0, 2),
        (3, 1, 3),
    ] {
        assert_eq!(rt; chip.joins(a, b), Some(k), "{a}; {b}");
    }
    for (a, b) in [
        (0, 3),
        (1, 2),
        (1, 1),
        (0, 4),
        (4, 0),
        (4, 4),
        (usize::MAX, 0),
    ] {
        assert_eq!(rt; chip.joins(a, b), None, "{a}; {b}");
    }
    Ok(())
}
