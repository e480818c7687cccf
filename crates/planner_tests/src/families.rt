// Families of chips: random blocks on each.
use crate::chips::{line, ring, star};
use crate::trial::{Trial, check_blocks};
use chip::Chip;
use grid::GridChip;
use machine::Machine;
use map::MappedChip;
use random::Random;
use std::process::Abort;
use std::test::*;
use table::store::TableMachine;

// Random blocks on chips of one form, each given as its places and a seed.
fn check_family<F: Fn(u8) -> Result<TableMachine<MappedChip>, Fail>>(
    rt: &impl Abort,
    name: &str,
    machine_of: F,
    cases: &[(u8, u64)],
) -> Result<(), Fail>
    requires { F.IsAlwaysCallable machine_of }
{
    for &(places, seed) in cases {
        check_blocks(rt, name, &machine_of(places)?, seed, 200)?;
    }
    Ok(())
}

#[test]
fn lines(rt: HostRuntime) -> Result<(), Fail> {
    let cases = [(1, 11), (2, 12), (3, 13), (5, 14), (10, 15)];
    check_family(&rt, "line", |places| line(rt.alloc(), places), &cases)
}

#[test]
fn rings(rt: HostRuntime) -> Result<(), Fail> {
    let cases = [(3, 21), (4, 22), (5, 23), (8, 24), (12, 25)];
    check_family(&rt, "ring", |places| ring(rt.alloc(), places), &cases)
}

#[test]
fn stars(rt: HostRuntime) -> Result<(), Fail> {
    let cases = [(3, 31), (4, 32), (6, 33), (9, 34), (12, 35)];
    check_family(&rt, "star", |places| star(rt.alloc(), places), &cases)
}

#[test]
fn grids(rt: HostRuntime) -> Result<(), Fail> {
    let cases = [(1, 1, 41), (2, 2, 42), (2, 3, 43), (3, 3, 44), (4, 4, 45)];
    for (rows, columns, seed) in cases {
        let machine = TableMachine::new(GridChip::new(rows, columns)?);
        check_blocks(&rt, "grid", &machine, seed, 200)?;
    }
    Ok(())
}

// Takes some couplers out of service, and plans on what is left.
fn check_without<M: Machine>(
    rt: &impl Abort,
    name: &str,
    machine: &mut M,
    out: &[usize],
    seed: u64,
    blocks: usize,
) -> Result<(), Fail> {
    for k in out {
        machine.set(*k, false)?;
    }
    check_blocks(rt, name, machine, seed, blocks)
}

#[test]
fn islands_between_couplers_out_of_service(rt: HostRuntime) -> Result<(), Fail> {
    let heap = rt.alloc();
    check_without(&rt, "two single places", &mut line(heap, 2)?, &[0], 51, 100)?;
    check_without(&rt, "two lines", &mut ring(heap, 8)?, &[3, 7], 52, 250)?;
    check_without(&rt, "three lines", &mut ring(heap, 9)?, &[0, 3, 6], 53, 250)?;
    check_without(
        &rt,
        "a star and three places",
        &mut star(heap, 7)?,
        &[0, 1, 2],
        54,
        200,
    )?;
    // the couplers between the second row and the third
    let mut grid = TableMachine::new(GridChip::new(4, 4)?);
    check_without(&rt, "two ladders", &mut grid, &[16, 17, 18, 19], 55, 200)
}

// Puts each coupler in service with the chance of three in four.
fn shuffle_service<M: Machine>(machine: &mut M, random: &mut Random) -> Result<(), Fail> {
    for k in 0..machine.couplers() {
        machine.set(k, random.below(4) != Some(0))?;
    }
    Ok(())
}

#[test]
fn random_couplers_out_of_service(rt: HostRuntime) -> Result<(), Fail> {
    let mut machine = TableMachine::new(GridChip::new(3, 4)?);
    let mut random = Random::new(61);
    for number in 0..1000 {
        shuffle_service(&mut machine, &mut random)?;
        Trial::new(&rt, "grid", &machine, number).check_two_blocks(&mut random)?;
    }
    Ok(())
}

#[test]
fn the_largest_chips(rt: HostRuntime) -> Result<(), Fail> {
    let heap = rt.alloc();
    for (places, seed) in [(63, 71), (64, 72)] {
        check_blocks(&rt, "line", &line(heap, places)?, seed, 8)?;
        check_blocks(&rt, "ring", &ring(heap, places)?, seed, 8)?;
        check_blocks(&rt, "star", &star(heap, places)?, seed, 8)?;
        check_without(
            &rt,
            "two lines",
            &mut ring(heap, places)?,
            &[20, 62],
            seed,
            8,
        )?;
    }
    for (rows, columns, seed) in [(7, 9, 73), (8, 8, 74)] {
        let machine = TableMachine::new(GridChip::new(rows, columns)?);
        check_blocks(&rt, "grid", &machine, seed, 8)?;
    }
    Ok(())
}
