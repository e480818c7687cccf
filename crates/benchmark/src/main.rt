// How many gates the planner takes for random blocks on some chips: a line for each chip and size of block.
// Without an argument ten blocks a line, and nothing that differs from run to run; with a number, that many blocks
// a line, and also how many plans were made a second, and a bar.
#![tactic(auto)]

use cell::{plan_all, total_count};
use chip::Chip;
use drafts::{two_rings, with_diagonals};
use grid::GridChip;
use machine::Machine;
use planner::store::Adjacency;
use report::{Line, per_second};
use std::num::NonZeroU64;
use std::time::Instant;
use std::{env, io};
use table::store::TableMachine;
use task::all_tasks;

mod cell;
mod drafts;
mod report;
mod task;

// Which table is printed.
#[derive(Clone, Copy)]
enum Run {
    // ten blocks a line
    Plain,
    // the planner is timed, too
    Timed { blocks: NonZeroU64 },
}

impl Run {
    // How many blocks a line is the average of.
    fn blocks(self) -> NonZeroU64 {
        match self {
            Run::Plain => NonZeroU64::new(10).unwrap(),
            Run::Timed { blocks } => blocks,
        }
    }
}

// What prints a table.
#[derive(Clone, Copy)]
struct Printer<'a> {
    rt: &'a HostRuntime,
    run: Run,
}

impl<'a> Printer<'a> {
    fn new(rt: &'a HostRuntime, run: Run) -> Printer<'a> {
        Printer { rt, run }
    }

    fn print_table(&self) -> io::Result<()> {
        let (heap, blocks) = (self.rt.alloc(), self.run.blocks());
        let sizes = [16, 64, 256];
        println!(self.rt; "averages over blocks of m CNOTs, made from the seeds 1 to {blocks}")?;
        self.print_lines("3 x 3 grid", GridChip::new(3, 3).ok(), &[10, 30])?;
        self.print_lines("4 x 4 grid", GridChip::new(4, 4).ok(), &sizes)?;
        self.print_lines("two rings of eight", two_rings(heap), &sizes)?;
        self.print_lines("2 x 8 ladder", GridChip::new(2, 8).ok(), &sizes)?;
        self.print_lines("twenty places with diagonals", with_diagonals(heap), &sizes)?;
        self.print_lines("8 x 8 grid", GridChip::new(8, 8).ok(), &[32, 64])
    }

    // The lines of one chip.
    fn print_lines<C: Chip + Drop>(
        &self,
        name: &str,
        chip: Option<C>,
        sizes: &[usize],
    ) -> io::Result<()> {
        let Some(chip) = chip else {
            return println!(self.rt; "{name}: no chip");
        };
        let machine = TableMachine::new(chip);
        for calls in sizes {
            self.print_line(name, &machine, *calls)?;
        }
        Ok(())
    }

    fn print_line<M: Machine>(&self, name: &str, machine: &M, calls: usize) -> io::Result<()> {
        let blocks = self.run.blocks();
        let Some(gates) = total_count(machine, calls, blocks.get()) else {
            return println!(self.rt; "{name}, m = {calls}: MISMATCH");
        };
        let line = Line {
            name,
            places: machine.width(),
            calls,
            blocks,
            gates,
        };
        println!(self.rt; "{line}")?;
        match self.run {
            Run::Plain => Ok(()),
            Run::Timed { .. } => self.print_rate(machine, line),
        }
    }

    // Plans the blocks of a line again by the clock.
    fn print_rate<M: Machine>(&self, machine: &M, line: Line<'_>) -> io::Result<()> {
        let rt = self.rt;
        let adjacency = Adjacency::of(machine);
        let tasks = all_tasks(rt.alloc(), line.places, line.calls, line.blocks.get());
        let start = Instant::now(rt)?;
        let planned = plan_all(&adjacency, tasks.as_slice());
        let rate = per_second(planned, start.elapsed(rt)?.as_nanos()).unwrap_or(0);
        let bar = line.bar();
        println!(rt; "    {rate} plans per second {bar}")
    }
}

fn main(rt: HostRuntime) -> io::Result<()> {
    let Some(text) = env::args(&rt)?.nth(1) else {
        return Printer::new(&rt, Run::Plain).print_table();
    };
    match text.as_str().parse() {
        Ok(blocks) => Printer::new(&rt, Run::Timed { blocks }).print_table(),
        Err(_) => println!(rt; "expected: how many blocks, 1 or more"),
    }
}
