// One line of the table: random blocks of one size on one machine, each planned and replayed.
use crate::task::{Task, random_task};
use chip::Chip;
use machine::Machine;
use planner::plan::plan;
use planner::store::{Adjacency, Places};
use replaying::gates::replayed;

// The most gates that a plan for 64 places may have.
const BUFFER: usize = 8064;

// How many gates plan the block, if the plan does what the block does.
fn checked_count<M: Machine>(machine: &M, adjacency: &Adjacency, task: &Task) -> Option<usize> {
    let mut out = [0; BUFFER];
    let start = Places::new(machine.width())?;
    let planned = plan(adjacency, task.block(), &start, &mut out).ok()?;
    let gates = out.get(..planned.gates)?;
    is_right(machine, gates, task, planned.places.places()).then_some(planned.gates)
}

// Whether the gates are on couplers in service and, from a start with wire w at place w, leave the word
// of each wire at its place. No two words are equal, so then no two places are.
fn is_right<M: Machine>(machine: &M, gates: &[u16], task: &Task, places: &[usize]) -> bool {
    replayed(machine, gates).is_ok_and(|left| places.len() == machine.width()
        && task.is_done_by(&left, places))
}

// How many gates plan the blocks of the seeds 1 to `blocks`, if each plan does what its block does.
pub(crate) fn total_count<M: Machine>(machine: &M, calls: usize, blocks: u64) -> Option<u64> {
    let adjacency = Adjacency::of(machine);
    let mut total: u64 = 0;
    for seed in 1..=blocks {
        let task = random_task(machine.width(), calls, seed)?;
        let count = checked_count(machine, &adjacency, &task)?;
        total = total.checked_add(count as u64)?;
    }
    Some(total)
}

// Plans a block and does nothing else, for the clock. Whether there was a plan.
fn is_planned(adjacency: &Adjacency, task: &Task, out: &mut [u16; BUFFER]) -> bool {
    Places::new(adjacency.places()).is_some_and(|start| plan(
        adjacency,
        task.block(),
        &start,
        out,
    ).is_ok())
}

// Plans some blocks. Returns how many had a plan.
pub(crate) fn plan_all(adjacency: &Adjacency, tasks: &[Task]) -> u64 {
    let mut out = [0; BUFFER];
    tasks
        .iter()
        .filter(|task| is_planned(adjacency, task, &mut out))
        .count() as u64
}
