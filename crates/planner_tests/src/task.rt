// Random blocks for a machine.
use machine::Machine;
use parity::fresh_words;
use planner::store::{Block, Places};
use random::Random;
use replaying::words::{add, exchange};
use std::test::*;

// The block that does nothing.
// Kept: a trait for what `Block` and `Places` are made by would be longer than this and the next.
pub(crate) fn empty_block(wires: usize) -> Result<Block, Fail> {
    Ok(Block::new(wires).ok_or("no block of that size")?)
}

// Each wire at the place of its own number.
pub(crate) fn own_places(wires: usize) -> Result<Places, Fail> {
    Ok(Places::new(wires).ok_or("no placement of that size")?)
}

// A block, and a plain copy of its words.
// Kept: the benchmark has one, too; shared, its calls would need contracts that are longer than their bodies.
#[derive(Drop)]
pub(crate) struct Task {
    pub(crate) block: Block,
    pub(crate) words: [u64; 64],
}

impl Task {
    fn new(wires: usize) -> Result<Task, Fail> {
        Ok(Task {
            block: empty_block(wires)?,
            words: fresh_words(),
        })
    }

    fn cx(&mut self, a: usize, b: usize) -> Result<(), Fail> {
        self.block.cx(a, b)?;
        Ok(add(&mut self.words, a, b).ok_or("no such wire")?)
    }

    fn swap(&mut self, a: usize, b: usize) -> Result<(), Fail> {
        self.block.swap(a, b)?;
        Ok(exchange(&mut self.words, a, b).ok_or("no such wire")?)
    }
}

// Which calls a random block is made of.
#[derive(Clone, Copy, PartialEq, Eq)]
enum Kind {
    Swaps,
    Both,
    // CX between wires whose numbers are those of joined places, so that islands are mostly kept apart
    Near,
}

// A random block for the machine.
pub(crate) fn random_task<M: Machine>(machine: &M, random: &mut Random) -> Result<Task, Fail> {
    let n = machine.width();
    let mut task = Task::new(n)?;
    let kind = match random.below(4) {
        Some(0) => Kind::Swaps,
        Some(1) => Kind::Near,
        _ => Kind::Both,
    };
    for _ in 0..random.below(n * 4).ok_or("no wires")? {
        call(machine, random, kind, &mut task)?;
    }
    Ok(task)
}

// One random call.
// Kept: the machine and the random numbers are of two owners, and three short functions are given both.
fn call<M: Machine>(
    machine: &M,
    random: &mut Random,
    kind: Kind,
    task: &mut Task,
) -> Result<(), Fail> {
    let ends = match kind {
        Kind::Near => near_pair(machine, random)?,
        Kind::Swaps | Kind::Both => random.pair(machine.width()),
    };
    let Some((a, b)) = ends else {
        return Ok(());
    };
    match kind {
        Kind::Swaps => task.swap(a, b),
        Kind::Both if random.below(4) == Some(0) => task.swap(a, b),
        Kind::Both | Kind::Near => task.cx(a, b),
    }
}

// The ends of a random coupler, in either order, if it is in service.
fn near_pair<M: Machine>(machine: &M, random: &mut Random) -> Result<Option<(usize, usize)>, Fail> {
    let couplers = machine.couplers();
    if couplers == 0 {
        return Ok(None);
    }
    let turned = random.below(2) == Some(1);
    let k = random.below(couplers).ok_or("no couplers")?;
    let (left, right) = machine.ends(k)?;
    let ends = if turned { (right, left) } else { (left, right) };
    Ok(machine.serves(k)?.then_some(ends))
}
