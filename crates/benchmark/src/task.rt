// What is planned: random blocks, each beside a plain copy of its words.
use parity::fresh_words;
use planner::store::Block;
use random::Random;
use replaying::words::add;
use std::alloc::Global;

// A block of CX calls between random wires, and a plain copy of its words.
// Kept: the planner's tests have one, too; shared, its calls would need contracts that are longer than their bodies.
#[derive(Drop)]
pub(crate) struct Task {
    block: Block,
    words: [u64; 64],
}

impl Task {
    pub(crate) fn block(&self) -> &Block {
        &self.block
    }

    // Whether the word of each wire is what is left at its place.
    pub(crate) fn is_done_by(&self, left: &[u64; 64], places: &[usize]) -> bool {
        places
            .iter()
            .zip(self.words.iter())
            .all(|(place, word)| left.get(*place) == Some(word))
    }
}

// The block of a seed, if there are blocks of that many wires.
pub(crate) fn random_task(wires: usize, calls: usize, seed: u64) -> Option<Task> {
    let mut random = Random::new(seed);
    let mut block = Block::new(wires)?;
    let mut words = fresh_words();
    for _ in 0..calls {
        let (a, b) = random.pair(wires)?;
        block.cx(a, b).ok()?;
        add(&mut words, a, b)?;
    }
    Some(Task { block, words })
}

// The blocks of the seeds 1 to `blocks`, as far as there is memory for them.
// Kept: a `collect` would let all of them go where memory ends, and the blocks that there are would not be timed.
pub(crate) fn all_tasks(heap: Global, wires: usize, calls: usize, blocks: u64) -> Vec<Task> {
    let mut tasks = Vec::new(heap);
    for task in (1..=blocks).filter_map(|seed| random_task(wires, calls, seed)) {
        let _ = tasks.push(task);
    }
    tasks
}
