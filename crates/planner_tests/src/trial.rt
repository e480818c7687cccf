// Trials: a random block, its plan, and all that the plan should be.
use crate::task::{own_places, random_task};
use chip::Chip;
use machine::Machine;
use planner::fault::PlanFault;
use planner::plan::{Planned, plan};
use planner::store::{Adjacency, Block, Places};
use random::Random;
use replaying::gates::replayed;
use replaying::islands::{all_on_one_island, islands, places_of};
use replaying::words::{all_single, most_gates};
use std::fmt;
use std::process::Abort;
use std::test::*;

// The most gates that a plan for 64 places may have, and two more.
pub(crate) const BUFFER: usize = 8066;

pub(crate) const UNTOUCHED: u16 = u16::MAX;

// What is tried, said where a check fails: the chip, its places, and the number of the block.
#[derive(Clone, Copy)]
pub(crate) struct Case<'a> {
    chip: &'a str,
    places: usize,
    number: usize,
}

impl fmt::Display for Case<'_> {
    fn fmt<W: fmt::Write>(&self, f: &mut fmt::Formatter<W>) -> fmt::Result {
        let (chip, places, number) = (self.chip, self.places, self.number);
        write!(f, "{chip}, {places} places, number {number}")
    }
}

// The one place that calls the planner.
pub(crate) fn plan_for<M: Machine>(
    machine: &M,
    block: &Block,
    places: &Places,
    out: &mut [u16],
) -> Result<Planned, PlanFault> {
    plan(&Adjacency::of(machine), block, places, out)
}

// Plans random blocks, each followed by one that starts where the first has left the wires.
pub(crate) fn check_blocks<M: Machine>(
    rt: &impl Abort,
    chip: &str,
    machine: &M,
    seed: u64,
    blocks: usize,
) -> Result<(), Fail> {
    let mut random = Random::new(seed);
    for number in 0..blocks {
        Trial::new(rt, chip, machine, number).check_two_blocks(&mut random)?;
    }
    Ok(())
}

// A case on a machine.
#[derive(Drop)]
pub(crate) struct Trial<'a, R, M> {
    rt: &'a R,
    machine: &'a M,
    pub(crate) case: Case<'a>,
}

impl<'a, R: Abort, M: Machine> Trial<'a, R, M> {
    pub(crate) fn new(rt: &'a R, chip: &'a str, machine: &'a M, number: usize) -> Trial<'a, R, M> {
        let places = machine.width();
        Trial {
            rt,
            machine,
            case: Case {
                chip,
                places,
                number,
            },
        }
    }

    // One block, and then, where it could be planned, another.
    pub(crate) fn check_two_blocks(&self, random: &mut Random) -> Result<(), Fail> {
        let start = own_places(self.machine.width())?;
        if let Some(places) = self.check_block(random, &start)? {
            let _ = self.check_block(random, &places)?;
        }
        Ok(())
    }

    // Plans a random block from a placement, and checks the plan or the refusal. Returns the new placement.
    fn check_block(&self, random: &mut Random, places: &Places) -> Result<Option<Places>, Fail> {
        let case = self.case;
        let task = random_task(self.machine, random)?;
        let words = task.block.words();
        let copied = task.words.get(..self.machine.width()).ok_or("too wide")?;
        assert_eq!(self.rt; words, copied, "{case}");
        let reachable = self.is_reachable(words, places.places())?;
        let mut out = [UNTOUCHED; BUFFER];
        match plan_for(self.machine, &task.block, places, &mut out) {
            Ok(planned) => {
                assert!(self.rt; reachable, "{case}: two islands");
                self.check_plan(words, places, &planned, &out)?;
                Ok(Some(planned.places))
            }
            Err(fault) => {
                assert!(self.rt; !reachable, "{case}: one island");
                assert!(self.rt; fault == PlanFault::Unreachable, "{case}");
                self.check_untouched(&out);
                Ok(None)
            }
        }
    }

    // Whether each word has its places on one island.
    fn is_reachable(&self, words: &[u64], at: &[usize]) -> Result<bool, Fail> {
        let mut service = [false; 256];
        let couplers = self.machine.couplers();
        for (k, serves) in service.iter_mut().enumerate().take(couplers) {
            *serves = self.machine.serves(k)?;
        }
        let islands = islands(self.machine, &service);
        Ok(all_on_one_island(words, at, &islands).ok_or("no such wire")?)
    }

    // Checks a plan: its length, its gates, its placement, and that nothing else is written.
    fn check_plan(
        &self,
        words: &[u64],
        old: &Places,
        planned: &Planned,
        out: &[u16],
    ) -> Result<(), Fail> {
        let (case, count) = (self.case, planned.gates);
        let most = most_gates(self.machine.width()).ok_or("too wide")?;
        assert!(self.rt; count <= most, "{case}: {count}");
        assert_eq!(self.rt; count == 0, all_single(words), "{case}");
        let gates = out.get(..count).ok_or("too many gates")?;
        self.check_gates(gates, words, old.places(), planned.places.places())?;
        self.check_untouched(out.get(count..).ok_or("too many gates")?);
        Ok(())
    }

    // Checks that the gates are on couplers in service and leave the word of each wire at its new place, and no two wires at one
    // place.
    fn check_gates(
        &self,
        gates: &[u16],
        words: &[u64],
        old: &[usize],
        new: &[usize],
    ) -> Result<(), Fail> {
        let (case, n) = (self.case, self.machine.width());
        let replay = replayed(self.machine, gates);
        assert_eq!(self.rt; replay.err(), None, "{case}");
        let left = replay?;
        assert_eq!(self.rt; new.len(), n, "{case}");
        assert_eq!(self.rt; words.len(), n, "{case}");
        let mut taken: u64 = 0;
        for (word, place) in words.iter().zip(new) {
            let p = *place;
            assert!(self.rt; p < 64 && p < n, "{case}: {p}");
            assert!(self.rt; (taken >> p) & 1 == 0, "{case}: {p}");
            taken |= 1 << p;
            let wanted = places_of(*word, old).ok_or("no such wire")?;
            assert_eq!(self.rt; left[p], wanted, "{case}: {p}");
        }
        Ok(())
    }

    // Checks that nothing was written to these entries.
    pub(crate) fn check_untouched(&self, entries: &[u16]) {
        let case = self.case;
        assert!(self.rt; entries.iter().all(|entry| *entry == UNTOUCHED), "{case}");
    }
}
