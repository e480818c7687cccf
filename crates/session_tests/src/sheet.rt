// What a session and its machine should be, kept in plain arrays beside them and fed the calls alone.
use chip::Chip;
use machine::Machine;
use machine::fault::MachineFault;
use parity::fresh_words;
use replaying::islands::{all_on_one_island, islands};
use replaying::words::{add, all_single, exchange};
use session::store::Session;
use session_fault::SessionFault;
use std::alloc::{AllocError, Global};
use std::process::Abort;
use std::test::*;
use std::{array, fmt};

// How far a random run is, said where a check fails.
#[derive(Clone, Copy)]
pub(crate) struct Progress {
    pub(crate) seed: u64,
    // how many couplers the chip has
    pub(crate) couplers: usize,
    // how many times all outages were over
    pub(crate) part: usize,
    // the last call, of those between two outages
    pub(crate) call: usize,
}

impl fmt::Display for Progress {
    fn fmt<W: fmt::Write>(&self, f: &mut fmt::Formatter<W>) -> fmt::Result {
        let (seed, couplers, part, call) = (self.seed, self.couplers, self.part, self.call);
        write!(
            f,
            "{couplers} couplers, seed {seed}, part {part}, call {call}"
        )
    }
}

// The record of a coupler.
#[derive(Clone, Copy, PartialEq, Eq)]
pub(crate) enum Coupler {
    In,
    Out,
    WrittenOff,
}

#[derive(Drop)]
pub(crate) struct Sheet {
    // what each wire should carry after the calls obeyed so far, by inputs
    wanted: [u64; 64],
    // what each wire carries since the last flush obeyed, by inputs
    carried: [u64; 64],
    // the block's words, by wires
    block: [u64; 64],
    couplers: Vec<Coupler>,
}

impl Sheet {
    pub(crate) fn new(heap: Global, couplers: usize) -> Result<Sheet, AllocError> {
        Ok(Sheet {
            wanted: fresh_words(),
            carried: fresh_words(),
            block: fresh_words(),
            couplers: vec![in heap; Coupler::In; couplers]?,
        })
    }

    pub(crate) fn cx(&mut self, a: usize, b: usize) -> Result<(), Fail> {
        add(&mut self.wanted, a, b).ok_or("no such wire")?;
        Ok(add(&mut self.block, a, b).ok_or("no such wire")?)
    }

    pub(crate) fn swap(&mut self, a: usize, b: usize) -> Result<(), Fail> {
        exchange(&mut self.wanted, a, b).ok_or("no such wire")?;
        Ok(exchange(&mut self.block, a, b).ok_or("no such wire")?)
    }

    pub(crate) fn flushed(&mut self) {
        self.carried = self.wanted;
        self.block = fresh_words();
    }

    // What a take-out of coupler k should be answered.
    pub(crate) fn take_answer(&self, k: usize) -> Result<(), SessionFault> {
        match self.couplers.get(k) {
            Some(Coupler::In) => Ok(()),
            Some(Coupler::Out | Coupler::WrittenOff) => Err(SessionFault::CouplerNotIn),
            None => Err(SessionFault::Machine(MachineFault::NoSuchCoupler)),
        }
    }

    // A coupler was taken out, given back or written off.
    pub(crate) fn record(&mut self, k: usize, coupler: Coupler) {
        if let Some(at) = self.couplers.get_mut(k) {
            *at = coupler;
        }
    }

    fn serves(&self, k: usize) -> bool {
        self.couplers.get(k) == Some(&Coupler::In)
    }

    // Whether the block only renames wires.
    pub(crate) fn renames(&self) -> bool {
        all_single(&self.block)
    }

    // The names of the islands over the couplers in service.
    pub(crate) fn islands<M: Machine>(&self, machine: &M) -> [usize; 64] {
        let service: [bool; 256] = array::from_fn(|k| self.serves(k));
        islands(machine, &service)
    }

    // Whether each word of the block has the places of its wires on one island.
    pub(crate) fn reachable<M: Machine>(
        &self,
        session: &Session,
        machine: &M,
    ) -> Result<bool, Fail> {
        let (wires, islands) = (session.wires(), self.islands(machine));
        let mut places = [0; 64];
        for (w, place) in places.iter_mut().enumerate().take(wires) {
            *place = session.place(w)?;
        }
        let words = self.block.get(..wires).ok_or("too many wires")?;
        let at = places.get(..wires).ok_or("too many wires")?;
        Ok(all_on_one_island(words, at, &islands).ok_or("no such wire")?)
    }

    // Checks that each wire's place carries what the sheet says, and that the couplers serve as the sheet says.
    pub(crate) fn check<M: Machine>(
        &self,
        rt: &impl Abort,
        progress: Progress,
        session: &Session,
        machine: &M,
    ) {
        for (w, carried) in self.carried.iter().enumerate() {
            if let Ok(place) = session.place(w) {
                assert_eq!(rt; machine.word(place), Ok(*carried), "{progress}: {w}");
            }
        }
        let service = (0..machine.couplers()).find(|&k| machine.serves(k) != Ok(self.serves(k)));
        assert_eq!(rt; service, None, "{progress}");
    }
}
