// Random runs with outages one inside another, each call checked against the sheet.
ghost use Rattle.session.specs.Views.{state};
ghost use Rattle.session_tests.specs.Passes.{Ends, Keeps, KeepsOthers};

use crate::passes::{give, write};
use crate::sheet::{Coupler, Progress, Sheet};
use chip::Chip;
use machine::Machine;
use random::Random;
use session::pass::Pass;
use session::store::Session;
use session_fault::SessionFault;
use std::alloc::{AllocError, Global};
use std::process::Abort;
use std::test::*;

// The most gates that a plan for 12 places may have.
const BUFFER: usize = 264;

// Calls between two outages.
const CALLS: usize = 12;

// The two ways in which an outage ends.
#[derive(Clone, Copy)]
enum Ending {
    GiveBack,
    WriteOff,
}

impl From<Ending> for Coupler {
    fn from(ending: Ending) -> Coupler {
        match ending {
            Ending::GiveBack => Coupler::In,
            Ending::WriteOff => Coupler::WrittenOff,
        }
    }
}

#[derive(Clone, Copy)]
enum Call {
    Cx { a: usize, b: usize },
    Swap { a: usize, b: usize },
    Flush,
}

// A run beside the session and the machine, which the calls are given.
#[derive(Drop)]
pub(crate) struct Run<'a, R> {
    rt: &'a R,
    sheet: Sheet,
    random: Random,
    buffer: [u16; BUFFER],
    pub(crate) progress: Progress,
    pub(crate) obeyed: usize,
    pub(crate) unreachable: usize,
    // a sum over all answers, which tells one list of them from another
    pub(crate) trace: u64,
}

impl<'a, R: Abort> Run<'a, R> {
    pub(crate) fn new(
        rt: &'a R,
        heap: Global,
        seed: u64,
        couplers: usize,
    ) -> Result<Run<'a, R>, AllocError> {
        Ok(Run {
            rt,
            sheet: Sheet::new(heap, couplers)?,
            random: Random::new(seed),
            buffer: [0; BUFFER],
            progress: Progress {
                seed,
                couplers,
                part: 0,
                call: 0,
            },
            obeyed: 0,
            unreachable: 0,
            trace: 0,
        })
    }

    // Random calls, then a random outage with the same inside it, down to a depth, and then its end.
    // Kept: the clauses speak of the session and of the machine, of which the callers have one `&mut` each, and go on with both.
    pub(crate) fn nest<M: Machine>(
        &mut self,
        session: &mut Session,
        machine: &mut M,
        depth: usize,
    ) -> Result<(), Fail>
        ensures { Keeps (state session.old (M.Chip.layout machine.old) (M.Machine.meaning machine.old)) (state session.new (M.Chip.layout machine.new) (M.Machine.meaning machine.new)) }
    {
        self.steps(session, machine)?;
        if depth == 0 {
            return Ok(());
        }
        // one coupler more than there are
        let k = self
            .random
            .below(session.couplers().saturating_add(1))
            .ok_or("too many couplers")?;
        let (progress, expected) = (self.progress, self.sheet.take_answer(k));
        match session.take_out(machine, k) {
            Ok(pass) => {
                self.sheet.record(k, Coupler::Out);
                let inside = self.nest(session, machine, depth - 1);
                let ending = self.random_ending();
                finish(session, machine, pass, ending);
                self.sheet.record(k, ending.into());
                inside?;
                assert_eq!(self.rt; expected, Ok(()), "{progress}: {k}");
            }
            Err(fault) => {
                assert_eq!(self.rt; expected, Err(fault), "{progress}: {k}");
            }
        }
        Ok(())
    }

    fn random_ending(&mut self) -> Ending {
        match self.random.below(8) {
            Some(0) => Ending::WriteOff,
            _ => Ending::GiveBack,
        }
    }

    // Some random calls.
    fn steps<M: Machine>(&mut self, session: &mut Session, machine: &mut M) -> Result<(), Fail>
        ensures { Keeps (state session.old (M.Chip.layout machine.old) (M.Machine.meaning machine.old)) (state session.new (M.Chip.layout machine.new) (M.Machine.meaning machine.new)) }
    {
        for number in 0..CALLS {
            self.progress.call = number;
            self.step(session, machine)?;
        }
        Ok(())
    }

    // One random call.
    fn step<M: Machine>(&mut self, session: &mut Session, machine: &mut M) -> Result<(), Fail>
        ensures { Keeps (state session.old (M.Chip.layout machine.old) (M.Machine.meaning machine.old)) (state session.new (M.Chip.layout machine.new) (M.Machine.meaning machine.new)) }
    {
        let call = self.random_call(session, machine);
        let reachable = self.sheet.reachable(session, machine)?;
        let answer = make(session, machine, &mut self.buffer, call);
        self.note_places(session);
        self.check_answer(call, answer, reachable)?;
        self.sheet.check(self.rt, self.progress, session, machine);
        Ok(())
    }

    // A random call: mostly a CX, of wires on one island where that is easily had.
    fn random_call<M: Machine>(&mut self, session: &Session, machine: &M) -> Call {
        let n = session.wires();
        let islands = self.sheet.islands(machine);
        let mut pair = self.random.pair(n);
        for _ in 0..4 {
            if !on_one(session, &islands, pair) {
                pair = self.random.pair(n);
            }
        }
        match (pair, self.random.below(6)) {
            (Some((a, b)), Some(0..=2)) => Call::Cx { a, b },
            (Some((a, b)), Some(3)) => Call::Swap { a, b },
            _ => Call::Flush,
        }
    }

    // Checks an answer against the sheet, and feeds the call to the sheet. `reachable` is the sheet's word before the call.
    fn check_answer(
        &mut self,
        call: Call,
        answer: Result<usize, SessionFault>,
        reachable: bool,
    ) -> Result<(), Fail> {
        let progress = self.progress;
        match call {
            Call::Cx { a, b } => {
                assert_eq!(self.rt; answer, Ok(0), "{progress}");
                self.sheet.cx(a, b)
            }
            Call::Swap { a, b } => {
                assert_eq!(self.rt; answer, Ok(0), "{progress}");
                self.sheet.swap(a, b)
            }
            Call::Flush => {
                self.check_flush(answer, reachable);
                Ok(())
            }
        }
    }

    // A flush is obeyed or unreachable, as the sheet says.
    fn check_flush(&mut self, answer: Result<usize, SessionFault>, reachable: bool) {
        let progress = self.progress;
        match answer {
            Ok(gates) => {
                assert!(self.rt; reachable, "{progress}: two islands");
                assert_eq!(self.rt; gates == 0, self.sheet.renames(), "{progress}");
                self.sheet.flushed();
                self.obeyed = self.obeyed.saturating_add(1);
                self.note(gates as u64);
            }
            Err(fault) => {
                assert!(self.rt; !reachable, "{progress}: one island");
                self.unreachable = self.unreachable.saturating_add(1);
                self.note(1000);
                assert_eq!(self.rt; fault, SessionFault::Unreachable, "{progress}");
            }
        }
    }

    fn note_places(&mut self, session: &Session) {
        for w in 0..session.wires() {
            if let Ok(place) = session.place(w) {
                self.note(place as u64);
            }
        }
    }

    // The sum goes round as a hash does, and tells the same runs alike.
    fn note(&mut self, answer: u64) {
        self.trace = self.trace.wrapping_mul(31).wrapping_add(answer);
    }
}

// Whether the places of the two wires hang together.
fn on_one(session: &Session, islands: &[usize; 64], pair: Option<(usize, usize)>) -> bool {
    pair.is_none_or(|(a, b)| match (session.place(a), session.place(b)) {
        (Ok(p), Ok(q)) => islands
            .get(p)
            .is_some_and(|name| islands.get(q) == Some(name)),
        _ => false,
    })
}

// Makes a call; the answer of a CX or a swap that is obeyed is 0.
fn make<M: Machine>(
    session: &mut Session,
    machine: &mut M,
    buffer: &mut [u16],
    call: Call,
) -> Result<usize, SessionFault>
    ensures { Keeps (state session.old (M.Chip.layout machine.old) (M.Machine.meaning machine.old)) (state session.new (M.Chip.layout machine.new) (M.Machine.meaning machine.new)) }
{
    match call {
        Call::Cx { a, b } => session.cx(a, b).map(|()| 0),
        Call::Swap { a, b } => session.swap(a, b).map(|()| 0),
        Call::Flush => session.flush(machine, buffer),
    }
}

// Ends a pass in one of the two ways.
fn finish<M: Machine>(session: &mut Session, machine: &mut M, pass: Pass, ending: Ending)
    requires { Ends (state session.old (M.Chip.layout machine.old) (M.Machine.meaning machine.old)) pass }
    ensures { KeepsOthers (state session.old (M.Chip.layout machine.old) (M.Machine.meaning machine.old)) pass.coupler (state session.new (M.Chip.layout machine.new) (M.Machine.meaning machine.new)) }
{
    match ending {
        Ending::GiveBack => give(session, machine, pass),
        Ending::WriteOff => write(session, machine, pass),
    }
}
