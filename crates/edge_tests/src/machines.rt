// Machines of both kinds on two places with one coupler, and the table's allowance.
use crate::rows::{SPENT, Trial, table, tape};
use chip::Chip;
use machine::Machine;
use machine::fault::MachineFault;
use std::process::Abort;
use std::test::Fail;

// What a gate may change on two places: the words and the allowance.
fn seen<M: Machine>(machine: &M) -> ([Result<u64, MachineFault>; 2], usize) {
    ([machine.word(0), machine.word(1)], machine.allowance())
}

impl<R: Abort, M: Machine> Trial<'_, R, M> {
    // Checks that a gate is refused, and why, and that no word and no allowance is changed.
    fn check_refused(&mut self, c: usize, t: usize, fault: MachineFault) {
        let kind = self.kind;
        let before = seen(self.machine);
        assert_eq!(self.rt; self.machine.cnot(c, t), Err(fault), "{c}; {t}; {kind}");
        assert_eq!(self.rt; seen(self.machine), before, "{kind}");
    }

    // A gate adds the control's word into the target's, and the same gate again takes it away.
    fn check_gates(&mut self) {
        let kind = self.kind;
        self.check_words(&[1, 2]);
        for (c, t, words) in [(0, 1, [1, 3]), (0, 1, [1, 2]), (1, 0, [3, 2])] {
            assert_eq!(self.rt; self.machine.cnot(c, t), Ok(()), "{kind}");
            self.check_words(&words);
        }
    }

    // Places past the last have no word and no gate; a place is not joined to itself.
    fn check_places(&mut self) {
        let kind = self.kind;
        let fault = MachineFault::PlaceOutOfRange;
        for q in [2, usize::MAX] {
            assert_eq!(self.rt; self.machine.word(q), Err(fault), "{kind}");
        }
        for (c, t) in [(2, 0), (0, 2), (2, 2), (usize::MAX, 0), (0, usize::MAX)] {
            self.check_refused(c, t, fault);
        }
        for c in [0, 1] {
            self.check_refused(c, c, MachineFault::NotCoupled);
        }
    }

    // Puts the coupler in service or takes it out.
    fn check_set(&mut self, serves: bool) {
        let kind = self.kind;
        assert_eq!(self.rt; self.machine.set(0, serves), Ok(()), "{kind}");
        assert_eq!(self.rt; self.machine.serves(0), Ok(serves), "{kind}");
    }

    // A coupler past the last is refused.
    fn check_no_coupler(&mut self, k: usize) {
        let kind = self.kind;
        let fault = MachineFault::NoSuchCoupler;
        assert_eq!(self.rt; self.machine.set(k, true), Err(fault), "{k}; {kind}");
        assert_eq!(self.rt; self.machine.serves(k), Err(fault), "{k}; {kind}");
    }

    // A coupler out of service joins nothing until it is put back; one past the last is refused.
    fn check_service(&mut self) {
        let kind = self.kind;
        assert_eq!(self.rt; self.machine.serves(0), Ok(true), "{kind}");
        self.check_set(false);
        self.check_refused(0, 1, MachineFault::NotCoupled);
        self.check_refused(1, 0, MachineFault::NotCoupled);
        assert_eq!(self.rt; self.machine.joins(0, 1), Some(0), "{kind}");
        for k in [1, 255, 256, usize::MAX] {
            self.check_no_coupler(k);
        }
        assert_eq!(self.rt; self.machine.serves(0), Ok(false), "{kind}");
        self.check_set(true);
        assert_eq!(self.rt; self.machine.cnot(0, 1), Ok(()), "{kind}");
        self.check_words(&[1, 3]);
    }

    // Checks that `left` gates fit and that the number `above` does not.
    fn check_fits(&self, left: usize, above: usize) {
        let kind = self.kind;
        assert_eq!(self.rt; self.machine.allowance(), left, "{kind}");
        assert_eq!(self.rt; self.machine.fits(0), Ok(()), "{kind}");
        assert_eq!(self.rt; self.machine.fits(left), Ok(()), "{kind}");
        let fault = MachineFault::AllowanceExceeded { asked: above, left };
        assert_eq!(self.rt; self.machine.fits(above), Err(fault), "{kind}");
    }
}

#[test]
fn a_gate_adds_a_word_and_twice_gives_it_back(rt: HostRuntime) -> Result<(), Fail> {
    Trial::new(&rt, "table", &mut table(2)?).check_gates();
    Trial::new(&rt, "tape", &mut tape(rt.alloc(), 2, 3)?).check_gates();
    Ok(())
}

#[test]
fn places_past_the_last_and_equal_places_are_refused(rt: HostRuntime) -> Result<(), Fail> {
    Trial::new(&rt, "table", &mut table(2)?).check_places();
    Trial::new(&rt, "tape", &mut tape(rt.alloc(), 2, 3)?).check_places();
    Ok(())
}

#[test]
fn a_coupler_out_of_service_joins_nothing(rt: HostRuntime) -> Result<(), Fail> {
    Trial::new(&rt, "table", &mut table(2)?).check_service();
    Trial::new(&rt, "tape", &mut tape(rt.alloc(), 2, 3)?).check_service();
    Ok(())
}

// With nothing left, places are checked first, then the coupler, then its service, then the allowance.
#[test]
fn checks_come_in_their_order(rt: HostRuntime) -> Result<(), Fail> {
    let mut machine = tape(rt.alloc(), 2, 0)?;
    machine.set(0, false)?;
    let mut trial = Trial::new(&rt, "tape", &mut machine);
    trial.check_refused(2, 2, MachineFault::PlaceOutOfRange);
    trial.check_refused(0, 2, MachineFault::PlaceOutOfRange);
    trial.check_refused(0, 0, MachineFault::NotCoupled);
    trial.check_refused(0, 1, MachineFault::NotCoupled);
    trial.machine.set(0, true)?;
    trial.check_refused(1, 1, MachineFault::NotCoupled);
    trial.check_refused(0, 1, SPENT);
    Ok(())
}

#[test]
fn as_many_gates_fit_as_are_left(rt: HostRuntime) -> Result<(), Fail> {
    let mut machine = table(2)?;
    let trial = Trial::new(&rt, "table", &mut machine);
    trial.check_fits(1_000_000, 1_000_001);
    trial.check_fits(1_000_000, usize::MAX);
    trial.machine.cnot(0, 1)?;
    trial.check_fits(999_999, 1_000_000);
    let mut machine = tape(rt.alloc(), 2, 1)?;
    let trial = Trial::new(&rt, "tape", &mut machine);
    trial.check_fits(1, 2);
    trial.machine.cnot(0, 1)?;
    trial.check_fits(0, 1);
    Ok(())
}

#[test]
fn a_table_takes_a_million_gates_and_no_more(rt: HostRuntime) -> Result<(), Fail> {
    let mut machine = table(2)?;
    for _ in 0..1_000_000 {
        machine.cnot(0, 1)?;
    }
    let mut trial = Trial::new(&rt, "table", &mut machine);
    trial.check_fits(0, 1);
    trial.check_refused(0, 1, SPENT);
    trial.check_words(&[1, 2]);
    Ok(())
}

#[test]
fn a_machine_hands_its_chip_back(rt: HostRuntime) -> Result<(), Fail> {
    let chip = table(2)?.into_chip();
    assert_eq!(rt; (chip.width(), chip.couplers()), (2, 1));
    let chip = tape(rt.alloc(), 2, 3)?.into_chip();
    assert_eq!(rt; (chip.width(), chip.couplers()), (2, 1));
    Ok(())
}
