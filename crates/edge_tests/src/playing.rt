// Play: up to the first gate that is refused, on machines of both kinds.
use crate::rows::{SPENT, Trial, table, tape};
use machine::Machine;
use machine::fault::MachineFault;
use std::process::Abort;
use std::test::Fail;

impl<R: Abort, M: Machine> Trial<'_, R, M> {
    // On three places in a row: gates 0 to 1 and 1 to 2, then one from 0 to 2, which nothing joins.
    fn check_stop(&mut self) {
        let kind = self.kind;
        let before = self.machine.allowance();
        self.check_play(&[], Ok(()));
        self.check_words(&[1, 2, 4]);
        self.check_play(&[1, 66, 2, 129], Err(MachineFault::NotCoupled));
        self.check_words(&[1, 3, 7]);
        let left = Some(self.machine.allowance());
        assert_eq!(self.rt; left, before.checked_sub(2), "{kind}");
        self.check_play(&[129, 64], Ok(()));
        self.check_words(&[5, 4, 7]);
    }

    // On the largest chip: the last gate of all, the last entry with both ends on the chip, and entries past it.
    fn check_entries(&mut self) {
        let kind = self.kind;
        self.check_play(&[4094], Ok(()));
        self.check_play(&[4095], Err(MachineFault::NotCoupled));
        for e in [4096, 4097, u16::MAX] {
            self.check_play(&[e], Err(MachineFault::PlaceOutOfRange));
        }
        assert_eq!(self.rt; self.machine.word(62), Ok(3 << 62), "{kind}");
    }
}

#[test]
fn play_stops_at_the_first_refusal_and_keeps_what_was_done(rt: HostRuntime) -> Result<(), Fail> {
    Trial::new(&rt, "table", &mut table(3)?).check_stop();
    Trial::new(&rt, "tape", &mut tape(rt.alloc(), 3, 9)?).check_stop();
    Ok(())
}

#[test]
fn play_stops_where_the_tape_ends(rt: HostRuntime) -> Result<(), Fail> {
    let mut machine = tape(rt.alloc(), 3, 2)?;
    let mut trial = Trial::new(&rt, "tape", &mut machine);
    trial.check_play(&[1, 66, 1], Err(SPENT));
    trial.check_words(&[1, 3, 7]);
    assert_eq!(rt; machine.entries(), &[1, 66][..]);
    Ok(())
}

#[test]
fn a_coupler_out_of_service_stops_play(rt: HostRuntime) -> Result<(), Fail> {
    let mut machine = table(3)?;
    machine.set(1, false)?;
    let mut trial = Trial::new(&rt, "table", &mut machine);
    trial.check_play(&[1, 66, 64], Err(MachineFault::NotCoupled));
    trial.check_words(&[1, 3, 4]);
    Ok(())
}

#[test]
fn an_entry_of_4096_or_more_is_out_of_range(rt: HostRuntime) -> Result<(), Fail> {
    Trial::new(&rt, "table", &mut table(64)?).check_entries();
    Trial::new(&rt, "tape", &mut tape(rt.alloc(), 64, 9)?).check_entries();
    Ok(())
}
