// Couplers taken out on passes, given back, and written off.
ghost use Rattle.std.specs.Prelude.{◌≡◌, ◌<◌, true, length, is_ok, vec_len, slice_index_or};
ghost use Rattle.chip.specs.Answers.{answered};
ghost use Rattle.session.specs.declared.records.CouplerRecord.TheVariants.{WrittenOff};
ghost use Rattle.session.specs.Outages.{TakeOut, GiveBack, WriteOff, end_fault, size_fault, is_out};
ghost use Rattle.session.specs.Views.{state};

use crate::pass::Pass;
use crate::records::CouplerRecord;
use crate::store::Session;
use chip::Chip;
use machine::Machine;
use session_fault::SessionFault;

impl Session {
    // Whether the machine is of the session's size.
    pub(crate) fn check_size<M: Machine>(&self, machine: &M) -> Result<(), SessionFault>
        ensures { result ≡ answered (size_fault (state self.now (M.Chip.layout machine.now) (M.Machine.meaning machine.now))) tt }
    {
        if machine.width() != self.wires() || machine.couplers() != self.couplers() {
            return Err(SessionFault::SizeMismatch);
        }
        Ok(())
    }

    // Takes coupler k out of service, and hands out the pass for it.
    pub fn take_out<M: Machine>(&mut self, machine: &mut M, k: usize) -> Result<Pass, SessionFault>
        ensures { TakeOut (state self.old (M.Chip.layout machine.old) (M.Machine.meaning machine.old)) k result (state self.new (M.Chip.layout machine.new) (M.Machine.meaning machine.new)) }
    {
        self.check_size(machine)?;
        let _ = machine.serves(k)?;
        let CouplerRecord::In = self.records.items[k] else {
            return Err(SessionFault::CouplerNotIn);
        };
        machine.set(k, false)?;
        *self.records.record_mut(k) = CouplerRecord::Out;
        Ok(Pass {
            session: self.number,
            coupler: k,
        })
    }

    // Whether coupler k is out on a pass.
    fn is_out(&self, k: usize) -> bool
        ensures within { result ≡ true → k < vec_len self.now.records.items }
        ensures answer { result ≡ is_out (slice_index_or self.now.records.items.items k WrittenOff) }
    {
        self.records.items.get(k) == Some(&CouplerRecord::Out)
    }

    // Whether the pass can be ended here.
    fn check_pass<M: Machine>(&self, machine: &M, pass: &Pass) -> Result<(), SessionFault>
        ensures within { (is_ok result ≡ true → pass.now.coupler < vec_len self.now.records.items) × (is_ok result ≡ true → pass.now.coupler < length (M.Chip.layout machine.now).couplers) }
        ensures answer { result ≡ answered (end_fault (state self.now (M.Chip.layout machine.now) (M.Machine.meaning machine.now)) pass.now) tt }
    {
        self.check_size(machine)?;
        if pass.session != self.number {
            return Err(SessionFault::OtherSession);
        }
        if self.is_out(pass.coupler) {
            Ok(())
        } else {
            Err(SessionFault::CouplerNotOut)
        }
    }

    // Puts the pass's coupler in service again. A pass turned down goes back to its bearer.
    pub fn give_back<M: Machine>(
        &mut self,
        machine: &mut M,
        pass: Pass,
    ) -> Result<(), (SessionFault, Pass)>
        ensures { GiveBack (state self.old (M.Chip.layout machine.old) (M.Machine.meaning machine.old)) pass result (state self.new (M.Chip.layout machine.new) (M.Machine.meaning machine.new)) }
    {
        if let Err(fault) = self.check_pass(machine, &pass) {
            return Err((fault, pass));
        }
        if let Err(fault) = machine.set(pass.coupler, true) {
            return Err((SessionFault::from(fault), pass));
        }
        *self.records.record_mut(pass.spend()) = CouplerRecord::In;
        Ok(())
    }

    // Leaves the pass's coupler out for good. A pass turned down goes back to its bearer.
    pub fn write_off<M: Machine>(
        &mut self,
        machine: &M,
        pass: Pass,
    ) -> Result<(), (SessionFault, Pass)>
        ensures { WriteOff (state self.old (M.Chip.layout machine.now) (M.Machine.meaning machine.now)) pass result (state self.new (M.Chip.layout machine.now) (M.Machine.meaning machine.now)) }
    {
        if let Err(fault) = self.check_pass(machine, &pass) {
            return Err((fault, pass));
        }
        *self.records.record_mut(pass.spend()) = CouplerRecord::WrittenOff;
        Ok(())
    }
}
