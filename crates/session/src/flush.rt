// Flush: the block turned into gates on couplers in service, and played.
ghost use Rattle.std.specs.Prelude.{◌≡◌, map, length, Err, MatchResult};
ghost use Rattle.parity.specs.Words.{gate_of};
ghost use Rattle.machine.specs.OnCoupler.{OnCouplers};
ghost use Rattle.planner.specs.Views.{words_of, places_of};
ghost use Rattle.session.specs.Begins.{begun};
ghost use Rattle.session.specs.Flushes.{Flush, CarriesOut};
ghost use Rattle.session.specs.Planning.{PlannedFor};
ghost use Rattle.session.specs.Views.{view, state};

use crate::store::Session;
use chip::Chip;
use machine::Machine;
use planner::plan::{Planned, plan_on};
use planner::store::{Block, Places};
use play::play;
use session_fault::SessionFault;

impl Session {
    // Turns the block into gates, writes them to the front of the buffer, plays them, and begins a new block; answers how many
    // gates there were. The wires end where the plan has them.
    pub fn flush<M: Machine>(
        &mut self,
        machine: &mut M,
        buffer: &mut [u16],
    ) -> Result<usize, SessionFault>
        ensures { Flush (state self.old (M.Chip.layout machine.old) (M.Machine.meaning machine.old)) buffer.old result (state self.new (M.Chip.layout machine.new) (M.Machine.meaning machine.new)) buffer.new }
    {
        let Planned { gates, places } = self.plan_block(machine, buffer)?;
        self.carry_out(machine, &buffer[..gates], places)
    }

    // A plan for the block on the machine as it is now; a refusal is the flush's own.
    fn plan_block<M: Machine>(
        &self,
        machine: &M,
        buffer: &mut [u16],
    ) -> Result<Planned, SessionFault>
        ensures { MatchResult result (λ p. PlannedFor (state self.now (M.Chip.layout machine.now) (M.Machine.meaning machine.now)) buffer.old buffer.new p) (λ f. Flush (state self.now (M.Chip.layout machine.now) (M.Machine.meaning machine.now)) buffer.old (Err f) (state self.now (M.Chip.layout machine.now) (M.Machine.meaning machine.now)) buffer.new) }
    {
        self.check_size(machine)?;
        Ok(plan_on(machine, &self.block, &self.places, buffer)?)
    }

    // Plays the gates of a plan, if there are not too many, and begins a new block with the wires at their new places.
    fn carry_out<M: Machine>(
        &mut self,
        machine: &mut M,
        entries: &[u16],
        places: Places,
    ) -> Result<usize, SessionFault>
        requires on_couplers { OnCouplers (M.Chip.layout machine.old) (M.Machine.meaning machine.old).service (map gate_of entries.now) }
        requires wires { length (places_of places) ≡ length (words_of self.old.block) }
        ensures { CarriesOut (state self.old (M.Chip.layout machine.old) (M.Machine.meaning machine.old)) entries.now (places_of places) result (state self.new (M.Chip.layout machine.new) (M.Machine.meaning machine.new)) }
    {
        let count = entries.len();
        machine.fits(count)?;
        // they lie on couplers in service and fit, so they are all obeyed
        let _ = play(machine, entries);
        self.begin_block(places);
        Ok(count)
    }

    // A new block, with the wires at new places.
    fn begin_block(&mut self, places: Places)
        requires { length (places_of places) ≡ length (words_of self.old.block) }
        ensures { view self.new ≡ begun (view self.old) (places_of places) }
    {
        self.block = Block::new(self.block.wires()).unwrap();
        self.places = places;
    }
}
