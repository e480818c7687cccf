// The commands, each on what the script has set up.
ghost use Rattle.std.specs.Prelude.{◌≡◌, ◌-◌, Some, None, MatchResult};
ghost use Rattle.std.specs.Option.{option_map};
ghost use Rattle.chip.specs.Answers.{answered};
ghost use Rattle.grid.specs.Grid.{grid_fault, grid_layout};
ghost use Rattle.map.specs.File.{map_fault, map_layout};
ghost use Rattle.machine.specs.Calls.{coupler_fault, cnot_fault};
ghost use Rattle.machine.specs.Meaning.{switched, played};
ghost use Rattle.tape.specs.Tape.{tape_fault};
ghost use Rattle.device.specs.Chips.{any_layout};
ghost use Rattle.device.specs.Machines.{chip_layout, any_meaning};
ghost use Rattle.replies.specs.declared.refusal.Refusal.TheVariants.{NoMachine, Chip as OfChip, Machine as OfMachine};
ghost use Rattle.simulation.specs.Statuses.{status_of, machine_of, empty, with_chip, with_machine};
ghost use Rattle.simulation.specs.Calls.{Does, DoesOrLacks, Again, TapeMade, WordsSaid, sizes, chipless, on_machine, changed, with_new_machine, allowance_in, serves_in, before};

use crate::setup::Setup;
use chip::Chip;
use device::chips::AnyChip;
use device::machines::AnyMachine;
use grid::GridChip;
use lines::words::words_line;
use machine::Machine;
use map::MappedChip;
use replies::refusal::Refusal;
use std::alloc::Global;
use table::store::TableMachine;
use tape::store::TapeMachine;

impl Setup {
    // Nothing set up yet.
    pub fn new() -> Setup
        ensures { status_of result ≡ empty }
    {
        Setup {
            chip: None,
            machine: None,
        }
    }

    // Chooses a grid; answers its places and couplers.
    pub fn grid(&mut self, rows: usize, columns: usize) -> Result<(usize, usize), Refusal>
        ensures { Does (status_of self.old) (option_map OfChip (grid_fault rows columns)) (sizes (grid_layout rows columns)) (with_chip (grid_layout rows columns)) result (status_of self.new) }
    {
        let chip = GridChip::new(rows, columns)?;
        Ok(self.choose(AnyChip::Grid(chip)))
    }

    // Chooses the chip of a map file; answers its places and couplers.
    pub fn map(&mut self, heap: Global, file: &[u8]) -> Result<(usize, usize), Refusal>
        ensures { DoesOrLacks (status_of self.old) (option_map OfChip (map_fault file.now)) (sizes (map_layout file.now)) (with_chip (map_layout file.now)) result (status_of self.new) }
    {
        let chip = MappedChip::read(heap, file)?;
        Ok(self.choose(AnyChip::Mapped(chip)))
    }

    fn choose(&mut self, chip: AnyChip) -> (usize, usize)
        ensures answers { result ≡ sizes (any_layout chip) }
        ensures leaves { status_of self.new ≡ with_chip (any_layout chip) }
    {
        let sizes = (chip.width(), chip.couplers());
        self.chip = Some(chip);
        self.machine = None;
        sizes
    }

    // A chip of the layout that was chosen.
    fn chip_again(&self, heap: Global) -> Result<AnyChip, Refusal>
        ensures { Again (status_of self.now).chip any_layout result }
    {
        let chip = self.chip.as_ref().ok_or(Refusal::NoChip)?;
        Ok(chip.duplicate(heap)?)
    }

    // Makes a table machine on the chip; answers its allowance.
    pub fn table(&mut self, heap: Global) -> Result<usize, Refusal>
        ensures { DoesOrLacks (status_of self.old) (chipless (status_of self.old).chip) 1000000 (with_new_machine (status_of self.old) (status_of self.old).chip 1000000) result (status_of self.new) }
    {
        let machine = TableMachine::new(self.chip_again(heap)?);
        Ok(self.keep_machine(AnyMachine::Table(machine)))
    }

    // Makes a tape machine on the chip; answers its allowance.
    pub fn tape(&mut self, heap: Global, length: usize) -> Result<usize, Refusal>
        ensures { DoesOrLacks (status_of self.old) (before (chipless (status_of self.old).chip) (option_map OfMachine (tape_fault length))) length (with_new_machine (status_of self.old) (status_of self.old).chip length) result (status_of self.new) }
    {
        let chip = self.chip_again(heap)?;
        let machine = tape_on(heap, chip, length)?;
        Ok(self.keep_machine(machine))
    }

    fn keep_machine(&mut self, machine: AnyMachine) -> usize
        ensures answers { result ≡ (any_meaning machine).allowance }
        ensures leaves { status_of self.new ≡ with_machine (status_of self.old) (chip_layout machine) (any_meaning machine) }
    {
        let allowance = machine.allowance();
        self.machine = Some(machine);
        allowance
    }

    // The machine, if one was made.
    fn machine(&self) -> Result<&AnyMachine, Refusal>
        ensures { MatchResult result (λ m. (status_of self.now).machine ≡ Some (machine_of m.now)) (λ f. (f ≡ NoMachine) × ((status_of self.now).machine ≡ None)) }
    {
        self.machine.as_ref().ok_or(Refusal::NoMachine)
    }

    // Puts a coupler in service or takes it out.
    pub fn set(&mut self, k: usize, on: bool) -> Result<(), Refusal>
        ensures { Does (status_of self.old) (on_machine (status_of self.old).machine (λ l _. coupler_fault l k)) tt (changed (status_of self.old) (status_of self.old).machine (λ m. switched m k on)) result (status_of self.new) }
    {
        let machine = self.machine.as_mut().ok_or(Refusal::NoMachine)?;
        machine.set(k, on)?;
        Ok(())
    }

    // Plays a gate; answers how many more the machine takes.
    pub fn cnot(&mut self, c: usize, t: usize) -> Result<usize, Refusal>
        ensures { Does (status_of self.old) (on_machine (status_of self.old).machine (λ l m. cnot_fault l m c t)) (allowance_in (status_of self.old).machine - 1) (changed (status_of self.old) (status_of self.old).machine (λ m. played m (c, t))) result (status_of self.new) }
    {
        let machine = self.machine.as_mut().ok_or(Refusal::NoMachine)?;
        machine.cnot(c, t)?;
        Ok(machine.allowance())
    }

    // The words at all places, as a line.
    pub fn words(&self, heap: Global) -> Result<String, Refusal>
        ensures { WordsSaid (status_of self.now).machine result }
    {
        words_line(heap, self.machine()?)
    }

    // Whether a coupler is in service.
    pub fn serves(&self, k: usize) -> Result<bool, Refusal>
        ensures { result ≡ answered (on_machine (status_of self.now).machine (λ l _. coupler_fault l k)) (serves_in (status_of self.now).machine k) }
    {
        Ok(self.machine()?.serves(k)?)
    }

    // How many gates the machine still takes.
    pub fn allowance(&self) -> Result<usize, Refusal>
        ensures { result ≡ answered (on_machine (status_of self.now).machine (λ _ _. None)) (allowance_in (status_of self.now).machine) }
    {
        Ok(self.machine()?.allowance())
    }
}

// A tape machine on a chip.
fn tape_on(heap: Global, chip: AnyChip, length: usize) -> Result<AnyMachine, Refusal>
    ensures { TapeMade (any_layout chip) length result }
{
    let machine = TapeMachine::new(heap, chip, length).map_err(|unmade| unmade.fault)?;
    Ok(AnyMachine::Tape(machine))
}
