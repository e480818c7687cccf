// The table machine as a chip and as a machine.
ghost use Rattle.std.specs.Prelude.{◌≡◌, ◌-◌, ◌<◌, ◌≤◌, bit_xor, slice_index, slice_set};
ghost use Rattle.machine.specs.Meaning.{new};
ghost use Rattle.table.specs.Table.{table_meaning};
ghost use Rattle.table.specs.Tables;

use crate::store::TableMachine;
use chip::Chip;
use chip::on_chip::OnChip;
use machine::Machine;
use machine::fault::MachineFault;
use machine::marks::Marks;
use parity::fresh_words;
use parity::sets::all_below;

// The gates that a new table machine takes.
const ALLOWANCE: usize = 1_000_000;

impl<C: Chip> TableMachine<C> {
    // A new machine: fresh words, all couplers in service.
    pub fn new(chip: C) -> TableMachine<C>
        ensures same_chip { result.chip ≡ chip }
        ensures new { table_meaning (C.Chip.layout result.chip) result ≡ new (C.Chip.layout chip) 1000000 }
    {
        TableMachine::with_allowance(chip, ALLOWANCE)
    }

    // Ends the machine and hands its chip back.
    pub fn into_chip(self) -> C
        ensures { result ≡ self.chip }
    {
        self.chip
    }
}

impl<C: Chip> TableMachine<C> {
    fn with_allowance(chip: C, left: usize) -> TableMachine<C>
        ensures same_chip { result.chip ≡ chip }
        ensures new { table_meaning (C.Chip.layout result.chip) result ≡ new (C.Chip.layout chip) left }
    {
        TableMachine {
            chip,
            words: fresh_words(),
            service: Marks::all_in_service(),
            left,
        }
    }

    // Adds the word at place c into that at place t, for one gate of the allowance.
    fn add_word(&mut self, c: usize, t: usize)
        requires { (c < 64) × ((t < 64) × (1 ≤ self.old.left)) }
        ensures words { self.new.words ≡ slice_set self.old.words t (bit_xor (slice_index self.old.words t) (slice_index self.old.words c)) }
        ensures left { self.new.left ≡ self.old.left - 1 }
        ensures chip { self.new.chip ≡ self.old.chip }
        ensures service { self.new.service ≡ self.old.service }
    {
        self.words[t] ^= self.words[c];
        self.left -= 1;
    }
}

impl<C: Chip> OnChip for TableMachine<C> {
    type Inner = C;

    ghost inner = { λ m. m.chip };

    fn chip(&self) -> &C {
        &self.chip
    }
}

impl<C: Chip> Machine for TableMachine<C> {
    ghost meaning = { λ m. table_meaning (C.Chip.layout m.chip) m };

    ghost fitting = { λ m. Tables.fits (C.Chip.layout m.chip) m (C.Chip.sound m.chip) };

    fn word(&self, q: usize) -> Result<u64, MachineFault> {
        let n = self.chip.width();
        let word = self.words[..n].get(q).ok_or(MachineFault::PlaceOutOfRange)?;
        Ok(*word & all_below(n))
    }

    // Kept: `serves`, `set` and `into_chip` are a line each over this machine's own fields; a trait for the fields would be longer.
    fn serves(&self, k: usize) -> Result<bool, MachineFault> {
        self.service.serves(&self.chip, k)
    }

    fn allowance(&self) -> usize {
        self.left
    }

    fn set(&mut self, k: usize, on: bool) -> Result<(), MachineFault> {
        self.service.set(&self.chip, k, on)
    }

    // Kept: the trait could share it only by a public method that asks its callers for a checked gate.
    fn cnot(&mut self, c: usize, t: usize) -> Result<(), MachineFault> {
        self.check_cnot(c, t)?;
        self.add_word(c, t);
        Ok(())
    }
}
