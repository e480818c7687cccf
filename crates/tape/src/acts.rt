// The tape machine as a chip and as a machine.
ghost use Rattle.std.specs.Prelude.{◌≡◌, ◌+◌, ◌*◌, ◌<◌, [], ◌∷◌, ◌++◌, vec_capacity, vec_len, nat_lt, slice_index};
ghost use Rattle.tape.specs.Tape.{tape_meaning, Makes};
ghost use Rattle.tape.specs.Tapes;

use crate::store::TapeMachine;
use chip::Chip;
use chip::on_chip::OnChip;
use machine::Machine;
use machine::fault::MachineFault;
use machine::marks::Marks;
use parity::sets::entry_of;
use parity::{fresh_words, replay_entries};
use std::alloc::Global;

// The longest tape.
const LONGEST: usize = 8192;

// A machine that was not made: its chip goes back, with the reason.
#[derive(Drop)]
pub struct NotMade<C> {
    pub chip: C,
    pub fault: MachineFault,
}

impl<C: Chip> TapeMachine<C> {
    // A new machine with a tape of so many entries, had here and never again.
    pub fn new(heap: Global, chip: C, length: usize) -> Result<TapeMachine<C>, NotMade<C>>
        ensures { Makes C.Chip.layout chip length result }
    {
        if length > LONGEST {
            let fault = MachineFault::TapeTooLong;
            return Err(NotMade { chip, fault });
        }
        let Ok(tape) = Vec::with_capacity(heap, length) else {
            let fault = MachineFault::NoMemory;
            return Err(NotMade { chip, fault });
        };
        Ok(TapeMachine {
            chip,
            tape,
            service: Marks::all_in_service(),
        })
    }

    // The gates kept, each as 64 x control + target.
    pub fn entries(&self) -> &[u16]
        ensures { result.now ≡ self.now.tape.items }
    {
        self.tape.as_slice()
    }

    // Ends the machine and hands its chip back.
    pub fn into_chip(self) -> C
        ensures { result ≡ self.chip }
    {
        self.chip
    }
}

impl<C: Chip> TapeMachine<C> {
    // The word at place q after the gates kept.
    fn replayed_word(&self, q: usize) -> u64
        requires { q < (C.Chip.layout self.now.chip).places }
        ensures { result ≡ slice_index (tape_meaning (C.Chip.layout self.now.chip) self.now).words q }
    {
        let n = self.chip.width();
        let mut words = fresh_words();
        replay_entries(self.entries(), &mut words[..n]);
        words[q]
    }

    // Puts a gate on the tape.
    fn keep(&mut self, c: usize, t: usize)
        requires { (c < 64) × ((t < 64) × (vec_len self.old.tape < vec_capacity self.old.tape)) }
        ensures entries { self.new.tape.items ≡ self.old.tape.items ++ (64 * c + t) ∷ [] }
        ensures room { vec_capacity self.new.tape ≡ vec_capacity self.old.tape }
        ensures chip { self.new.chip ≡ self.old.chip }
        ensures service { self.new.service ≡ self.old.service }
    {
        self.tape.push_reserved(entry_of(c, t));
    }
}

impl<C: Chip> OnChip for TapeMachine<C> {
    type Inner = C;

    ghost inner = { λ m. m.chip };

    fn chip(&self) -> &C {
        &self.chip
    }
}

impl<C: Chip> Machine for TapeMachine<C> {
    ghost meaning = { λ m. tape_meaning (C.Chip.layout m.chip) m };

    ghost fitting = { λ m. Tapes.fits (C.Chip.layout m.chip) m (C.Chip.sound m.chip) };

    fn word(&self, q: usize) -> Result<u64, MachineFault> {
        // Kept: an `if` before the replay, so that a refusal does not wait for it.
        if q >= self.chip.width() {
            return Err(MachineFault::PlaceOutOfRange);
        }
        Ok(self.replayed_word(q))
    }

    // Kept: `serves`, `set` and `into_chip` are a line each over this machine's own fields; a trait for the fields would be longer.
    fn serves(&self, k: usize) -> Result<bool, MachineFault> {
        self.service.serves(&self.chip, k)
    }

    fn allowance(&self) -> usize {
        self.tape.capacity() - self.tape.len()
    }

    fn set(&mut self, k: usize, on: bool) -> Result<(), MachineFault> {
        self.service.set(&self.chip, k, on)
    }

    // Kept: the trait could share it only by a public method that asks its callers for a checked gate.
    fn cnot(&mut self, c: usize, t: usize) -> Result<(), MachineFault> {
        self.check_cnot(c, t)?;
        self.keep(c, t);
        Ok(())
    }
}
