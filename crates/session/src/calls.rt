// The block's calls, and where a wire is.
ghost use Rattle.std.specs.Prelude.{◌≡◌};
ghost use Rattle.chip.specs.Answers.{answered};
ghost use Rattle.session.specs.Calls.{Cx, Swap, place_fault, place_of};
ghost use Rattle.session.specs.Views.{view};

use crate::store::Session;
use session_fault::SessionFault;

impl Session {
    // The session's number.
    pub fn number(&self) -> u32
        ensures { result ≡ (view self.now).number }
    {
        self.number
    }

    // The number of wires, which is that of places.
    pub fn wires(&self) -> usize
        ensures { result ≡ (view self.now).places }
    {
        self.block.wires()
    }

    // The number of couplers.
    pub fn couplers(&self) -> usize
        ensures { result ≡ (view self.now).couplers }
    {
        self.records.items.len()
    }

    // Where wire w is.
    pub fn place(&self, w: usize) -> Result<usize, SessionFault>
        ensures { result ≡ answered (place_fault (view self.now) w) (place_of (view self.now) w) }
    {
        let places = self.places.places();
        places.get(w).copied().ok_or(SessionFault::NoSuchWire)
    }

    // Adds the word of wire a into that of wire b.
    pub fn cx(&mut self, a: usize, b: usize) -> Result<(), SessionFault>
        ensures { Cx (view self.old) a b result (view self.new) }
    {
        self.block.cx(a, b)?;
        Ok(())
    }

    // Exchanges the words of wires a and b.
    pub fn swap(&mut self, a: usize, b: usize) -> Result<(), SessionFault>
        ensures { Swap (view self.old) a b result (view self.new) }
    {
        self.block.swap(a, b)?;
        Ok(())
    }
}
