// Map files put together coupler by coupler.
#![tactic(auto)]

ghost use Rattle.std.specs.Prelude.{◌≡◌, ◌↔◌, [], ◌∷◌, ◌++◌, ◌^◌, ◌≤◌, length, OnOk, OnErr, IfOk, IsErrOf};
ghost use Rattle.draft.specs.Draft.{map_file};

mod fault;
#[cfg(test)]
mod tests;

pub use fault::DraftFault;
use std::alloc::{AllocError, Global};
use std::marker::Model;

// The couplers of a map file to be, each by its left end and its right end.
#[derive(Drop)]
pub struct Draft {
    couplers: Vec<(u8, u8)>,
}

impl Model for Draft {
    ghost use Rattle.std.specs.Prelude.{ℕ, List};

    ghost Value = { List (ℕ × ℕ) };

    ghost view = { λ d. d.couplers.items };
}

impl Draft {
    pub fn new(heap: Global) -> Draft
        ensures { result ≡ [] }
    {
        Draft {
            couplers: Vec::new(heap),
        }
    }

    // Adds a coupler behind the others.
    pub fn join(&mut self, a: u8, b: u8) -> Result<(), AllocError>
        ensures ok { OnOk result (self.new ≡ self.old ++ (a, b) ∷ []) }
        ensures err { OnErr result (self.new ≡ self.old) }
    {
        self.couplers.push((a, b))?;
        Ok(())
    }

    // The map file of a chip with so many places and these couplers.
    pub fn file(&self, heap: Global, places: u8) -> Result<Vec<u8>, DraftFault>
        ensures file { IfOk result (λ file. file.items ≡ map_file places self.now) }
        ensures too_many { IsErrOf result DraftFault.TooManyCouplers ↔ (2 ^ 16 ≤ length self.now) }
    {
        let couplers = u16::try_from(self.couplers.len()).map_err(|_| DraftFault::TooManyCouplers)?;
        let [low, high] = couplers.to_le_bytes();
        let left: Vec<u8> = self.couplers.iter().map(|ends| ends.0).collect(heap)?;
        let right: Vec<u8> = self.couplers.iter().map(|ends| ends.1).collect(heap)?;
        let mut file = Vec::from_slice(heap, &[places, low, high])?;
        file.extend_from_slice(left.as_slice())?;
        file.extend_from_slice(right.as_slice())?;
        Ok(file)
    }
}
