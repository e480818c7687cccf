// Why a map file is not made.
use std::alloc::AllocError;

#[derive(Clone, Copy, PartialEq, Eq, Debug)]
pub enum DraftFault {
    // there is room for a number of two bytes
    TooManyCouplers,
    NoMemory,
}

impl From<AllocError> for DraftFault {
    ghost use Rattle.std.specs.Prelude.{◌≡◌};
    ghost use Rattle.draft.specs.declared.fault.DraftFault.TheVariants.{NoMemory};

    ghost from_gives = { λ _ fault. fault ≡ NoMemory };

    fn from(_: AllocError) -> DraftFault {
        DraftFault::NoMemory
    }
}
