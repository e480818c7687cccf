// A chip of either kind.
ghost use Rattle.std.specs.Prelude.{◌≡◌, MatchResult};
ghost use Rattle.chip.specs.declared.fault.ChipFault.TheVariants.{NoMemory as OutOfMemory};
ghost use Rattle.device.specs.Chips.{any_layout, GridIsCopied};
ghost use Rattle.device.specs.Laws.{any_sound};

use chip::Chip;
use chip::fault::ChipFault;
use grid::GridChip;
use map::MappedChip;
use std::alloc::Global;

#[derive(Drop)]
pub enum AnyChip {
    Grid(GridChip),
    Mapped(MappedChip),
}

impl AnyChip {
    // Kept: Clone is not derived, as a mapped chip has none: a copy of it may find no memory.
    // A second chip of the same layout. Only a chip that was read from a map asks for memory.
    pub fn duplicate(&self, heap: Global) -> Result<AnyChip, ChipFault>
        ensures same_layout { MatchResult result (λ c. any_layout c ≡ any_layout self.now) (λ f. f ≡ OutOfMemory) }
        ensures a_grid_is_copied { GridIsCopied self.now result }
    {
        match self {
            AnyChip::Grid(g) => Ok(AnyChip::Grid(*g)),
            AnyChip::Mapped(m) => Ok(AnyChip::Mapped(m.duplicate(heap)?)),
        }
    }
}

// Kept: with each match below, as a `dyn Chip` may not be handed out, and a generic enum of two would not name its kinds.
impl Chip for AnyChip {
    ghost layout = { any_layout };

    ghost sound = { λ c. any_sound c };

    fn width(&self) -> usize {
        match self {
            AnyChip::Grid(g) => g.width(),
            AnyChip::Mapped(m) => m.width(),
        }
    }

    fn couplers(&self) -> usize {
        match self {
            AnyChip::Grid(g) => g.couplers(),
            AnyChip::Mapped(m) => m.couplers(),
        }
    }

    fn ends(&self, k: usize) -> Result<(usize, usize), ChipFault> {
        match self {
            AnyChip::Grid(g) => g.ends(k),
            AnyChip::Mapped(m) => m.ends(k),
        }
    }
}
