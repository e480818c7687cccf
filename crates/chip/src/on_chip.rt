// What acts on a chip of its own: its places and couplers are the chip's.
ghost use Rattle.std.specs.Prelude.{◌≡◌};

use crate::Chip;
use crate::fault::ChipFault;

pub trait OnChip {
    type Inner: Chip;

    ghost inner: { Self → Self.Inner };

    fn chip(&self) -> &Self::Inner
        ensures { result.now ≡ inner self.now };
}

impl<T: OnChip> Chip for T {
    ghost layout = { λ m. T.Inner.layout (T.inner m) };

    ghost sound = { λ m. T.Inner.sound (T.inner m) };

    fn width(&self) -> usize {
        self.chip().width()
    }

    fn couplers(&self) -> usize {
        self.chip().couplers()
    }

    fn ends(&self, k: usize) -> Result<(usize, usize), ChipFault> {
        self.chip().ends(k)
    }

    fn joins(&self, a: usize, b: usize) -> Option<usize> {
        self.chip().joins(a, b)
    }
}
