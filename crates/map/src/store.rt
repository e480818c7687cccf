// The places of a chip and the ends of each coupler, left then right, a byte each as in the file.
ghost use Rattle.std.specs.Prelude.{◌≡◌};
ghost use Rattle.chip.specs.Layout.{Sound};
ghost use Rattle.map.specs.Couplers.{layout_with};

#[derive(Drop)]
pub struct MappedChip {
    pub(crate) places: usize,
    pub(crate) couplers: Vec<(u8, u8)>,
    ghost sound: { Sound (layout_with places couplers.items) },
}

// The ends of a coupler as places.
pub(crate) fn in_places(ends: (u8, u8)) -> (usize, usize)
    ensures { result ≡ ends }
{
    let (left, right) = ends;
    (left as usize, right as usize)
}
