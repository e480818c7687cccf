// Room for a mark for each coupler of the largest chip: whether it is in service.
ghost use Rattle.std.specs.Prelude.{◌≡◌, length};

#[derive(Drop)]
pub struct Marks {
    // Kept: no memory is asked for to make a machine on a table, and no chip has more couplers.
    pub(crate) marks: [bool; 256],
    ghost room: { length marks ≡ 256 },
}
