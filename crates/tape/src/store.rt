// What the tape machine keeps: the chip, the gates played, with room for as many as may be, and a mark for each coupler.
ghost use Rattle.std.specs.Prelude.{◌≤◌, vec_capacity};

use machine::marks::Marks;

#[derive(Drop)]
pub struct TapeMachine<C> {
    pub(crate) chip: C,
    pub(crate) tape: Vec<u16>,
    pub(crate) service: Marks,
    ghost short: { vec_capacity tape ≤ 8192 },
}
