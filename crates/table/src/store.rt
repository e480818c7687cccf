// What the table machine keeps: the chip, a word for each place, a mark for each coupler, and the allowance.
ghost use Rattle.std.specs.Prelude.{◌≡◌, length};

use machine::marks::Marks;

#[derive(Drop)]
pub struct TableMachine<C> {
    pub(crate) chip: C,
    // Kept: no memory is asked for to make a table machine, and no chip has more places.
    pub(crate) words: [u64; 64],
    pub(crate) service: Marks,
    pub(crate) left: usize,
    ghost word_room: { length words ≡ 64 },
}
