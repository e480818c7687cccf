// What a session keeps. It keeps no machine: every call that needs one is given it.
ghost use Rattle.std.specs.Prelude.{◌≡◌, length};
ghost use Rattle.planner.specs.Views.{words_of, places_of};

use crate::records::Records;
use planner::store::{Block, Places};

#[derive(Drop)]
pub struct Session {
    pub(crate) number: u32,
    pub(crate) block: Block,
    pub(crate) places: Places,
    pub(crate) records: Records,
    ghost same_size: { length (places_of places) ≡ length (words_of block) },
}
