// What a session has on record of each coupler.
ghost use Rattle.std.specs.Prelude.{◌≡◌, ◌<◌, replicate, IfOk, vec_len};
ghost use Rattle.std.specs.Borrow.{sem, follows};
ghost use Rattle.std.specs.Vec.{with_item};
ghost use Rattle.session.specs.contracts.records.Records.{the_row};
ghost use Rattle.session.specs.contracts.records.CouplerRecord.{the_row as record_row};
ghost use Rattle.session.specs.declared.records.CouplerRecord.TheVariants.{In};

use std::alloc::{AllocError, Global};

#[derive(Clone, Copy, PartialEq, Eq, Debug)]
pub enum CouplerRecord {
    In,
    // out on a pass
    Out,
    WrittenOff,
}

// A record for each coupler.
#[derive(Drop)]
pub struct Records {
    pub(crate) items: Vec<CouplerRecord>,
}

impl Records {
    // Every coupler in.
    pub(crate) fn all_in(heap: Global, couplers: usize) -> Result<Records, AllocError>
        ensures { IfOk result (λ x. x.items.items ≡ replicate couplers In) }
    {
        Ok(Records {
            items: vec![in heap; CouplerRecord::In; couplers]?,
        })
    }

    // The record of coupler k, to be changed; the others stay.
    pub(crate) fn record_mut(&mut self, k: usize) -> &mut CouplerRecord
        requires { k < vec_len self.old.items }
        ensures* { sem 𝓛 (follows the_row record_row self.entry.ghost_name result.ghost_name (λ w. record { items = with_item self.old.items k w })) }
    {
        &mut self.items[k]
    }
}
