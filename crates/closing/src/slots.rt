// Slots for passes.
ghost use Rattle.std.specs.Prelude.{◌≡◌, ◌≤◌, [], replicate, IfOk, None, vec_capacity};

use session::pass::Pass;
use std::alloc::{AllocError, Global};

// That many empty slots, or no memory.
pub fn empty_slots(heap: Global, n: usize) -> Result<Vec<Option<Pass>>, AllocError>
    ensures { IfOk result (λ v. v.items ≡ replicate n None) }
{
    let mut slots = Vec::with_capacity(heap, n)?;
    add_empty(&mut slots, n);
    Ok(slots)
}

// `collect` would drop what it has made when memory ends, and the check lets nothing drop a pass.
fn add_empty(slots: &mut Vec<Option<Pass>>, n: usize)
    requires { (slots.old.items ≡ []) × (n ≤ vec_capacity slots.old) }
    ensures { slots.new.items ≡ replicate n None }
{
    for _ in 0..n {
        slots.push_reserved(None);
    }
}
