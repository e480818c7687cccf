// Lists of calls on a session and a machine, and what holds after each: told by a sheet that is fed the calls alone.
#![tactic(auto)]

ghost use Rattle.runs.specs.Law.{Law};
ghost use Rattle.runs.specs.Carrying.{FlushCarries};

// After every list of calls from a new session on a new machine: each wire's qubit carries the parity obeyed so far, the next flush is
// unreachable exactly when no list of gates does it, and service, records and passes balance.
pub fn the_sheet_is_true_after_every_run() -> u8
    ensures { Law }
{
    0
}

// After an obeyed flush the new place of each wire carries the exclusive or of what the old places of its word carried.
pub fn a_flush_carries_what_the_block_adds_up() -> u8
    ensures { FlushCarries }
{
    0
}
