// No pass that was handed out may go, and passes in slots can be ended.
ghost use Rattle.closing.specs.Laws.{HandedOutStays, StaysGood, StartsGood, AsManyAsOut};

// A take-out on any machine hands out no pass that its bearer may let go.
pub fn no_pass_handed_out_may_go() -> u8
    ensures { HandedOutStays }
{
    0
}

// A script keeps it so that every pass in a slot can be ended and no two are for one coupler.
pub fn passes_in_slots_stay_good() -> u8
    ensures { StaysGood }
{
    0
}

// Empty slots are so for a new session on a new machine.
pub fn new_slots_are_good() -> u8
    ensures { StartsGood }
{
    0
}

// After a script that began with a new session, a new machine and empty slots, no pass is lost: there are as many in slots as
// couplers out on a pass.
pub fn as_many_passes_in_slots_as_couplers_out() -> u8
    ensures { AsManyAsOut }
{
    0
}
