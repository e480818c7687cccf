// What ties the planner's words to the machine's. Each law is the contract of a function, so the crate is proved only with it.
ghost use Rattle.planner.specs.Laws.{ObeysNeighbours, TwoIslandsStay, WaysOverCouplers, PlansOverCouplers};

// With allowance left, a machine's `cnot` obeys exactly the gates between neighbours.
pub fn machines_obey_gates_between_neighbours() -> u8
    ensures { ObeysNeighbours }
{
    0
}

// A set that needs places on two islands does so after any gates on couplers in service.
pub fn sets_on_two_islands_stay_on_two() -> u8
    ensures { TwoIslandsStay }
{
    0
}

// Ways between neighbours are ways over couplers in service.
pub fn ways_are_over_couplers_in_service() -> u8
    ensures { WaysOverCouplers }
{
    0
}

// What gates between neighbours do is what gates on couplers in service do, and there is a plan for both or for neither.
pub fn plans_are_over_couplers_in_service() -> u8
    ensures { PlansOverCouplers }
{
    0
}
