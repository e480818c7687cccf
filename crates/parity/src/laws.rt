// What gates keep. Each law is the contract of a function, so the crate is proved only with it.
ghost use Rattle.parity.specs.Laws.{XorsSurviveGate, XorsSurviveGates, SinglePlacesDeliver};
ghost use Rattle.parity.specs.Laws.{GateUndoesItself, ReverseUndoesOnSets, ReverseUndoesOnWords};
ghost use Rattle.parity.specs.Laws.{SetsStayApart, FreshXorsAreSets, XorsTellSetsApart, BitsTellWordsApart};
ghost use Rattle.parity.specs.Laws.{MeetingSurvivesGate};
ghost use Rattle.parity.specs.Pairing.{PairingSurvivesGate, PairingSurvivesGates};
ghost use Rattle.parity.specs.Placements.{PlacesExactly};

// Gates that turn a set into a single place deliver the exclusive or over the set there, from any words.
pub fn single_places_deliver_xors() -> u8
    ensures one_gate { XorsSurviveGate }
    ensures all_gates { XorsSurviveGates }
    ensures delivered { SinglePlacesDeliver }
{
    0
}

// Gates are undone by the same gates in reverse.
pub fn reversed_gates_undo() -> u8
    ensures one_gate { GateUndoesItself }
    ensures on_sets { ReverseUndoesOnSets }
    ensures on_words { ReverseUndoesOnWords }
{
    0
}

// Gates never make two different sets the same.
pub fn gates_keep_sets_apart() -> u8
    ensures { SetsStayApart }
{
    0
}

// Over words that gates made from fresh ones, different sets have different exclusive ors.
pub fn xors_tell_sets_apart() -> u8
    ensures fresh { FreshXorsAreSets }
    ensures replayed { XorsTellSetsApart }
{
    0
}

// Words with the same bits are the same.
pub fn bits_tell_words_apart() -> u8
    ensures { BitsTellWordsApart }
{
    0
}

// The pairing of two sets is kept by gates that act on one of them the other way round.
pub fn gates_keep_the_pairing() -> u8
    ensures one_gate { PairingSurvivesGate }
    ensures all_gates { PairingSurvivesGates }
{
    0
}

// A set that meets an island meets it after a gate inside the island.
pub fn gates_keep_meeting_an_island() -> u8
    ensures { MeetingSurvivesGate }
{
    0
}

// The places of a set of wires are those of its wires, and no others.
pub fn places_are_those_of_the_wires() -> u8
    ensures { PlacesExactly }
{
    0
}
