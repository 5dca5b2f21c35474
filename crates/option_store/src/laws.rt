//! The law of the cells, as the contracts of functions with empty bodies. It holds for every list of stores.

ghost use Rattle.option_store.specs.Meaning.{CallsFollow, FirstCellsAreFirstState};

/// Each call on a store's cell changes the values that the cells denote as the meaning changes them, also if the store is not an
/// option and has no value.
#[tactic(auto, using(crate::proofs::Meaning::calls_follow))]
pub fn calls_follow()
    ensures { CallsFollow }
{}

/// New cells denote the values before the first event.
#[tactic(auto, using(crate::proofs::Meaning::first_cells_are_first_state))]
pub fn new_options_are_the_first()
    ensures { FirstCellsAreFirstState }
{}
