//! Laws of the definitions in `specs/`, each the contract of a function with an empty body.

ghost use Rattle.core_meaning.specs.ContextLaws.{ConditionsAreAlike, ContextsHoldAlike, ContextsMatchAlike, FirstIsTaken};
ghost use Rattle.core_meaning.specs.Laws.{BothSidesHeldFitNothing, CommonKeysFitAlike, ShortEndsAreSeen, TwiceNamedFitNothing, WindowIsLongestEnd, WindowOfPut};
ghost use Rattle.core_meaning.specs.WorkedConditions.{AreWorkedConditions};
ghost use Rattle.core_meaning.specs.WorkedContexts.{AreWorkedContexts};
ghost use Rattle.core_meaning.specs.WorkedKeys.{AreWorkedKeys};
ghost use Rattle.core_meaning.specs.WorkedOutputs.{AreWorkedOutputs};
ghost use Rattle.core_meaning.specs.WorkedTables.{AreWorkedTables};
ghost use Rattle.core_meaning.specs.WorkedWindows.{AreWorkedWindows};

/// States that rules see the longest end of the text of at most 63 units, also of what an event puts.
#[tactic(auto, using(crate::proofs::Windows::window_is_longest_end, crate::proofs::Windows::window_of_put, crate::proofs::Windows::short_ends_are_seen))]
pub fn window_is_longest_end()
    ensures longest { WindowIsLongestEnd }
    ensures put { WindowOfPut }
    ensures short { ShortEndsAreSeen }
{}

/// States which keys fit which presses as in this product, and which never fit in the engine.
#[tactic(auto, using(crate::proofs::KeysAlike::common_keys_fit_alike, crate::proofs::KeysAlike::twice_named_fit_nothing, crate::proofs::KeysAlike::both_sides_held_fit_nothing))]
pub fn common_keys_fit_alike()
    ensures alike { CommonKeysFitAlike }
    ensures twice_named { TwiceNamedFitNothing }
    ensures both_held { BothSidesHeldFitNothing }
{}

/// States which contexts hold as in this product, in a window that is long enough, and that they find the same places.
#[tactic(auto, using(crate::proofs::ConditionsAlike::conditions_are_alike, crate::proofs::HoldsAlike::contexts_hold_alike))]
pub fn contexts_hold_alike()
    ensures matches { ContextsMatchAlike }
    ensures conditions { ConditionsAreAlike }
    ensures holds { ContextsHoldAlike }
{}

/// States that the engine uses the first record that holds and that it can take.
#[tactic(auto, using(crate::proofs::FirstTaken::first_is_taken))]
pub fn first_is_taken()
    ensures { FirstIsTaken }
{}

/// States what the engine typed of ten keyboards with conditions on the layer and the platform.
#[tactic(auto, using(crate::proofs::WorkedConditions::worked_conditions))]
pub fn worked_conditions()
    ensures { AreWorkedConditions }
{}

/// States what the engine typed of 17 keyboards with modifiers, keypad keys, custom keys and nomatch.
#[tactic(auto, using(crate::proofs::WorkedKeys::worked_keys))]
pub fn worked_keys()
    ensures { AreWorkedKeys }
{}

/// States what the engine typed of eleven keyboards with `nul`, `context(k)`, `index` and empty contexts.
#[tactic(auto, using(crate::proofs::WorkedContexts::worked_contexts))]
pub fn worked_contexts()
    ensures { AreWorkedContexts }
{}

/// States what the engine typed of 16 keyboards with `use`, `return`, match and `save`.
#[tactic(auto, using(crate::proofs::WorkedOutputs::worked_outputs))]
pub fn worked_outputs()
    ensures { AreWorkedOutputs }
{}

/// States what the engine typed of 12 keyboards at the end of the window, with marks, and with long outputs.
#[tactic(auto, using(crate::proofs::WorkedWindows::worked_windows))]
pub fn worked_windows()
    ensures { AreWorkedWindows }
{}

/// States what the engine typed of eight files that no source makes.
#[tactic(auto, using(crate::proofs::WorkedTables::worked_tables))]
pub fn worked_tables()
    ensures { AreWorkedTables }
{}
