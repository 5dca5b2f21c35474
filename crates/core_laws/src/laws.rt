//! Laws of the definitions in `specs/`, each the contract of a function with an empty body.

ghost use Rattle.core_laws.specs.Laws.{FairKeyboardsTypeAlike, UntoldKeyboardsTypeAlike};

/// States that a keyboard types the same texts in both engines if no line, no group and nothing for the file is reported of it, for every list of
/// presses that hold not both sides of control or of alt, and are not of the keypad.
#[tactic(auto, using(crate::proofs::Untold::untold_keyboards_type_alike))]
pub fn untold_keyboards_type_alike()
    ensures { UntoldKeyboardsTypeAlike }
{}

/// States the same if no construct is reported of the records and groups that an event can enter, and of the file only caps lock or keys with
/// both sides.
#[tactic(auto, using(crate::proofs::Untold::fair_keyboards_type_alike))]
pub fn fair_keyboards_type_alike()
    ensures { FairKeyboardsTypeAlike }
{}
