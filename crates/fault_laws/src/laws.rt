//! Laws of the refusals of a source, each the contract of a function with an empty body.

ghost use Rattle.fault_laws.specs.Laws.{LinesAreRefusedOnce, NamesAreDefined, NamesStayDefined, OnlySystemStoresAreLeft};

/// No line is refused twice: only line 1 may have both C01, which is for the whole program, and another refusal.
#[tactic(auto, using(crate::proofs::RefusedOnce::lines_are_refused_once))]
pub fn lines_are_refused_once()
    ensures { LinesAreRefusedOnce }
{}

/// Each statement whose items are checked names only what is defined: in the program whose items are checked, names refuse no further
/// statement.
#[tactic(auto, using(crate::proofs::AllNamed::names_are_defined))]
pub fn names_are_defined()
    ensures { NamesAreDefined }
{}

/// With stubs in place of all statements that are refused up to their items, items refuse no further statement, unless it is a system
/// store, whose text may be that of a stub.
#[tactic(auto, using(crate::proofs::ItemsLeft::only_system_stores_are_left))]
pub fn only_system_stores_are_left()
    ensures { OnlySystemStoresAreLeft }
{}

/// With the same stubs, names refuse no further statement.
#[tactic(auto, using(crate::proofs::NamesKept::names_stay_defined))]
pub fn names_stay_defined()
    ensures { NamesStayDefined }
{}
