//! The laws of an index: a record that is not a candidate does not hold.

ghost use Rattle.rule_index.specs.Laws.{HoldingIsWanted, ClassIsOfTheRecord, FirstIsCandidate};

/// If a record holds, it has one of the classes that the key press and the left list can match.
pub fn holding_is_wanted()
    ensures { HoldingIsWanted }
{}

/// The class of a record does not depend on the stores.
pub fn class_is_of_the_record()
    ensures { ClassIsOfTheRecord }
{}

/// If no record between two numbers has a matching class, the first record that holds is the same from either number on.
pub fn first_is_candidate()
    ensures { FirstIsCandidate }
{}
