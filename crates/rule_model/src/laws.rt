//! Laws of the parts of a keyboard, each the contract of a function with an empty body.

ghost use Rattle.rule_model.specs.Stated.{IdsAreAsStated};

/// Each system store has the id of the KMX format, or an id of our own choice.
pub fn ids_are_as_stated()
    ensures { IdsAreAsStated }
{}
