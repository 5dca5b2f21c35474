//! Laws of the definitions in `specs/`, each the contract of a function with an empty body.

ghost use Rattle.virtual_keys.specs.Stated.{CodesAreAsStated};

/// Each key that edits has its Windows key code, and the first name of a dictionary has the code 256, as in KMX files.
pub fn codes_are_as_stated()
    ensures { CodesAreAsStated }
{}
