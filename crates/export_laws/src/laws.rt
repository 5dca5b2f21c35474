//! Laws of the definitions in `specs/`, each the contract of a function with an empty body.

ghost use Rattle.export_laws.specs.Laws.{UntoldExportsTypeAlike};

/// States that Keyman's own engine types in an exported file the texts that this product types in the given file, if nothing is reported of
/// the export.
#[tactic(auto, using(crate::proofs::ExportsAlike::untold_exports_type_alike))]
pub fn untold_exports_type_alike()
    ensures { UntoldExportsTypeAlike }
{}
