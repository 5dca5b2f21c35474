//! Laws of the definitions in `specs/`, each the contract of a function with an empty body.

ghost use Rattle.kmn_import.specs.Laws.{AcceptedSourcesAreKept, ImportedSourcesAreAccepted, ImportedSourcesAreKept, RefusalsAreTheCompilers, RewritingKeepsLines, LinesAreAsMany};

/// An accepted source is kept, an imported text is accepted and so is kept if it is imported again, and each refusal is a
/// refusal of the compiler.
#[tactic(auto, using(crate::proofs::Accepted::accepted_sources_are_kept, crate::proofs::Accepted::imported_sources_are_accepted, crate::proofs::Accepted::imported_sources_are_kept, crate::proofs::Accepted::refusals_are_the_compilers))]
pub fn imported_sources_are_accepted()
    ensures kept { AcceptedSourcesAreKept }
    ensures accepted { ImportedSourcesAreAccepted }
    ensures again { ImportedSourcesAreKept }
    ensures refused { RefusalsAreTheCompilers }
{}

/// A line without a change has the same bytes, and each line has as many line ends as before.
#[tactic(auto, using(crate::proofs::Kept::rewriting_keeps_lines))]
pub fn rewriting_keeps_lines()
    ensures { RewritingKeepsLines }
{}

/// A rewritten source has as many line ends as the source.
#[tactic(auto, using(crate::proofs::Alike::lines_are_as_many))]
pub fn lines_are_as_many()
    ensures { LinesAreAsMany }
{}
