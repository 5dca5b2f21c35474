//! Laws of compilation, each the contract of a function with an empty body: the tables of a well-named program mean what its
//! source means.

ghost use Rattle.compile_laws.specs.Law.{MeaningIsKept, TablesAreOnlyOnes, ProgramCompiles, TranscriptIsKept};

/// For all events, the compiled tables of a well-named program take the same steps as its source.
pub fn compiling_keeps_meaning()
    ensures { MeaningIsKept }
{}

/// They also print the same lines for a script.
#[tactic(auto, using(crate::proofs::Whole::transcript_kept))]
pub fn compiling_keeps_transcripts()
    ensures { TranscriptIsKept }
{}

/// A program whose rules have distinct lines compiles to one list of tables, which is `compiled_tables`.
#[tactic(auto, using(crate::proofs::Ordered::tables_are_only_ones, crate::proofs::Ordered::program_compiles))]
pub fn program_has_its_tables()
    ensures only { TablesAreOnlyOnes }
    ensures compiles { ProgramCompiles }
{}
