//! The laws of the fields of a play. Each law is the contract of a function with an empty body.

ghost use Rattle.std.specs.Prelude.{List};
ghost use Rattle.rule_model.specs.declared.tables.Tables.{Tables};
ghost use Rattle.text_host.specs.declared.entries.HostEntry.{HostEntry};
ghost use Rattle.play_transcript.specs.Fields.{FieldsAreTraces};
ghost use Rattle.play_transcript.specs.HostPieces.{StepsAreTold};

/// For all tables and all entries, the printed steps of a field are the steps of the trace of the field's own events.
#[tactic(auto, using(crate::proofs::Fields::fields_are_traces))]
pub fn fields_are_traces()
    ensures { (tables : Tables) (entries : List HostEntry) → FieldsAreTraces tables entries }
{}

/// For all tables and all entries, the printed text consists of pieces. Each piece is the lines of a step of one field, or lines
/// that report no step. The printed steps of a field are the steps that these pieces report for it, in order.
#[tactic(auto, using(crate::proofs::Pieces::steps_are_told))]
pub fn steps_are_told()
    ensures { (tables : Tables) (entries : List HostEntry) → StepsAreTold tables entries }
{}
