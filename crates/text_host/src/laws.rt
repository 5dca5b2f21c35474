//! The laws of a host's fields. Each law is the contract of a function with an empty body.

ghost use Rattle.text_host.specs.Alone.{FieldsAreApart, FieldsBegin, StatesAreThoseAlone, StepsAreThoseAlone};
ghost use Rattle.text_host.specs.Host.{PreviewsComeTrue};

/// A field begins before its first event. From then on it returns the steps of the trace of the field's own events and represents
/// the state after the last of them, whatever is done in other fields.
#[tactic(auto, using(crate::proofs::Alone::fields_begin, crate::proofs::Alone::fields_are_apart, crate::proofs::Alone::steps_are_those_alone, crate::proofs::Alone::states_are_those_alone))]
pub fn fields_are_traces()
    ensures begin { FieldsBegin }
    ensures apart { FieldsAreApart }
    ensures steps { StepsAreThoseAlone }
    ensures states { StatesAreThoseAlone }
{}

/// A key event directly after its preview does what the preview returned.
#[tactic(auto, using(crate::proofs::Foreseen::previews_come_true))]
pub fn previews_come_true()
    ensures { PreviewsComeTrue }
{}
