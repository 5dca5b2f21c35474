//! Laws of the definitions in `specs/`, each the contract of a function with an empty body.

ghost use Rattle.import_tokens.specs.Laws.{RangesRise, SpelledCharactersAreRead};

/// A range of characters stands for all characters between its bounds, in order.
#[tactic(auto, using(crate::proofs::Counted::ranges_rise))]
pub fn ranges_rise()
    ensures { RangesRise }
{}

/// The tokens of a range are read as its characters.
#[tactic(auto, using(crate::proofs::Spelled::spelled_characters_are_read))]
pub fn spelled_characters_are_read()
    ensures { SpelledCharactersAreRead }
{}
