//! Laws of the definitions in `specs/`, each the contract of a function with an empty body.

ghost use Rattle.kmn_base.specs.Laws.{PutIsSound, TakingKeepsSoundness, WindowOfPut, CharactersOfPutChar, CharactersOfPutMark, ReadingAgainNeedsTheWindow, ReadingAgainIsSound, ReadingAgainGivesTheText, ReadingAgainTheSameText, SpellingsArePrefixFree, SpellingsAreShort, SpellingsAreUnits, SpelledItemIsNoFault, NoFaultIsEndOrItem, UnitsSpellOneList, FirstFaultIsOne, SpelledThroughOrBad, SpelledThroughIsNotBad};
ghost use Rattle.kmn_base.specs.Stated.{LimitsAreAsStated, ShiftFlagsAreAsStated, SignsAreAsStated};

/// After a put, each mark is among the last 64 items, whatever the list was before.
#[tactic(auto, using(crate::proofs::Lists::put_is_sound))]
pub fn put_is_sound()
    ensures { PutIsSound }
{}

/// If the last items of a sound list are taken, the rest is sound.
#[tactic(auto, using(crate::proofs::Lists::taking_keeps_soundness))]
pub fn taking_keeps_soundness()
    ensures { TakingKeepsSoundness }
{}

/// The window after a put is the window of the old window and the item: items further back are not needed.
#[tactic(auto, using(crate::proofs::Lists::window_of_put))]
pub fn window_of_put()
    ensures { WindowOfPut }
{}

/// A put character comes after the characters that were there before, and none of these is forgotten.
#[tactic(auto, using(crate::proofs::Lists::characters_of_put_char))]
pub fn characters_of_put_char()
    ensures { CharactersOfPutChar }
{}

/// A put mark does not change the characters.
#[tactic(auto, using(crate::proofs::Lists::characters_of_put_mark))]
pub fn characters_of_put_mark()
    ensures { CharactersOfPutMark }
{}

/// Reading again depends only on the window of the old list and on the new text.
#[tactic(auto, using(crate::proofs::ReadingAgain::reading_again_needs_the_window))]
pub fn reading_again_needs_the_window()
    ensures { ReadingAgainNeedsTheWindow }
{}

/// A list that was read again is sound, whatever the list was before.
#[tactic(auto, using(crate::proofs::ReadingAgain::reading_again_is_sound))]
pub fn reading_again_is_sound()
    ensures { ReadingAgainIsSound }
{}

/// A list that was read again has the characters of the text.
#[tactic(auto, using(crate::proofs::ReadingAgain::reading_again_gives_the_text))]
pub fn reading_again_gives_the_text()
    ensures { ReadingAgainGivesTheText }
{}

/// Reading a sound list's own text again does not change the list.
#[tactic(auto, using(crate::proofs::ReadingAgain::reading_again_the_same_text))]
pub fn reading_again_the_same_text()
    ensures { ReadingAgainTheSameText }
{}

/// No spelling is a prefix of another's, and no two items have one spelling.
#[tactic(auto, using(crate::proofs::Spelling::spellings_are_prefix_free))]
pub fn spellings_are_prefix_free()
    ensures { SpellingsArePrefixFree }
{}

/// Each spelling has one to five units.
#[tactic(auto, using(crate::proofs::Spelling::spellings_are_short))]
pub fn spellings_are_short()
    ensures { SpellingsAreShort }
{}

/// Each unit of a spelling has 16 bits and is not 0, which ends a string.
#[tactic(auto, using(crate::proofs::Spelling::spellings_are_units))]
pub fn spellings_are_units()
    ensures { SpellingsAreUnits }
{}

/// At each position there is exactly one of the end, an item and a fault: if an item is spelled, there is no fault, whatever follows.
#[tactic(auto, using(crate::proofs::Faults::spelled_item_is_no_fault))]
pub fn spelled_item_is_no_fault()
    ensures { SpelledItemIsNoFault }
{}

/// If there is no fault, the bytes end or an item is spelled.
#[tactic(auto, using(crate::proofs::StandingItems::no_fault_is_end_or_item))]
pub fn no_fault_is_end_or_item()
    ensures { NoFaultIsEndOrItem }
{}

/// Units are the spellings of at most one list of items.
#[tactic(auto, using(crate::proofs::FirstFaults::units_spell_one_list))]
pub fn units_spell_one_list()
    ensures { UnitsSpellOneList }
{}

/// There is at most one first position of bytes at which no item is spelled.
pub fn first_fault_is_one()
    ensures { FirstFaultIsOne }
{}

/// Bytes are spelled to their end or have a first position at which no item is spelled.
#[tactic(auto, using(crate::proofs::FirstFaults::spelled_through_or_bad))]
pub fn spelled_through_or_bad()
    ensures { SpelledThroughOrBad }
{}

/// Bytes that are spelled to their end have no position at which no item is spelled.
pub fn spelled_through_is_not_bad()
    ensures { SpelledThroughIsNotBad }
{}

/// Each limit is the number that the pages and the format state.
pub fn limits_are_as_stated()
    ensures { LimitsAreAsStated }
{}

/// Each shift flag is the bit that the format states.
pub fn shift_flags_are_as_stated()
    ensures { ShiftFlagsAreAsStated }
{}

/// The sentinel is the unit that the format states, and no character has the number that denotes "no character".
pub fn signs_are_as_stated()
    ensures { SignsAreAsStated }
{}
