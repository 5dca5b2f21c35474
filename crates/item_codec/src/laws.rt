//! Laws of `specs/Laws` and `specs/Stated`, each the contract of a function with an empty body.

ghost use Rattle.item_codec.specs.Laws.{SpelledIsReadAgain, SpelledGivesItsItems, BadGivesItsFault, GivenFaultIsBad, ItemsHaveOneSpelling};
ghost use Rattle.item_codec.specs.Stated.{ItemCodesAreAsStated};

/// A spelled item is read again, whatever follows it.
pub fn spelled_is_read_again()
    ensures { SpelledIsReadAgain }
{}

/// If bytes are only the spelling of items, the results are only these items.
pub fn spelled_gives_its_items()
    ensures { SpelledGivesItsItems }
{}

/// The results of bytes with a fault are the items before it, and then the fault.
pub fn bad_gives_its_fault()
    ensures { BadGivesItsFault }
{}

/// A fault among the results is at the first position at which no item is spelled.
pub fn given_fault_is_bad()
    ensures { GivenFaultIsBad }
{}

/// If the results of bytes are only items, the bytes are the only spelling of these items.
pub fn items_have_one_spelling()
    ensures { ItemsHaveOneSpelling }
{}

/// Each kind of item has the code of the KMX format.
pub fn item_codes_are_as_stated()
    ensures { ItemCodesAreAsStated }
{}
