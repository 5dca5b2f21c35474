//! Laws of decompiled files, each the contract of a function with an empty body.

ghost use Rattle.kmx_decompiler.specs.Laws.{CompiledHasNoCauses, CompiledIsInOrder, CompiledLacksNoText, NamesAreText, ReadWasWritten, SpelledCanBeWrittenOut, SpelledIsSpelled, SpelledItemsStand, SpelledNamesStand, SpelledRulesStand, TextFits, TextIsAccepted, TextKeepsMeaning};

/// The names of stores and groups are UTF-8 in every file.
#[tactic(auto, using(crate::proofs::TextNames::names_are_text))]
pub fn names_are_text()
    ensures { NamesAreText }
{}

/// If a valid file has a text, its tables can be written out as a program that means the same.
pub fn spelled_can_be_written_out()
    ensures { SpelledCanBeWrittenOut }
{}

/// A text can express that program, so parsing the program's text returns the program.
pub fn spelled_is_spelled()
    ensures { SpelledIsSpelled }
{}

/// No name of that program is refused.
#[tactic(auto, using(crate::proofs::Accepted::program_names_stand))]
pub fn spelled_names_stand()
    ensures { SpelledNamesStand }
{}

/// No rule of the program that a valid file is written out as is refused for an item.
pub fn spelled_rules_stand()
    ensures { SpelledRulesStand }
{}

/// If a file has a text, no store and no rule of its program is refused for an item, and no store is refused as a whole.
#[tactic(auto, using(crate::proofs::Accepted::program_items_stand))]
pub fn spelled_items_stand()
    ensures { SpelledItemsStand }
{}

/// A checker accepts the text and reads it as that program.
#[tactic(auto, using(crate::proofs::Accepted::text_is_accepted))]
pub fn text_is_accepted()
    ensures { TextIsAccepted }
{}

/// The file of the tables that the text compiles to, without a bitmap, is within the limits of a file.
#[tactic(auto, using(crate::proofs::Fitting::text_fits))]
pub fn text_fits()
    ensures { TextFits }
{}

/// The tables that the text of a file compiles to mean what the file means.
#[tactic(auto, using(crate::proofs::Accepted::text_keeps_meaning))]
pub fn text_keeps_meaning()
    ensures { TextKeepsMeaning }
{}

/// No file that a program compiles to is refused for the order of its records.
pub fn compiled_is_in_order()
    ensures { CompiledIsInOrder }
{}

/// A program that is read from a source has names, values and keys that a source can write, and contexts in order.
#[tactic(auto, using(crate::proofs::WrittenPrograms::read_was_written))]
pub fn read_was_written()
    ensures { ReadWasWritten }
{}

/// No file that a source compiles to is refused for a part of it that has no spelling.
#[tactic(auto, using(crate::proofs::CompiledSources::compiled_has_no_causes))]
pub fn compiled_has_no_causes()
    ensures { CompiledHasNoCauses }
{}

/// Such a file has a text, unless the text or what it compiles to is too large.
#[tactic(auto, using(crate::proofs::CompiledSources::compiled_lacks_no_text))]
pub fn compiled_lacks_no_text()
    ensures { CompiledLacksNoText }
{}
