//! Laws of `specs/ExportLaws`, each the contract of a function with an empty body.

ghost use Rattle.core_export.specs.ExportLaws.{WrittenFilesAreExported, NamedFilesHaveZeroUnits, CompiledFilesAreExported, ExportingKeepsMeaning, ExportedFilesStay, ExportsAreSafe, ExportsPlayAlike, ExportsKeepSize};
ghost use Rattle.core_export.specs.Laws.{NoEventSavesTwice};

/// If a file is written from tables, it says the same with its words replaced. So `export` never returns `Overlapping` for it.
pub fn written_files_are_exported()
    ensures { WrittenFilesAreExported }
{}

/// If a file is written from tables whose first group has a name, it has a zero unit. So `export` never returns `NoZeroUnit` for it.
pub fn named_files_have_zero_units()
    ensures { NamedFilesHaveZeroUnits }
{}

/// If a source compiles to a file, with any bitmap, then `export` returns neither `Overlapping` nor `NoZeroUnit` for it.
pub fn compiled_files_are_exported()
    ensures { CompiledFilesAreExported }
{}

/// If a file says the same as another, both take the same steps for every list of events.
pub fn exporting_keeps_meaning()
    ensures { ExportingKeepsMeaning }
{}

/// If the words of an exported file are replaced again, it does not change.
pub fn exported_files_stay()
    ensures { ExportedFilesStay }
{}

/// If `export` writes a file, this file does not crash Keyman's own engine.
#[tactic(auto, using(crate::proofs::ConvertedExports::exports_are_safe))]
pub fn exports_are_safe()
    ensures { ExportsAreSafe }
{}

/// If `export` writes a file, converted or not, it takes the same steps as the given file for every list of events, and has its size.
#[tactic(auto, using(crate::proofs::ConvertedExports::exports_play_alike, crate::proofs::ConvertedExports::exports_keep_size))]
pub fn exports_play_alike()
    ensures alike { ExportsPlayAlike }
    ensures size { ExportsKeepSize }
{}

/// If `saving_line` returns no line, no event of the keyboard saves twice, for every list of events.
#[tactic(auto, using(crate::proofs::SavedOnce::no_event_saves_twice))]
pub fn no_event_saves_twice()
    ensures { NoEventSavesTwice }
{}
