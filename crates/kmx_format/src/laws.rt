//! Laws of the `.kmx` file, each the contract of a function with an empty body.

ghost use Rattle.kmx_format.specs.WorkedFiles.{AreWorkedFiles};
ghost use Rattle.kmx_format.specs.Playable.{WritableIsPlayableWithNames};
ghost use Rattle.kmx_format.specs.Stated.{PlacesAreAsStated, SizesAreAsStated};
ghost use Rattle.kmx_format.specs.FileLaws.{ReadingGivesBack, FilesHaveWritableTables};

/// Reading a file returns the tables that were written.
pub fn reading_gives_back()
    ensures { ReadingGivesBack }
{}

/// The tables that are read from a file are again tables that a file can have.
pub fn files_have_writable_tables()
    ensures { FilesHaveWritableTables }
{}

/// A file can have exactly the tables that can be played and whose names can be written to a file.
#[tactic(auto, using(crate::proofs::FilePlayable::writable_is_playable_with_names))]
pub fn writable_is_playable_with_names()
    ensures { WritableIsPlayableWithNames }
{}

/// The definition of a file has the bytes of two files that were worked out by hand.
pub fn worked_files()
    ensures { AreWorkedFiles }
{}

/// Each word of the header and each field of a record has the offset that the KMX format states.
pub fn places_are_as_stated()
    ensures places { PlacesAreAsStated }
    ensures sizes { SizesAreAsStated }
{}
