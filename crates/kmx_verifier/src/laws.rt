//! Laws of `specs/Laws`, each the contract of a function with an empty body.

ghost use Rattle.kmx_verifier.specs.Looked.{OtherBytesChangeNothing};
ghost use Rattle.kmx_verifier.specs.Laws.{FilesAreValid, ValidFilesCanBePlayed};

/// The tables of a valid file can be played.
pub fn valid_files_can_be_played()
    ensures { ValidFilesCanBePlayed }
{}

/// The file that is written for writable tables and any bitmap is valid, if the file and the bitmap are within their limits.
pub fn files_are_valid()
    ensures { FilesAreValid }
{}

/// If two files of the same length have the same bytes wherever a step reads, they have the same first fault.
pub fn other_bytes_change_nothing()
    ensures { OtherBytesChangeNothing }
{}
