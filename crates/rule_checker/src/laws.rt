//! Laws of accepted programs, each the contract of a function with an empty body.

ghost use Rattle.rule_checker.specs.Laws.{AcceptedIsWellNamed, AcceptedCanBeWritten, KeysHaveCodes, StoresAreCounted, RecordsAreCounted};

/// Every name that an accepted program uses is stated, and its keys can be distinguished. So its tables keep its meaning.
pub fn accepted_is_well_named()
    ensures { AcceptedIsWellNamed }
{}

/// The tables of an accepted program keep every limit of a file, and each of their items has a spelling and points only to what
/// exists.
pub fn accepted_can_be_written()
    ensures { AcceptedCanBeWritten }
{}

/// The names of an accepted program have a code for each word of its dictionary, and no other code.
pub fn keys_have_codes()
    ensures { KeysHaveCodes }
{}

/// The limits count the statements of the source in order. The counts over all statements are the counts of the file.
pub fn limits_count_the_file()
    ensures stores { StoresAreCounted }
    ensures records { RecordsAreCounted }
{}
