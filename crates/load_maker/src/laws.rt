//! Laws of a load, each the contract of a function with an empty body: its source compiles, and its script plays without a
//! refusal.

ghost use Rattle.load_maker.specs.Files.{FilesHaveSizes, FilesPlay, SourcesAreChecked};
ghost use Rattle.load_maker.specs.Plays.{LoadsPlay};
ghost use Rattle.load_maker.specs.Programs.{ProgramsMean};
ghost use Rattle.load_maker.specs.Scripts.{ScriptsAreRead};

/// The program of a load means its keyboard.
#[tactic(auto, using(crate::proofs::LoadPrograms::programs_mean))]
pub fn programs_mean()
    ensures { ProgramsMean }
{}

/// The script of a load is read as its key presses.
pub fn scripts_are_read()
    ensures { ScriptsAreRead }
{}

/// These presses are played on the keyboard of a load without a refusal. In total they output one item for each press, and the text
/// has two characters at the end.
#[tactic(auto, using(crate::proofs::LoadSteps::loads_play))]
pub fn loads_play()
    ensures { LoadsPlay }
{}

/// The source of a load is read as its program and is not refused.
pub fn sources_are_checked()
    ensures { SourcesAreChecked }
{}

/// The file that it compiles to has a record for each rule of the source, and its size depends only on the number.
pub fn files_have_sizes()
    ensures { FilesHaveSizes }
{}

/// The presses have the same result on the compiled tables as on the keyboard.
pub fn files_play()
    ensures { FilesPlay }
{}
