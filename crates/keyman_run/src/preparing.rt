//! What a run does before it writes: it reads its inputs by name and compiles sources. A `Stop` states why it goes no further.

ghost use Rattle.std.specs.Prelude.{◌≡◌, Some, IfOk};
ghost use Rattle.rule_model.specs.Src.{src};
ghost use Rattle.rule_model.specs.Tab.{tab};
ghost use Rattle.kmn_compiler.specs.Picture.{picture_name};
ghost use Rattle.keyman_run.specs.Orders.{bytes_work, compiled_work, file_work, job_work, picture_work, script_work, source_work};
ghost use Rattle.keyman_run.specs.Steps.{Gives, IsCompiled, itself, prepared_job, at_line_one, read_stop};

use keyman_words::{FileName, LONG_FILE, Reason, beside, read};
use kmn_base::limits::{FILE_BYTES, PICTURE_BYTES, TEXT_BYTES};
use kmn_base::{Code, CompileError, Memory, Refusal, Seq};
use kmn_compiler::{Compiled, back, front, picture_name};
use kmn_outside::{Folder, ReadError};
use kmx_verifier::VerifyError;
use load_maker::LoadError;
use play_script::{ScriptError, read_script};
use play_session::Session;
use rule_checker::Checked;
use rule_model::Entry;
use std::alloc::Global;
use virtual_keys::KeyDictionary;

/// Why a run stops before it writes.
#[derive(Clone, Copy)]
pub enum Stop {
    Refused(Reason),
    ReadFault,
    Memory,
}

impl From<Memory> for Stop {
    ghost use Rattle.keyman_run.specs.declared.preparing.Stop.TheVariants as stop;

    ghost from_gives = { λ _ given. given ≡ stop.Memory };

    fn from(_memory: Memory) -> Stop {
        Stop::Memory
    }
}

impl From<CompileError> for Stop {
    ghost use Rattle.keyman_run.specs.Steps.{compile_stop};

    ghost from_gives = { λ error given. given ≡ compile_stop error };

    fn from(error: CompileError) -> Stop {
        match error {
            CompileError::Refused(refusal) => Stop::Refused(Reason::Line(refusal)),
            CompileError::TooLarge { code, size } => Stop::Refused(Reason::Size { code, size }),
            CompileError::Memory => Stop::Memory,
        }
    }
}

impl From<ScriptError> for Stop {
    ghost use Rattle.keyman_run.specs.Steps.{script_stop};

    ghost from_gives = { λ error given. given ≡ script_stop error };

    fn from(error: ScriptError) -> Stop {
        match error {
            ScriptError::Refused(refusal) => Stop::Refused(Reason::Line(refusal)),
            ScriptError::Memory => Stop::Memory,
        }
    }
}

impl From<VerifyError> for Stop {
    ghost use Rattle.keyman_run.specs.Steps.{verify_stop};

    ghost from_gives = { λ error given. given ≡ verify_stop error };

    fn from(error: VerifyError) -> Stop {
        match error {
            VerifyError::Refused(fault) => Stop::Refused(Reason::File(fault)),
            VerifyError::Memory => Stop::Memory,
        }
    }
}

impl From<LoadError> for Stop {
    ghost use Rattle.keyman_run.specs.Steps.{load_stop};

    ghost from_gives = { λ error given. given ≡ load_stop error };

    fn from(error: LoadError) -> Stop {
        match error {
            LoadError::Range => Stop::Refused(Reason::Number),
            LoadError::Memory => Stop::Memory,
        }
    }
}

/// A compiled keyboard and the script to play on it.
#[derive(Drop)]
pub struct Prepared {
    pub compiled: Compiled,
    pub entries: Seq<Entry>,
}

/// The reason for refusing a bitmap over the size limit. It reports the limit plus 1, since the size itself is not known.
const LONG_PICTURE: Reason = Reason::Size {
    code: Code::C24,
    size: PICTURE_BYTES as u64 + 1,
};

/// Reads and compiles the source with its bitmap, then reads the script.
pub fn prepare<F: Folder>(
    alloc: Global,
    source: &FileName<'_>,
    keys: &FileName<'_>,
    folder: &mut F,
) -> Result<Prepared, Stop>
    ensures compiled { IfOk result (λ prepared. IsCompiled prepared.compiled) }
    ensures gives { Gives prepared_job (job_work source.now keys.now) F.Folder folder.old folder.new result }
{
    let checked = read_source(alloc, source, folder)?;
    let compiled = compile_beside(alloc, source, &checked, folder)?;
    let entries = read_entries(alloc, keys, key_names(&checked), folder)?;
    Ok(Prepared { compiled, entries })
}

/// Reads a source by name and checks it.
fn read_source<F: Folder>(
    alloc: Global,
    name: &FileName<'_>,
    folder: &mut F,
) -> Result<Checked, Stop>
    ensures { Gives itself (source_work name.now) F.Folder folder.old folder.new result }
{
    let source = read(alloc, name, TEXT_BYTES, folder).map_err(|error| read_stop(
        error,
        at_line_one(Code::L05),
    ))?;
    Ok(front(alloc, source.as_slice())?)
}

/// Reads the bitmap that a source's program names and compiles the program with it.
pub fn compile_beside<F: Folder>(
    alloc: Global,
    source: &FileName<'_>,
    checked: &Checked,
    folder: &mut F,
) -> Result<Compiled, Stop>
    ensures compiled { IfOk result IsCompiled }
    ensures gives { Gives itself (file_work source.now checked.now) F.Folder folder.old folder.new result }
{
    let picture = read_picture(alloc, source, checked, folder)?;
    Ok(back(alloc, checked, picture.as_slice())?)
}

/// Reads the bitmap that a program names, in the folder of its source. Returns no bytes if the program names none.
fn read_picture<F: Folder>(
    alloc: Global,
    source: &FileName<'_>,
    checked: &Checked,
    folder: &mut F,
) -> Result<Seq<u8>, Stop>
    ensures { Gives itself (picture_work source.now (picture_name checked.now)) F.Folder folder.old folder.new result }
{
    match picture_name(alloc, checked)? {
        Some(name) => read_named_picture(alloc, source, &FileName::of(&name), folder),
        None => Ok(Seq::new(alloc)),
    }
}

/// Reads the bitmap with this name in the folder of a source.
fn read_named_picture<F: Folder>(
    alloc: Global,
    source: &FileName<'_>,
    picture: &FileName<'_>,
    folder: &mut F,
) -> Result<Seq<u8>, Stop>
    ensures { Gives itself (picture_work source.now (Some picture.now)) F.Folder folder.old folder.new result }
{
    let name = beside(alloc, source, picture)?;
    read(alloc, &FileName::of(&name), PICTURE_BYTES, folder).map_err(|error| read_stop(
        error,
        LONG_PICTURE,
    ))
}

/// Reads a script by name for a keyboard with these key names.
pub fn read_entries<F: Folder>(
    alloc: Global,
    keys: &FileName<'_>,
    names: &KeyDictionary,
    folder: &mut F,
) -> Result<Seq<Entry>, Stop>
    ensures { Gives itself (script_work names.now keys.now) F.Folder folder.old folder.new result }
{
    let script = read(alloc, keys, TEXT_BYTES, folder).map_err(|error| read_stop(
        error,
        at_line_one(Code::P06),
    ))?;
    Ok(read_script(alloc, script.as_slice(), names)?)
}

/// Reads a source by name and compiles it with the bitmap that it names.
pub fn read_and_compile<F: Folder>(
    alloc: Global,
    name: &FileName<'_>,
    folder: &mut F,
) -> Result<Compiled, Stop>
    ensures compiled { IfOk result IsCompiled }
    ensures gives { Gives itself (compiled_work name.now) F.Folder folder.old folder.new result }
{
    let checked = read_source(alloc, name, folder)?;
    compile_beside(alloc, name, &checked, folder)
}

/// Returns the names of a program's custom keys.
#[tactic(auto, using(rule_checker::proofs::Within::keys_are_coded))]
pub fn key_names(checked: &Checked) -> &KeyDictionary
    ensures { result.now ≡ (src checked.now).dictionary }
{
    // The lemma needs the contract of this call: the program was read and is not refused.
    let _program = checked.program();
    checked.names().keys()
}

/// Reads a compiled keyboard by name.
pub fn read_file<F: Folder>(
    alloc: Global,
    name: &FileName<'_>,
    folder: &mut F,
) -> Result<Seq<u8>, Stop>
    ensures { Gives itself (bytes_work name.now) F.Folder folder.old folder.new result }
{
    read(alloc, name, FILE_BYTES, folder).map_err(|error| read_stop(error, Reason::File(LONG_FILE)))
}

/// Returns the names of the custom keys of a session's keyboard.
pub fn own_names<'s>(session: &'s Session<'_>) -> &'s KeyDictionary
    ensures { result.now ≡ (tab session.now.tables).dictionary }
{
    session.engine().names()
}

/// Reads a script by name for the keyboard of a session.
pub fn read_own_entries<F: Folder>(
    alloc: Global,
    session: &Session<'_>,
    keys: &FileName<'_>,
    folder: &mut F,
) -> Result<Seq<Entry>, Stop>
    ensures { Gives itself (script_work (tab session.now.tables).dictionary keys.now) F.Folder folder.old folder.new result }
{
    read_entries(alloc, keys, own_names(session), folder)
}

/// Returns a refusal at line 1.
pub fn at_line_one(code: Code) -> Reason
    ensures { result ≡ at_line_one code }
{
    Reason::Line(Refusal { line: 1, code })
}

/// Returns why a run stops if an input was not read. An input over its limit is refused for the reason `long`.
pub fn read_stop(error: ReadError, long: Reason) -> Stop
    ensures { result ≡ read_stop long error }
{
    match error {
        ReadError::Failed => Stop::ReadFault,
        ReadError::Over(_) => Stop::Refused(long),
        ReadError::Memory => Stop::Memory,
    }
}
