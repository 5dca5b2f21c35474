//! The detail of a refusal, by its code.

ghost use Rattle.std.specs.Prelude.{◌≡◌, ◌≤◌, length, IfOk};
ghost use Rattle.kmn_base.specs.declared.limits.TheConstants.{TEXT_BYTES};
ghost use Rattle.refusal_details.specs.Details.{detail_about, detail_in, key_detail, subject_of, system_detail, word_detail};

use crate::defined::defined;
use crate::definitions::KnownNames;
use crate::detail::Detail;
use crate::keys::meant;
use crate::nearest::lacked;
use crate::systems::like_systems;
use crate::words::{WrongToken, source_text, worded};
use kmn_base::{Code, Memory, Refusal, Seq};
use refusal_places::name_at;
use source_names::NameFault;
use std::alloc::Global;

/// What the detail of a refusal is about.
#[derive(Clone, Copy)]
pub(crate) enum Subject {
    /// The meaning of the code says enough.
    Nothing,
    /// A store that is defined before, and a group that is.
    StoreAgain,
    GroupAgain,
    /// A store that is not defined, and a group that is not.
    NoStore,
    NoGroup,
    /// The word of the line that is wrong.
    Word(WrongToken),
    /// A word in the brackets of a virtual key, and the name of a system store.
    KeyWord,
    SystemName,
}

/// Returns the detail of a refusal of a source in UTF-8, given the causes for which names refuse its lines and the names that it defines.
/// Errors: `Memory` if an allocation fails.
#[tactic(auto, unfolding(crate::specs::Details::detail_in))]
pub(crate) fn detail_in(
    alloc: Global,
    source: &str,
    faults: &[NameFault],
    names: &KnownNames,
    refusal: Refusal,
) -> Result<Detail, Memory>
    requires { length source.now ≤ TEXT_BYTES }
    ensures { IfOk result (λ detail. detail ≡ detail_in source.now faults.now names.now refusal) }
{
    let subject = subject_of(refusal.code);
    let name = name_at(refusal.line, faults);
    detail_about(alloc, subject, source, name, names, refusal)
}

/// Returns what the detail of a refusal with a code is about.
#[tactic(auto, unfolding(crate::specs::Details::subject_of))]
fn subject_of(code: Code) -> Subject
    ensures { result ≡ subject_of code }
{
    match code {
        Code::C03 => Subject::StoreAgain,
        Code::C04 => Subject::GroupAgain,
        Code::C05 => Subject::NoStore,
        Code::C06 => Subject::NoGroup,
        Code::L04 | Code::S02 | Code::S05 | Code::S06 | Code::S09 => {
            Subject::Word(WrongToken::Stop)
        }
        Code::S01 => Subject::Word(WrongToken::Statement),
        Code::S11 => Subject::KeyWord,
        Code::S12 => Subject::SystemName,
        Code::C11 => Subject::Word(WrongToken::CallName),
        Code::C12 => Subject::Word(WrongToken::LeftOut),
        _ => Subject::Nothing,
    }
}

/// Returns the detail of a refusal about a subject. `name` is the name that the line lacks.
fn detail_about(
    alloc: Global,
    subject: Subject,
    source: &str,
    name: &[u8],
    names: &KnownNames,
    refusal: Refusal,
) -> Result<Detail, Memory>
    requires { length source.now ≤ TEXT_BYTES }
    ensures { IfOk result (λ detail. detail ≡ detail_about subject source.now name.now names.now refusal) }
{
    match subject {
        Subject::Nothing => Ok(Detail::Nothing),
        Subject::StoreAgain => defined(alloc, refusal.line, names.stores.as_slice()),
        Subject::GroupAgain => defined(alloc, refusal.line, names.groups.as_slice()),
        Subject::NoStore => lacked(alloc, name, names.stores.as_slice()),
        Subject::NoGroup => lacked(alloc, name, names.groups.as_slice()),
        Subject::Word(wrong) => word_detail(alloc, source, refusal, wrong),
        Subject::KeyWord => key_detail(alloc, source, refusal),
        Subject::SystemName => system_detail(alloc, source, refusal),
    }
}

/// Returns the word of the refused line that is wrong.
#[tactic(auto, unfolding(crate::specs::Details::word_detail))]
fn word_detail(
    alloc: Global,
    source: &str,
    refusal: Refusal,
    wrong: WrongToken,
) -> Result<Detail, Memory>
    requires { length source.now ≤ TEXT_BYTES }
    ensures { IfOk result (λ detail. detail ≡ word_detail source.now refusal wrong) }
{
    let word = source_text(alloc, source, refusal.line, refusal.code, wrong)?;
    Ok(worded(word, Seq::new(alloc)))
}

/// Returns the word of the refused line that is wrong, with the names of keys and modifiers that it may mean.
#[tactic(auto, unfolding(crate::specs::Details::key_detail))]
fn key_detail(alloc: Global, source: &str, refusal: Refusal) -> Result<Detail, Memory>
    requires { length source.now ≤ TEXT_BYTES }
    ensures { IfOk result (λ detail. detail ≡ key_detail source.now refusal) }
{
    let word = source_text(alloc, source, refusal.line, refusal.code, WrongToken::Stop)?;
    let near = meant(alloc, word.as_slice())?;
    Ok(worded(word, near))
}

/// Returns the word of the refused line that is wrong, with the names of system stores that it is like.
#[tactic(auto, unfolding(crate::specs::Details::system_detail))]
fn system_detail(alloc: Global, source: &str, refusal: Refusal) -> Result<Detail, Memory>
    requires { length source.now ≤ TEXT_BYTES }
    ensures { IfOk result (λ detail. detail ≡ system_detail source.now refusal) }
{
    let word = source_text(alloc, source, refusal.line, refusal.code, WrongToken::Stop)?;
    let near = like_systems(alloc, word.as_slice())?;
    Ok(worded(word, near))
}
