//! Imports a source: an accepted source is kept, any other one is rewritten line by line and must be accepted then.

ghost use Rattle.std.specs.Prelude.{◌≡◌, ◌≤◌, ◌<◌, ◌++◌, [], length, Err, IfOk, MatchOption, OnOk};
ghost use Rattle.kmn_base.specs.Answers.{Answers};
ghost use Rattle.kmn_base.specs.declared.codes.Code.TheVariants.{L05};
ghost use Rattle.kmn_base.specs.declared.refusals.CompileError.TheVariants as CompileError;
ghost use Rattle.kmn_base.specs.declared.limits.TheConstants.{TEXT_BYTES};
ghost use Rattle.kmn_import.specs.Import.{changes_of, rewritten_source, rewritten_imported, with_bytes_change, if_accepted, text_imported, refused_imported, imported};
ghost use Rattle.kmn_import.specs.Utf16.{marked_text};
ghost use Rattle.kmn_lines.specs.Tokens.{refusal};
ghost use Rattle.rule_checker.specs.Refused.{checked};

use crate::change::{Change, Imported};
use crate::utf16::marked_text;
use import_lines::{ChangeKind, InGroup, WrittenLine, rewritten_line};
use import_outline::source_groups;
use kmn_base::limits::TEXT_BYTES;
use kmn_base::slices::before;
use kmn_base::texts::bom_size;
use kmn_base::{Code, CompileError, Memory, Refusal, Seq, Text};
use kmn_compiler::front;
use kmn_lines::lines;
use std::alloc::Global;
use std::str;

/// Imports the bytes of a source. Errors: `Memory` if an allocation fails; else the compiler's refusal of the source, of its text
/// in UTF-8 if its bytes are UTF-16, or of its rewritten text. `TooLarge` is never returned.
#[tactic(auto, unfolding(crate::specs::Import::imported))]
pub fn import(alloc: Global, bytes: &[u8]) -> Result<Imported, CompileError>
    ensures { Answers (imported bytes.now) result }
{
    match front(alloc, bytes) {
        Ok(_) => Ok(kept(alloc, bytes)?),
        Err(CompileError::Refused(refusal)) => refused_imported(alloc, bytes, refusal),
        Err(error) => Err(error),
    }
}

/// Returns a text that is kept. Errors: `Memory` if an allocation fails.
fn kept(alloc: Global, bytes: &[u8]) -> Result<Imported, Memory>
    ensures { IfOk result (λ new. new ≡ record { text = bytes.now; changes = [] }) }
{
    Ok(Imported {
        text: Seq::from_slice(alloc, bytes)?,
        changes: Seq::new(alloc),
    })
}

/// Imports a refused source. Errors: as in `import`.
fn refused_imported(alloc: Global, bytes: &[u8], refusal: Refusal) -> Result<Imported, CompileError>
    ensures { Answers (refused_imported bytes.now refusal (marked_text bytes.now)) result }
{
    let Some(text) = marked_text(alloc, bytes)? else {
        return text_imported(alloc, bytes, refusal);
    };
    let new = text_of_bytes(alloc, text.as_slice())?;
    Ok(with_bytes_change(alloc, new)?)
}

/// Imports the text of a source in UTF-16. Errors: as in `import`.
fn text_of_bytes(alloc: Global, text: &[u8]) -> Result<Imported, CompileError>
    ensures { Answers (text_imported text.now (checked text.now)) result }
{
    match front(alloc, text) {
        Ok(_) => Ok(kept(alloc, text)?),
        Err(CompileError::Refused(refusal)) => text_imported(alloc, text, refusal),
        Err(error) => Err(error),
    }
}

/// Adds the change of the bytes to an imported text. Errors: `Memory` if an allocation fails.
fn with_bytes_change(alloc: Global, new: Imported) -> Result<Imported, Memory>
    ensures { IfOk result (λ told. told ≡ with_bytes_change new) }
{
    let mut changes = Seq::new(alloc);
    changes.add(Change {
        line: 1,
        kind: ChangeKind::Bytes,
    })?;
    changes.append(new.changes)?;
    Ok(Imported {
        text: new.text,
        changes,
    })
}

/// Rewrites a text that was refused. Errors: as in `import`.
fn text_imported(alloc: Global, text: &[u8], refusal: Refusal) -> Result<Imported, CompileError>
    ensures { Answers (text_imported text.now (Err refusal)) result }
{
    if text.len() > TEXT_BYTES {
        return Err(CompileError::Refused(refusal));
    }
    match str::from_utf8(text) {
        Ok(source) => source_imported(alloc, source),
        Err(_) => Err(CompileError::Refused(refusal)),
    }
}

/// Rewrites a text that is a source. Errors: as in `import`.
#[tactic(auto, using(crate::proofs::Texts::long_refused))]
fn source_imported(alloc: Global, source: &str) -> Result<Imported, CompileError>
    requires { length source.now ≤ TEXT_BYTES }
    ensures { Answers (rewritten_imported (rewritten_source source.now)) result }
{
    match rewritten_source(alloc, source)? {
        Some(new) => if_accepted(alloc, new),
        None => Err(too_long()),
    }
}

/// Returns the refusal of a text that is longer than a source may be.
fn too_long() -> CompileError
    ensures { result ≡ CompileError.Refused (refusal 1 L05) }
{
    CompileError::Refused(Refusal {
        line: 1,
        code: Code::L05,
    })
}

/// Returns a rewritten text if it is accepted. Errors: as in `import`.
fn if_accepted(alloc: Global, new: Imported) -> Result<Imported, CompileError>
    ensures { Answers (if_accepted new (checked new.text)) result }
{
    match front(alloc, new.text.as_slice()) {
        Ok(_) => Ok(new),
        Err(error) => Err(error),
    }
}

/// Returns a source with each line rewritten, or None if its text is longer than a source may be: no line is written past that
/// length. Errors: `Memory` if an allocation fails.
fn rewritten_source(alloc: Global, source: &str) -> Result<Option<Imported>, Memory>
    requires { length source.now ≤ TEXT_BYTES }
    ensures { IfOk result (λ new. MatchOption new (TEXT_BYTES < length (rewritten_source source.now).text) (λ one. one ≡ rewritten_source source.now)) }
{
    let bytes = source.as_bytes();
    let groups = source_groups(alloc, source)?;
    let mut text = Seq::from_slice(alloc, before(bytes, bom_size(bytes)))?;
    let mut changes = Seq::new(alloc);
    let mut group = Seq::new(alloc);
    for logical in lines(source) {
        let InGroup { line, group: next } = rewritten_line(alloc, source, logical, &groups, group)?;
        add_line(&mut text, &mut changes, logical.first_line, line)?;
        if text.len() > TEXT_BYTES {
            return Ok(None);
        }
        group = next;
    }
    Ok(Some(Imported { text, changes }))
}

/// Appends a line and its changes. Errors: `Memory` if an allocation fails.
fn add_line(
    text: &mut Text,
    changes: &mut Seq<Change>,
    number: u32,
    line: WrittenLine,
) -> Result<(), Memory>
    ensures text { OnOk result (text.new ≡ text.old ++ line.bytes) }
    ensures changes { OnOk result (changes.new ≡ changes.old ++ changes_of number line.kinds) }
{
    let WrittenLine { bytes, kinds } = line;
    add_changes(changes, number, kinds.as_slice())?;
    text.append(bytes)
}

/// Appends the changes of a line. Errors: `Memory` if an allocation fails.
fn add_changes(changes: &mut Seq<Change>, line: u32, kinds: &[ChangeKind]) -> Result<(), Memory>
    ensures { OnOk result (changes.new ≡ changes.old ++ changes_of line kinds.now) }
{
    for kind in kinds {
        changes.add(Change { line, kind: *kind })?;
    }
    Ok(())
}
