//! A minimal application: it opens an untrusted compiled keyboard, types in the two fields of a form, and prints the key caps of
//! an on-screen keyboard and the texts of the fields.
//!
//! This is the example of `docs/ENGINE.md`. It depends on `kmx_verifier`, which opens the file, and on the `Host` of `text_host`,
//! which keeps the text of each field, performs one event after the other, and returns what a key would do.
#![tactic(auto)]

ghost use Rattle.std.specs.Prelude.{◌≡◌, ◌++◌, OnOk, encode_utf8_all};
ghost use Rattle.std.specs.String.{string_bytes};

use kmn_base::limits::FILE_BYTES;
use kmn_base::{Event, KeyPress, Memory};
use kmn_outside::{DiskFolder, Folder, ReadError};
use kmx_verifier::{VerifyError, verify};
use std::alloc::{Alloc, Global};
use std::io;
use std::rt::Files;
use text_host::{Host, HostError};
use thiserror::Error;
use virtual_keys::key_named;

/// Why typing failed.
#[derive(Debug, Drop, Error)]
enum TypingError {
    #[error("{0}")]
    Read(#[from] ReadError),
    #[error("{0}")]
    Keyboard(#[from] VerifyError),
    #[error("{0}")]
    Field(#[from] HostError),
    #[error("out of memory")]
    Memory(#[from] Memory),
}

/// Appends a text as UTF-8.
fn put_text(out: &mut String, text: &[char]) -> Result<(), Memory>
    ensures { OnOk result (string_bytes out.new ≡ string_bytes out.old ++ encode_utf8_all text.now) }
{
    for c in text {
        out.push(*c)?;
    }
    Ok(())
}

/// Types keys in a field of a form. Keys that the keyboard passes on are left to the application.
fn type_in(alloc: Global, form: &mut Host, field: u32, keys: &[&str]) -> Result<(), TypingError> {
    for key in keys {
        if let Some(code) = key_named(key.as_bytes()) {
            form.step(alloc, field, &Event::Key(KeyPress { code, mods: 0 }))?;
        }
    }
    Ok(())
}

/// Appends a space and a key cap.
fn put_cap(out: &mut String, cap: &[char]) -> Result<(), Memory> {
    put_text(out, &[' '])?;
    put_text(out, cap)
}

/// Appends a line with the key caps of an on-screen keyboard while a field has the focus: what each key would insert there now.
fn put_caps(
    alloc: Global,
    out: &mut String,
    form: &Host,
    field: u32,
    keys: &[&str],
) -> Result<(), TypingError> {
    put_text(out, &['c', 'a', 'p', 's'])?;
    for key in keys {
        if let Some(code) = key_named(key.as_bytes()) {
            let preview = form.preview(alloc, field, KeyPress { code, mods: 0 })?;
            put_cap(out, preview.inserted.as_slice())?;
        }
    }
    Ok(put_text(out, &['\n'])?)
}

/// Appends a line with the text before the caret of a field.
fn put_field(out: &mut String, form: &Host, field: u32) -> Result<(), TypingError> {
    let session = form.field(field).ok_or(HostError::NoField)?;
    put_text(out, session.editor().left())?;
    Ok(put_text(out, &['\n'])?)
}

/// Types in the two fields of a form: an accent in the first field, and then a vowel in each. Appends the key caps for both
/// fields before the vowels, and the texts of both fields at the end.
fn fill(alloc: Global, form: &mut Host, out: &mut String) -> Result<(), TypingError> {
    let name = form.add(alloc)?;
    let town = form.add(alloc)?;
    type_in(alloc, form, name, &["K_QUOTE"])?;
    put_caps(alloc, out, form, name, &["K_A", "K_E", "K_X"])?;
    put_caps(alloc, out, form, town, &["K_A", "K_E", "K_X"])?;
    type_in(alloc, form, town, &["K_A"])?;
    type_in(alloc, form, name, &["K_A", "K_X"])?;
    put_field(out, form, name)?;
    put_field(out, form, town)
}

/// Fills a form with the keyboard of a file and returns the lines that it appends.
fn typed(alloc: Global, file: &[u8]) -> Result<String, TypingError> {
    let mut out = String::new(alloc);
    let keyboard = verify(alloc, file)?;
    fill(alloc, &mut Host::over(alloc, &keyboard), &mut out)?;
    Ok(out)
}

/// Fills a form with the keyboard in the current folder.
fn typed_here(rt: &(impl Files + Alloc<A = Global>)) -> Result<String, TypingError> {
    let file = DiskFolder::new(rt).read(rt.alloc(), b"accents.kmx", FILE_BYTES)?;
    typed(rt.alloc(), file.as_slice())
}

fn main(rt: HostRuntime) -> io::Result<()> {
    match typed_here(&rt) {
        Ok(text) => print!(rt; "{text}"),
        Err(error) => println!(rt; "{error}"),
    }
}
