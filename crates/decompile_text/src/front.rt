//! Writes the front stores, which precede the stores of the file: the version, all deadkeys, all custom keys.

ghost use Rattle.std.specs.Prelude.{◌≡◌, ◌++◌, ◌∷◌, [], codes, OnOk};
ghost use Rattle.std.specs.List.{range_with_len};
ghost use Rattle.decompile_text.specs.Pages.{with_text};
ghost use Rattle.decompile_text.specs.Texts.{version_line, marks_text, mark_line, call_text, keys_line, key_line};
ghost use Rattle.decompile_text.specs.OneByOne.{with_keys};

use crate::items::put_call;
use crate::page::Page;
use kmn_base::{Memory, Text};
use kmx_format::version_text;

/// Appends the line of the version.
#[tactic(auto, using(crate::proofs::MoreText::with_text_append, crate::proofs::MoreText::with_no_text))]
pub(crate) fn put_version(page: &mut Page, version: u16) -> Result<(), Memory>
    ensures { OnOk result (page.new ≡ with_text page.old (version_line version)) }
{
    page.put(b"store(&version) \"")?;
    page.put(version_text(version))?;
    page.put(b"\"\n")
}

/// Appends a store of the deadkeys up to a number, if there are any.
#[tactic(auto, using(crate::proofs::MoreText::with_text_append, crate::proofs::MoreText::with_no_text))]
pub(crate) fn put_mark_store(page: &mut Page, name: &[u8], greatest: u16) -> Result<(), Memory>
    ensures { OnOk result (page.new ≡ with_text page.old (mark_line name.now greatest)) }
{
    if greatest == 0 {
        return Ok(());
    }
    put_call(page, b"store", name)?;
    put_marks(page, greatest)?;
    page.put(b"\n")
}

/// Appends the deadkeys up to a number, each preceded by a space.
#[tactic(auto, using(crate::proofs::MoreText::with_text_append, crate::proofs::MoreText::with_no_text, crate::proofs::Marks::next_mark, crate::proofs::Marks::no_mark))]
fn put_marks(page: &mut Page, greatest: u16) -> Result<(), Memory>
    ensures { OnOk result (page.new ≡ with_text page.old (marks_text (range_with_len 1 greatest))) }
{
    for before in 0..greatest {
        page.put(b" dk(")?;
        page.put_number(u32::from(before) + 1)?;
        page.put(b")")?;
    }
    Ok(())
}

/// Appends a store of the custom keys, if there are any.
#[tactic(auto, using(crate::proofs::MoreText::with_no_text))]
pub(crate) fn put_key_store(page: &mut Page, name: &[u8], keys: &[Text]) -> Result<(), Memory>
    ensures { OnOk result (page.new ≡ with_text page.old (key_line name.now keys.now)) }
{
    match keys {
        [] => Ok(()),
        [_, ..] => put_some_keys(page, name, keys),
    }
}

/// Appends a store of keys.
#[tactic(auto, using(crate::proofs::MoreText::with_text_append, crate::proofs::OneByOne::keys_are))]
fn put_some_keys(page: &mut Page, name: &[u8], keys: &[Text]) -> Result<(), Memory>
    ensures { OnOk result (page.new ≡ with_text page.old (call_text (codes "store") name.now ++ (keys_line keys.now ++ 10 ∷ []))) }
{
    put_call(page, b"store", name)?;
    put_keys(page, keys)?;
    page.put(b"\n")
}

/// Appends keys in brackets, each preceded by a space.
fn put_keys(page: &mut Page, keys: &[Text]) -> Result<(), Memory>
    ensures { OnOk result (page.new ≡ with_keys page.old keys.now) }
{
    for key in keys {
        page.put(b" [")?;
        page.put(key.as_slice())?;
        page.put(b"]")?;
    }
    Ok(())
}
