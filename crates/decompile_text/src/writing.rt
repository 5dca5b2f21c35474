//! Writes the whole text of a file.

ghost use Rattle.std.specs.Prelude.{◌≡◌, ◌≤◌, ◌++◌, [], length, unwrap_or, slice_get, if◌then◌else◌, IfOk, OnOk};
ghost use Rattle.kmn_base.specs.declared.limits.TheConstants.{KEY_NAMES};
ghost use Rattle.rule_model.specs.Tab.{tab_dictionary};
ghost use Rattle.kmn_parser.specs.Programs.{program_text};
ghost use Rattle.decompile_program.specs.Back.{back, names_for, free_stores, mark_stores, key_stores};
ghost use Rattle.decompile_text.specs.Pages.{with_text};
ghost use Rattle.decompile_text.specs.Whole.{front_text, tables_text, IsFront};

use crate::front::{put_key_store, put_mark_store, put_version};
use crate::lines::{put_begins, put_groups, put_stores};
use crate::page::Page;
use crate::values::SizedNames;
use decompile_program::{greatest_mark, own_keys};
use indexed_tables::IndexedTables;
use kmn_base::{Memory, Text};
use kmx_parts::FileTables;
use std::alloc::Global;

/// Returns the content of the front stores of a file.
#[tactic(auto, unfolding(rule_model::specs::Tab::tab))]
pub fn front_of(
    alloc: Global,
    indexed: &IndexedTables<'_>,
    file: &FileTables<'_>,
) -> Result<Front, Memory>
    requires indexed { indexed.now.stores ≡ file.now.stores }
    requires few { length (tab_dictionary file.now.stores) ≤ KEY_NAMES }
    ensures { IfOk result (λ front. IsFront file.now front) }
{
    Ok(Front {
        marks: greatest_mark(file),
        keys: own_keys(alloc, indexed)?,
    })
}

/// The content of the front stores, except the version: the greatest number of a deadkey, and the custom keys.
#[derive(Drop)]
pub struct Front {
    pub marks: u16,
    pub keys: Vec<Text>,
}

/// Returns the number of front stores that have free names: one for the deadkeys, if any, and one for the custom keys, if any.
#[tactic(auto, using(crate::proofs::FrontCounts::mark_count, crate::proofs::FrontCounts::key_count))]
pub fn front_count(front: &Front, file: &FileTables<'_>) -> usize
    requires { IsFront file.now front.now }
    ensures { result ≡ length (mark_stores file.now ++ key_stores file.now) }
{
    one_if(front.marks > 0) + one_if(front.keys.len() > 0)
}

/// Returns 1 if the argument is true, else 0.
fn one_if(some: bool) -> usize
    ensures { result ≡ (if some then 1 else 0) }
{
    if some { 1 } else { 0 }
}

/// Returns the size of the text of a file in bytes. Does not write the text, so the time is linear in the number of items.
pub fn text_size(
    alloc: Global,
    front: &Front,
    names: &SizedNames<'_>,
    file: &FileTables<'_>,
    free: &[Text],
) -> Result<u64, Memory>
    requires front { IsFront file.now front.now }
    requires free { free.now ≡ free_stores file.now }
    requires names { names.now ≡ names_for file.now }
    ensures { IfOk result (λ size. size ≡ length (program_text (back file.now))) }
{
    let mut page = Page::new(alloc, false);
    put_tables(&mut page, front, names, file, free)?;
    Ok(page.size)
}

/// Appends the text of a file.
#[tactic(auto, using(crate::proofs::MoreText::with_text_append, crate::proofs::OneByOne::stores_are, crate::proofs::OneByOne::groups_are), unfolding(crate::specs::Whole::tables_text))]
fn put_tables(
    page: &mut Page,
    front: &Front,
    names: &SizedNames<'_>,
    file: &FileTables<'_>,
    free: &[Text],
) -> Result<(), Memory>
    requires front { IsFront file.now front.now }
    requires free { free.now ≡ free_stores file.now }
    requires names { names.now ≡ names_for file.now }
    ensures { OnOk result (page.new ≡ with_text page.old (tables_text file.now)) }
{
    let called = names.called();
    put_front(page, front, file, free)?;
    put_stores(page, called, called.elements())?;
    put_begins(page, called, file.start_unicode(), file.start_ansi())?;
    put_groups(page, names, file)
}

/// Appends the front stores: the version, then the stores of deadkeys and custom keys, which have the first of the free names.
fn put_front(
    page: &mut Page,
    front: &Front,
    file: &FileTables<'_>,
    free: &[Text],
) -> Result<(), Memory>
    requires front { IsFront file.now front.now }
    requires free { free.now ≡ free_stores file.now }
    ensures { OnOk result (page.new ≡ with_text page.old (front_text file.now)) }
{
    let first = name_at(free, 0);
    let place = key_place(front, file);
    let second = name_at(free, place);
    let keys = front.keys.as_slice();
    put_version(page, file.version())?;
    put_mark_store(page, first, front.marks)?;
    put_key_store(page, second, keys)?;
    Ok(())
}

/// Returns the name at an index, or an empty name if there is none.
fn name_at(names: &[Text], place: usize) -> &[u8]
    ensures { result.now ≡ unwrap_or (slice_get names.now place) [] }
{
    match names.get(place) {
        Some(name) => name.as_slice(),
        None => &[],
    }
}

/// Returns the index of the name of the key store among the free names.
#[tactic(auto, using(crate::proofs::FrontCounts::mark_count))]
fn key_place(front: &Front, file: &FileTables<'_>) -> usize
    requires { IsFront file.now front.now }
    ensures { result ≡ length (mark_stores file.now) }
{
    one_if(front.marks > 0)
}

/// Returns the text of a file. Does not limit the text: a caller asks `text_size` before.
pub fn text_of(
    alloc: Global,
    front: &Front,
    names: &SizedNames<'_>,
    file: &FileTables<'_>,
    free: &[Text],
) -> Result<Text, Memory>
    requires front { IsFront file.now front.now }
    requires free { free.now ≡ free_stores file.now }
    requires names { names.now ≡ names_for file.now }
    ensures { IfOk result (λ text. text ≡ program_text (back file.now)) }
{
    let mut page = Page::new(alloc, true);
    put_tables(&mut page, front, names, file, free)?;
    Ok(page.text)
}
