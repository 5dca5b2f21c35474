//! Names that statements use.

ghost use Rattle.std.specs.Prelude.{◌≡◌, slice_get, IfOk};
ghost use Rattle.std.specs.Option.{option_copied};
ghost use Rattle.rule_model.specs.Naming.{mark_names};
ghost use Rattle.rule_model.specs.Src.{pattern_uses};
ghost use Rattle.store_table.specs.Known.{option_named};
ghost use Rattle.store_table.specs.Names.{group_named, store_named};
ghost use Rattle.source_uses.specs.Uses.{elements_used, filled, index_named, matched_store, named_as, own_key_named, saved_option, set_option, store_read};

use kmn_base::{Memory, Text};
use rule_model::SrcItem;
use std::alloc::Global;

/// A name that a statement at a line uses. Lines count from 1.
#[derive(Drop)]
pub struct Use {
    pub line: u32,
    pub name: Text,
}

/// What an item uses a name for.
#[derive(Clone, Copy)]
pub enum Role {
    /// A store, in any way.
    Store,
    /// A store whose elements are matched or put: `any`, `notany`, `index`, `outs` and `$`.
    Elements,
    /// A store whose elements are matched one by one: `any` and `index`.
    Matched,
    /// The store of `index`.
    Index,
    /// A store that is used as an option.
    OptionStore,
    /// A store whose content is matched, put or compared: `any`, `notany`, `index`, `outs`, `$` and `if`.
    Read,
    /// An option whose value a condition compares.
    Asked,
    /// An option that `set` sets.
    Set,
    /// An option that `save` saves.
    Saved,
    /// A deadkey.
    Mark,
    /// A group that `use` enters.
    Group,
    /// A custom key.
    OwnKey,
}

/// A part of a rule, match or nomatch statement.
#[derive(Clone, Copy)]
pub enum Part {
    Context,
    Key,
    Output,
    /// The context, the key and the output.
    Whole,
}

impl Use {
    /// Returns the same use. Errors: `Memory` if an allocation fails.
    pub fn copy(&self, alloc: Global) -> Result<Use, Memory>
        ensures { IfOk result (λ copy. copy ≡ self.now) }
    {
        let name = self.name.copy(alloc)?;
        Ok(Use {
            line: self.line,
            name,
        })
    }
}

/// Returns the name that an item uses in a role.
pub fn named_as(role: Role, item: &SrcItem) -> Option<&Text>
    ensures { option_copied result ≡ named_as role item.now }
{
    match role {
        Role::Store => store_named(item),
        Role::Elements => elements_used(item),
        Role::Matched => matched_store(item),
        Role::Index => index_named(item),
        Role::OptionStore => option_named(item),
        Role::Read => store_read(item),
        Role::Asked => option_asked(item),
        Role::Set => set_option(item),
        Role::Saved => saved_option(item),
        Role::Mark => mark_named(item),
        Role::Group => group_named(item),
        Role::OwnKey => own_key_named(item),
    }
}

/// Returns the store that an item names.
fn store_named(item: &SrcItem) -> Option<&Text>
    ensures { option_copied result ≡ slice_get (store_named item.now) 0 }
{
    match item {
        SrcItem::Any(name) => Some(name),
        SrcItem::NotAny(name) => Some(name),
        SrcItem::Index(name, _) => Some(name),
        SrcItem::Equal(name, _) => Some(name),
        SrcItem::Unequal(name, _) => Some(name),
        SrcItem::Outs(name) => Some(name),
        SrcItem::Set(name, _) => Some(name),
        SrcItem::Save(name) => Some(name),
        SrcItem::Reset(name) => Some(name),
        _ => None,
    }
}

/// Returns the store whose elements an item matches or puts.
fn elements_used(item: &SrcItem) -> Option<&Text>
    ensures { option_copied result ≡ elements_used item.now }
{
    match item {
        SrcItem::Any(name) => Some(name),
        SrcItem::NotAny(name) => Some(name),
        SrcItem::Index(name, _) => Some(name),
        SrcItem::Outs(name) => Some(name),
        _ => None,
    }
}

/// Returns the store of `any` or `index`.
fn matched_store(item: &SrcItem) -> Option<&Text>
    ensures { option_copied result ≡ matched_store item.now }
{
    match item {
        SrcItem::Any(name) => Some(name),
        SrcItem::Index(name, _) => Some(name),
        _ => None,
    }
}

/// Returns the store of `index`.
fn index_named(item: &SrcItem) -> Option<&Text>
    ensures { option_copied result ≡ index_named item.now }
{
    match item {
        SrcItem::Index(name, _) => Some(name),
        _ => None,
    }
}

/// Returns the store that an item uses as an option.
fn option_named(item: &SrcItem) -> Option<&Text>
    ensures { option_copied result ≡ slice_get (option_named item.now) 0 }
{
    match item {
        SrcItem::Equal(name, _) => Some(name),
        SrcItem::Unequal(name, _) => Some(name),
        SrcItem::Set(name, _) => Some(name),
        SrcItem::Save(name) => Some(name),
        SrcItem::Reset(name) => Some(name),
        _ => None,
    }
}

/// Returns the store whose content an item matches, puts or compares.
fn store_read(item: &SrcItem) -> Option<&Text>
    ensures { option_copied result ≡ store_read item.now }
{
    match item {
        SrcItem::Any(name) => Some(name),
        SrcItem::NotAny(name) => Some(name),
        SrcItem::Index(name, _) => Some(name),
        SrcItem::Outs(name) => Some(name),
        SrcItem::Equal(name, _) => Some(name),
        SrcItem::Unequal(name, _) => Some(name),
        _ => None,
    }
}

/// Returns the option of a condition.
fn option_asked(item: &SrcItem) -> Option<&Text>
    ensures { option_copied result ≡ slice_get (pattern_uses item.now) 0 }
{
    match item {
        SrcItem::Equal(name, _) => Some(name),
        SrcItem::Unequal(name, _) => Some(name),
        _ => None,
    }
}

/// Returns the option that an item sets.
fn set_option(item: &SrcItem) -> Option<&Text>
    ensures { option_copied result ≡ set_option item.now }
{
    match item {
        SrcItem::Set(name, _) => Some(name),
        _ => None,
    }
}

/// Returns the option that an item saves.
fn saved_option(item: &SrcItem) -> Option<&Text>
    ensures { option_copied result ≡ saved_option item.now }
{
    match item {
        SrcItem::Save(name) => Some(name),
        _ => None,
    }
}

/// Returns the deadkey that an item names.
fn mark_named(item: &SrcItem) -> Option<&Text>
    ensures { option_copied result ≡ slice_get (mark_names item.now) 0 }
{
    match item {
        SrcItem::Dead(name) => Some(name),
        _ => None,
    }
}

/// Returns the group that an item names.
fn group_named(item: &SrcItem) -> Option<&Text>
    ensures { option_copied result ≡ slice_get (group_named item.now) 0 }
{
    match item {
        SrcItem::Enter(name) => Some(name),
        _ => None,
    }
}

/// Returns the name of the custom key that an item is.
fn own_key_named(item: &SrcItem) -> Option<&Text>
    ensures { option_copied result ≡ own_key_named item.now }
{
    match item {
        SrcItem::Key(key) => filled(&key.name),
        _ => None,
    }
}

/// Returns a name, unless it is empty.
fn filled(name: &Text) -> Option<&Text>
    ensures { option_copied result ≡ filled name.now }
{
    if name.is_empty() { None } else { Some(name) }
}
