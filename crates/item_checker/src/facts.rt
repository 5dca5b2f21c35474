//! The facts that the items of a program are checked with.

ghost use Rattle.std.specs.Prelude.{◌≡◌, ℕ, List, ◌&&◌, not, true, ◌++◌, IfOk, OnOk, map, option_to_list};
ghost use Rattle.std.specs.List.{flat_map, list_any};
ghost use Rattle.std.specs.Option.{option_copied};
ghost use Rattle.rule_model.specs.declared.program.GroupDef.{GroupDef};
ghost use Rattle.std.specs.Str.{bytes_eq};
ghost use Rattle.store_table.specs.Known.{known, option_named, rule_options};
ghost use Rattle.item_checker.specs.Summaries.{are_found_keys, found_lacks_characters, has_key, has_other, is_layout_front, is_system_front, is_unfit_summary, is_version_front, lacks_characters};

use crate::summaries::{Summaries, Summary, found_summary, items_summary, stores_summaries};
use kmn_base::Memory;
use kmx_format::file_versions;
use rule_model::system::{MNEMONIC_LAYOUT, VERSION};
use rule_model::{GroupDef, Program, RuleDef, SrcItem, StoreDef};
use std::alloc::Global;
use std::marker::Model;
use store_table::NameTable;

/// The stores of a program, each with a summary of its elements, and the names of its options. Contracts model it as the facts
/// that the program's items are checked with.
#[derive(Drop)]
pub struct Facts<'a> {
    program: &'a Program,
    stores: Summaries,
    options: NameTable,
}

impl<'a> Model for Facts<'a> {
    ghost use Rattle.store_table.specs.Known.{Known, known};
    ghost use Rattle.item_checker.specs.Summaries.{AreFacts};

    ghost Value = { Known };

    ghost view = { λ f. known f.program.now };

    ghost invariant = { λ f. AreFacts (known f.program.now) f.stores f.options };
}

impl<'a> Facts<'a> {
    ghost use Rattle.std.specs.List.{list_any};
    ghost use Rattle.rule_model.specs.Naming.{elements_named};
    ghost use Rattle.item_checker.specs.Items.{is_no_character, is_no_plain_key, is_option, is_other_text, is_unfit_store, has_virtual_key};

    /// Returns the facts that the items of a program are checked with. Errors: `Memory` if an allocation fails.
    #[tactic(auto, unfolding(store_table::specs::Known::known))]
    pub fn of(alloc: Global, program: &'a Program) -> Result<Facts<'a>, Memory>
        ensures { IfOk result (λ facts. facts ≡ known program.now) }
    {
        let stores = stores_summaries(alloc, program.stores.as_slice())?;
        let options = options_of(alloc, program.groups.as_slice())?;
        Ok(Facts {
            program,
            stores,
            options,
        })
    }

    /// Returns whether a store is an option.
    pub fn is_option(&self, name: &[u8]) -> bool
        ensures { result ≡ is_option self.now name.now }
    {
        self.options.has(name)
    }

    /// Returns whether a store is empty or has an element that cannot be a key.
    pub fn is_unfit_store(&self, name: &[u8]) -> bool
        ensures { result ≡ is_unfit_store self.now name.now }
    {
        is_unfit(found_summary(&self.stores, name))
    }

    /// Returns whether a store has a virtual key.
    pub fn has_virtual_key(&self, name: &[u8]) -> bool
        ensures { result ≡ has_virtual_key self.now name.now }
    {
        has_key(found_summary(&self.stores, name))
    }

    /// Returns whether an element of a store is not a character.
    pub fn lacks_characters(&self, name: &[u8]) -> bool
        ensures { result ≡ list_any is_no_character (elements_named self.now.stores name.now) }
    {
        found_lacks_characters(found_summary(&self.stores, name))
    }

    /// Returns whether an element of a store is not a plain key.
    pub fn lacks_plain_keys(&self, name: &[u8]) -> bool
        ensures { result ≡ list_any is_no_plain_key (elements_named self.now.stores name.now) }
    {
        has_other(found_summary(&self.stores, name))
    }

    /// Returns whether a store statement has another text than its system store may have. Errors: `Memory` if an allocation fails.
    pub fn is_other_text(&self, alloc: Global, store: &StoreDef) -> Result<bool, Memory>
        requires { are_found_keys self.now.names store.now.items ≡ true }
        ensures { IfOk result (λ other. other ≡ is_other_text self.now store.now) }
    {
        if store.system == VERSION || store.system == MNEMONIC_LAYOUT {
            let sum = items_summary(alloc, &self.stores, store.items.as_slice())?;
            Ok(is_other(store.system, &sum))
        } else {
            Ok(false)
        }
    }
}

/// Returns whether a summary is the summary of another text than the system store may have.
fn is_other(system: u32, sum: &Summary) -> bool
    ensures { result ≡ (not (lacks_characters sum.now) && not (is_system_front system sum.now.front)) }
{
    !lacks_characters(sum) && !is_system_front(system, sum.front.as_slice())
}

/// Returns whether a summary is empty or has an element that cannot be a key.
fn is_unfit(found: Option<&Summary>) -> bool
    ensures { result ≡ is_unfit_summary (option_copied found.entry) }
{
    match found {
        Some(sum) => sum.is_empty || (sum.has_mark || sum.has_far),
        None => true,
    }
}

/// Returns whether a summary has a virtual key.
fn has_key(found: Option<&Summary>) -> bool
    ensures { result ≡ has_key (option_copied found.entry) }
{
    match found {
        Some(sum) => sum.has_key,
        None => false,
    }
}

/// Returns whether an element of a summary is not a plain key.
fn has_other(found: Option<&Summary>) -> bool
    ensures { result ≡ has_other (option_copied found.entry) }
{
    match found {
        Some(sum) => sum.has_other,
        None => false,
    }
}

/// Returns whether an element of a summary is not a character.
fn lacks_characters(sum: &Summary) -> bool
    ensures { result ≡ lacks_characters sum.now }
{
    sum.has_mark || sum.has_key
}

/// Returns whether an element of an optional summary is not a character.
fn found_lacks_characters(found: Option<&Summary>) -> bool
    ensures { result ≡ found_lacks_characters (option_copied found.entry) }
{
    match found {
        Some(sum) => lacks_characters(sum),
        None => false,
    }
}

/// Returns whether characters are an ASCII text.
fn is_text(text: &[u8], front: &[char]) -> bool
    ensures { result ≡ bytes_eq text.now front.now }
{
    match text {
        [] => front.is_empty(),
        [byte, rest @ ..] => match front {
            [c, others @ ..] => char::from(*byte) == *c && is_text(rest, others),
            [] => false,
        },
    }
}

/// Returns whether characters are a text of a table.
fn is_text_in(table: &[(&str, u16)], front: &[char]) -> bool
    ensures { result ≡ list_any (λ (row : List ℕ × ℕ). bytes_eq row.0 front.now) (map (λ row. (row.0.now, row.1)) table.now) }
{
    for row in table {
        if is_text(row.0.as_bytes(), front) {
            return true;
        }
    }
    false
}

/// Returns whether the first characters are a version that a file can have.
fn is_version_front(front: &[char]) -> bool
    ensures { result ≡ is_version_front front.now }
{
    is_text_in(file_versions(), front)
}

/// Returns whether the first characters are a text that a system store may have.
fn is_system_front(system: u32, front: &[char]) -> bool
    ensures { result ≡ is_system_front system front.now }
{
    match system {
        VERSION => is_version_front(front),
        MNEMONIC_LAYOUT => is_text(b"0", front),
        _ => true,
    }
}

/// Adds the name of the option that an item uses.
fn add_option(options: &mut NameTable, item: &SrcItem) -> Result<(), Memory>
    ensures { OnOk result (options.new ≡ options.old ++ option_named item.now) }
{
    match item {
        SrcItem::Equal(name, _) => options.push(name.as_slice()),
        SrcItem::Unequal(name, _) => options.push(name.as_slice()),
        SrcItem::Set(name, _) => options.push(name.as_slice()),
        SrcItem::Save(name) => options.push(name.as_slice()),
        SrcItem::Reset(name) => options.push(name.as_slice()),
        _ => Ok(()),
    }
}

/// Adds the names of the options that items use.
fn add_options(options: &mut NameTable, items: &[SrcItem]) -> Result<(), Memory>
    ensures { OnOk result (options.new ≡ options.old ++ flat_map option_named items.now) }
{
    for item in items {
        add_option(options, item)?;
    }
    Ok(())
}

/// Adds the names of the options that the key of a rule uses.
fn add_key_options(options: &mut NameTable, key: &Option<SrcItem>) -> Result<(), Memory>
    ensures { OnOk result (options.new ≡ options.old ++ flat_map option_named (option_to_list key.now)) }
{
    match key {
        Some(item) => add_option(options, item),
        None => Ok(()),
    }
}

/// Adds the names of the options that a rule uses.
#[tactic(auto, using(crate::proofs::Options::rule_options_are))]
fn add_rule_options(options: &mut NameTable, rule: &RuleDef) -> Result<(), Memory>
    ensures { OnOk result (options.new ≡ options.old ++ rule_options rule.now) }
{
    add_options(options, rule.context.as_slice())?;
    add_key_options(options, &rule.key)?;
    add_options(options, rule.output.as_slice())
}

/// Adds the names of the options that rules use.
fn add_rules_options(options: &mut NameTable, rules: &[RuleDef]) -> Result<(), Memory>
    ensures { OnOk result (options.new ≡ options.old ++ flat_map rule_options rules.now) }
{
    for rule in rules {
        add_rule_options(options, rule)?;
    }
    Ok(())
}

/// Returns the names of the options of a program, as often as its rules use them. Errors: `Memory` if an allocation fails.
fn options_of(alloc: Global, groups: &[GroupDef]) -> Result<NameTable, Memory>
    ensures { IfOk result (λ options. options ≡ flat_map rule_options (flat_map (λ (group : GroupDef). group.rules) groups.now)) }
{
    let mut options = NameTable::new(alloc);
    for group in groups {
        add_rules_options(&mut options, group.rules.as_slice())?;
    }
    Ok(options)
}
