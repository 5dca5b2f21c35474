//! A compiled keyboard with all that is looked up in it. Engines on the same file share one.

ghost use Rattle.std.specs.Prelude.{◌≡◌, ◌≤◌, ◌+◌, ◌-◌, None, Some, All, IfOk, IfSome, length, map, option_copied, option_map, slice_get};
ghost use Rattle.kmn_base.specs.declared.items.Element.TheVariants.{Char};
ghost use Rattle.kmn_base.specs.declared.limits.TheConstants.{RECORDS, STORES};
ghost use Rattle.virtual_keys.specs.Dictionary.{name_in};
ghost use Rattle.rule_model.specs.Content.{elements_at, option_number};
ghost use Rattle.rule_model.specs.Keyboard.{Numbered, StoreMeaning, stated};
ghost use Rattle.rule_model.specs.Match.{place_of, same_value};
ghost use Rattle.rule_model.specs.Plain.{option_numbers};
ghost use Rattle.rule_model.specs.System.{has_words};
ghost use Rattle.rule_model.specs.Tab.{tab};
ghost use Rattle.rule_index.specs.Groups.{AreIndexesOf, IsRuleIndexOf};
ghost use Rattle.rule_index.specs.Holdings.{AreHoldersOf};
ghost use Rattle.rule_index.specs.Stores.{store_contents, HaveFewElements};
ghost use Rattle.rule_index.specs.Texts.{IsApart};

use crate::holding::Holding;
use crate::holdings::Holdings;
use crate::options::option_numbers;
use crate::own_names::own_keys;
use crate::rule_index::RuleIndex;
use crate::texts::texts_of;
use crate::values::{number_for, store_numbers};
use indexed_tables::{has_words, number_at, system_elements};
use indexmap::IndexMap;
use kmn_base::{Element, Item, Memory, Seq};
use kmx_parts::{FileGroup, FileStore, FileTables};
use std::alloc::Global;
use std::marker::Model;
use virtual_keys::KeyDictionary;

/// A compiled keyboard with what an engine looks up: the elements of each store, its option number, the stores that contain an item, a
/// number that stores with the same elements share, a store for each text that a store is stated with, an index of each group's records,
/// and the names of custom keys. It copies only elements, contexts, these names, and the characters of texts a second time. In all that
/// is looked up by store, the two system options follow the stores of the file. Contracts model it as the file's tables.
pub struct IndexedKeyboard<'a> {
    alloc: Global,
    file: FileTables<'a>,
    stores: Vec<Seq<Element>>,
    holdings: Holdings,
    values: Vec<usize>,
    texts: IndexMap<Vec<char>, u32>,
    numbers: Vec<Option<usize>>,
    indexes: Vec<RuleIndex>,
    names: KeyDictionary,
}

/// This drop is one call in proofs, while a derived drop is written out at each exit.
impl Drop for IndexedKeyboard<'_> {
    fn drop(self) {
        let IndexedKeyboard {
            alloc: _,
            file: _,
            stores: _,
            holdings: _,
            values: _,
            texts: _,
            numbers: _,
            indexes: _,
            names: _,
        } = self;
    }
}

impl<'a> Model for IndexedKeyboard<'a> {
    ghost use Rattle.std.specs.Prelude.{◌≡◌, ◌≤◌, [], ◌∷◌, length, map};
    ghost use Rattle.kmn_base.specs.declared.limits.TheConstants.{STORES};
    ghost use Rattle.rule_model.specs.declared.tables.Tables.{Tables};
    ghost use Rattle.rule_model.specs.Plain.{option_numbers};
    ghost use Rattle.rule_model.specs.Tab.{tab};
    ghost use Rattle.rule_index.specs.Groups.{AreIndexesOf};
    ghost use Rattle.rule_index.specs.Holdings.{AreHoldings};
    ghost use Rattle.rule_model.specs.Keyboard.{stated};
    ghost use Rattle.rule_index.specs.Texts.{AreTexts};
    ghost use Rattle.rule_index.specs.Values.{value_code, AreNumbersOf};

    ghost Value = { Tables };

    ghost view = { λ keyboard. keyboard.file };

    ghost invariant = { λ keyboard.
        (keyboard.numbers.items ≡ option_numbers 0 (tab keyboard.file).stores)
        × AreIndexesOf keyboard.file.groups keyboard.indexes.items
        × (keyboard.names ≡ (tab keyboard.file).dictionary)
        × (keyboard.stores.items ≡ stated (tab keyboard.file).stores)
        × AreHoldings (stated (tab keyboard.file).stores) keyboard.holdings
        × AreNumbersOf (map value_code ([] ∷ stated (tab keyboard.file).stores)) keyboard.values.items
        × (length keyboard.file.stores ≤ STORES)
        × AreTexts (stated (tab keyboard.file).stores) (length (stated (tab keyboard.file).stores)) keyboard.texts.entries };
}

/// Copies the elements of a store without spare capacity: a file can have four million elements.
fn copied(alloc: Global, store: &FileStore<'_>) -> Result<Seq<Element>, Memory>
    ensures { IfOk result (λ copied. copied ≡ store.now.elements) }
{
    let mut copied = Vec::with_capacity(alloc, store.elements().count())?;
    for element in store.elements() {
        copied.push(element)?;
    }
    Ok(Seq::from_vec(copied))
}

/// Returns the elements of each store of a file.
fn stores_of(alloc: Global, file: &FileTables<'_>) -> Result<Vec<Seq<Element>>, Memory>
    ensures { IfOk result (λ stores. stores.items ≡ store_contents file.now.stores) }
{
    let mut stores = Vec::new(alloc);
    for store in file.stores() {
        stores.push(copied(alloc, &store)?)?;
    }
    Ok(stores)
}

/// Returns the elements of each store of a file, followed by the elements of the two system options.
fn all_stores_of(alloc: Global, file: &FileTables<'_>) -> Result<Vec<Seq<Element>>, Memory>
    ensures { IfOk result (λ stores. stores.items ≡ stated (tab file.now).stores) }
{
    let mut stores = stores_of(alloc, file)?;
    stores.push(Seq::from_slice(alloc, system_elements(0))?)?;
    stores.push(Seq::from_slice(alloc, system_elements(1))?)?;
    Ok(stores)
}

/// Creates the index of each group's records.
fn indexes_of(alloc: Global, file: &FileTables<'_>) -> Result<Vec<RuleIndex>, Memory>
    requires { All (λ group. length group.rules ≤ RECORDS) file.now.groups }
    ensures { IfOk result (λ indexes. AreIndexesOf file.now.groups indexes.items) }
{
    let mut indexes = Vec::new(alloc);
    for group in file.groups() {
        let index = RuleIndex::new(alloc, &group)?;
        indexes.push(index)?;
    }
    Ok(indexes)
}

impl<'a> IndexedKeyboard<'a> {
    /// Builds from a file what an engine looks up.
    #[tactic(auto, unfolding(rule_model::specs::Tab::tab))]
    pub fn new(alloc: Global, file: FileTables<'a>) -> Result<IndexedKeyboard<'a>, Memory>
        requires records { All (λ group. length group.rules ≤ RECORDS) file.groups }
        requires elements { HaveFewElements file.stores }
        requires stores { length file.stores ≤ STORES }
        ensures { IfOk result (λ keyboard. keyboard ≡ file.entry) }
    {
        let stores = all_stores_of(alloc, &file)?;
        let values = store_numbers(alloc, stores.as_slice())?;
        let holdings = Holdings::of(alloc, stores.as_slice())?;
        let texts = texts_of(alloc, stores.as_slice())?;
        let numbers = option_numbers(alloc, &file)?;
        let indexes = indexes_of(alloc, &file)?;
        let names = own_keys(alloc, &file)?;
        Ok(IndexedKeyboard {
            alloc,
            file,
            stores,
            holdings,
            values,
            texts,
            numbers,
            indexes,
            names,
        })
    }

    /// Returns the allocator.
    pub fn alloc(&self) -> Global {
        self.alloc
    }

    /// Returns the tables of the file.
    pub fn file(&self) -> FileTables<'a>
        ensures { result ≡ self.now }
    {
        self.file.copy()
    }

    /// Returns the names of the file's custom keys.
    pub fn names(&self) -> &KeyDictionary
        ensures { result.now ≡ (tab self.now).dictionary }
    {
        &self.names
    }

    /// Returns the name of the custom key that has a code.
    pub fn own_key(&self, code: u16) -> Option<&[u8]>
        ensures { option_copied result ≡ name_in (tab self.now).dictionary code }
    {
        self.names.name_at(code)
    }

    /// Returns the number of the Unicode start group.
    pub fn start(&self) -> u32
        ensures { result ≡ self.now.start_unicode }
    {
        self.file.start_unicode()
    }

    /// Returns the group with a number, and the index of its records.
    #[tactic(auto, using(crate::proofs::GroupIndexes::index_within))]
    pub fn group(&self, number: u32) -> Option<(FileGroup<'a>, &RuleIndex)>
        ensures group { option_map (λ found. found.0) result ≡ slice_get self.now.groups number }
        ensures index { IfSome result (λ found. IsRuleIndexOf found.0 found.1.now) }
    {
        match self.file.group(number) {
            Some(group) => Some((group, &self.indexes[number as usize])),
            None => None,
        }
    }

    /// Returns the option number of each store.
    pub fn numbers(&self) -> &[Option<usize>]
        ensures { result.now ≡ option_numbers 0 (tab self.now).stores }
    {
        self.numbers.as_slice()
    }

    /// Returns the option number of a store.
    #[tactic(auto, using(rule_model::proofs::PlainOptions::number_found))]
    pub fn option_number(&self, store: u32) -> Option<usize>
        ensures { result ≡ option_number (tab self.now).stores (Numbered store) }
    {
        number_at(self.numbers.as_slice(), store)
    }

    /// Returns the number of stores: the stores of the file and the two system options.
    #[tactic(auto, using(crate::proofs::StoreIndexes::counted_all, crate::proofs::StoreIndexes::few_in_all))]
    pub fn store_count(&self) -> u32
        ensures value { result ≡ length (tab self.now).stores }
        ensures few { result ≤ STORES + 2 }
    {
        self.stores.len() as u32
    }

    /// Returns the store number of the layer, the first of the two system options.
    #[tactic(auto, using(crate::proofs::StoreIndexes::count_of_all))]
    pub fn layer(&self) -> u32
        ensures { result ≡ length (tab self.now).stores - 2 }
    {
        self.store_count() - 2
    }

    /// Returns the store number of the platform, the last system option.
    #[tactic(auto, using(crate::proofs::StoreIndexes::count_of_all))]
    pub fn platform(&self) -> u32
        ensures { result ≡ length (tab self.now).stores - 1 }
    {
        self.store_count() - 1
    }

    /// Returns the elements that a store is stated with, or no elements if there is no such store.
    #[tactic(auto, using(crate::proofs::StoreIndexes::contents_found, crate::proofs::StoreIndexes::contents_absent))]
    pub fn stated(&self, store: u32) -> &[Element]
        ensures { result.now ≡ elements_at (tab self.now).stores (Some store) }
    {
        match self.stores.get(store as usize) {
            Some(store) => store.as_slice(),
            None => &[],
        }
    }

    /// Returns the first position of an item in a store.
    pub fn place_of(&self, store: u32, item: Item) -> Option<usize>
        ensures { result ≡ place_of item (elements_at (tab self.now).stores (Some store)) }
    {
        match u16::try_from(store) {
            Ok(store) => self.holdings.place_of(store, item),
            Err(_) => None,
        }
    }

    /// Searches for the stores that contain an item and returns them in their order, each with the first position of the item in it.
    pub fn holders(&self, item: Item) -> &[Holding]
        ensures { AreHoldersOf item (λ store. elements_at (tab self.now).stores (Some store)) result.now }
    {
        self.holdings.holders(item)
    }

    /// Returns the element at a position of a store.
    pub fn element_at(&self, store: u32, place: usize) -> Option<Element>
        ensures { result ≡ slice_get (elements_at (tab self.now).stores (Some store)) place }
    {
        self.stated(store).get(place).copied()
    }

    /// Returns whether two stores have the same elements.
    #[tactic(auto, using(crate::proofs::StoreValues::some_numbers, crate::proofs::StoreValues::same_number))]
    pub fn same_elements(&self, store: u32, other: u32) -> bool
        ensures { result ≡ same_value (elements_at (tab self.now).stores (Some store)) (elements_at (tab self.now).stores (Some other)) }
    {
        let values = self.values.as_slice();
        number_for(values, store) == number_for(values, other)
    }

    /// Returns a store that is stated with a text, found by hash. An empty text is also the content of the number after the last
    /// store, which has no elements.
    #[tactic(auto, using(crate::proofs::TextEntries::empty_has_text, crate::proofs::TextEntries::found_has_text, crate::proofs::TextEntries::missing_is_apart))]
    pub fn stated_with(&self, text: &[char]) -> Option<u32>
        ensures same { IfSome result (λ value. elements_at (tab self.now).stores (Some value) ≡ map Char text.now) }
        ensures apart { result ≡ None → IsApart (tab self.now).stores text.now }
    {
        if text.is_empty() {
            return Some(self.store_count());
        }
        let store = self.texts.get(text)?;
        Some(*store)
    }

    /// Sets the flag of each store to whether each word of its elements is a word of a content. Then the number of its value decides a
    /// condition on the platform.
    pub fn find_truths(&self, truths: &mut [bool], content: &[Element])
        requires { length truths.old ≡ length (tab self.now).stores }
        ensures { truths.new ≡ map (λ (store : StoreMeaning). has_words content.now store.elements) (tab self.now).stores }
    {
        for store in 0..self.store_count() {
            truths[store as usize] = has_words(content, self.stated(store));
        }
    }
}
