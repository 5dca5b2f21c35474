//! The elements of the stores of a program, as the source names them.

ghost use Rattle.std.specs.Prelude.{◌≡◌, ◌++◌, [], flat_map, IfOk, OnOk};
ghost use Rattle.source_uses.specs.Elements.{brought, contents_of, elements_at, elements_named, no_contents, with_store, with_stores};

use kmn_base::{Memory, Seq, Text};
use rule_model::system::DROPPED;
use rule_model::{KeyName, Program, SrcItem, StoreDef};
use std::alloc::Global;
use store_table::NameTable;

/// An element of a store.
#[derive(Drop)]
pub enum StoreElement {
    Char(char),
    /// A deadkey with its name.
    Mark(Text),
    Key(KeyName),
}

/// The elements of the stores of a program, by name. For `outs` and `$` they are those of the earlier store.
pub struct Contents {
    pub names: NameTable,
    /// The elements of each store, in the order of the names.
    pub elements: Seq<Seq<StoreElement>>,
}

/// One call in proofs. A derived drop would be written out in each exit.
impl Drop for Contents {
    fn drop(self) {
        let Contents {
            names: _,
            elements: _,
        } = self;
    }
}

impl StoreElement {
    /// Returns the same element. Errors: `Memory` if an allocation fails.
    fn copy(&self, alloc: Global) -> Result<StoreElement, Memory>
        ensures { IfOk result (λ copy. copy ≡ self.now) }
    {
        match self {
            StoreElement::Char(c) => Ok(StoreElement::Char(*c)),
            StoreElement::Mark(name) => Ok(StoreElement::Mark(name.copy(alloc)?)),
            StoreElement::Key(key) => Ok(StoreElement::Key(copied_key(alloc, key)?)),
        }
    }
}

impl Contents {
    /// Returns the elements of the stores of a program. Errors: `Memory` if an allocation fails.
    #[tactic(auto, unfolding(crate::specs::Elements::contents_of))]
    pub fn of(alloc: Global, program: &Program) -> Result<Contents, Memory>
        ensures { IfOk result (λ contents. contents ≡ contents_of program.now) }
    {
        contents_of_stores(alloc, program.stores.as_slice())
    }

    /// Returns the elements of the store with a name, and no elements if there is none.
    pub fn named(&self, name: &[u8]) -> &[StoreElement]
        ensures { result.now ≡ elements_named self.now name.now }
    {
        elements_at(self.elements.as_slice(), self.names.place_of(name))
    }
}

/// Returns the elements at a place, and no elements if there is none.
fn elements_at(elements: &[Seq<StoreElement>], place: Option<usize>) -> &[StoreElement]
    ensures { result.now ≡ elements_at elements.now place }
{
    let Some(place) = place else {
        return &[];
    };
    match elements.get(place) {
        Some(found) => found.as_slice(),
        None => &[],
    }
}

/// Returns the elements of stores, in which `outs` and `$` bring those of earlier stores.
fn contents_of_stores(alloc: Global, stores: &[StoreDef]) -> Result<Contents, Memory>
    ensures { IfOk result (λ contents. contents ≡ with_stores no_contents stores.now) }
{
    let mut contents = Contents {
        names: NameTable::new(alloc),
        elements: Seq::new(alloc),
    };
    for store in stores {
        add_store(alloc, &mut contents, store)?;
    }
    Ok(contents)
}

/// Appends the elements of a store, unless the statement is dropped.
fn add_store(alloc: Global, contents: &mut Contents, store: &StoreDef) -> Result<(), Memory>
    ensures { OnOk result (contents.new ≡ with_store contents.old store.now) }
{
    if store.system == DROPPED {
        return Ok(());
    }
    let elements = store_elements(alloc, contents, store.items.as_slice())?;
    contents.names.push(store.name.as_slice())?;
    contents.elements.add(elements)
}

/// Returns the elements that the items of a store denote.
fn store_elements(
    alloc: Global,
    contents: &Contents,
    items: &[SrcItem],
) -> Result<Seq<StoreElement>, Memory>
    ensures { IfOk result (λ elements. elements ≡ flat_map (brought contents.now) items.now) }
{
    let mut elements = Seq::new(alloc);
    for item in items {
        add_brought(alloc, &mut elements, contents, item)?;
    }
    Ok(elements)
}

/// Appends the elements that an item of a store denotes.
fn add_brought(
    alloc: Global,
    elements: &mut Seq<StoreElement>,
    contents: &Contents,
    item: &SrcItem,
) -> Result<(), Memory>
    ensures { OnOk result (elements.new ≡ elements.old ++ brought contents.now item.now) }
{
    match item {
        SrcItem::Char(c) => elements.add(StoreElement::Char(*c)),
        SrcItem::Dead(name) => elements.add(StoreElement::Mark(name.copy(alloc)?)),
        SrcItem::Key(key) => elements.add(StoreElement::Key(copied_key(alloc, key)?)),
        SrcItem::Outs(name) => add_elements(alloc, elements, contents.named(name.as_slice())),
        _ => Ok(()),
    }
}

/// Appends elements.
fn add_elements(
    alloc: Global,
    elements: &mut Seq<StoreElement>,
    others: &[StoreElement],
) -> Result<(), Memory>
    ensures { OnOk result (elements.new ≡ elements.old ++ others.now) }
{
    for element in others {
        elements.add(element.copy(alloc)?)?;
    }
    Ok(())
}

/// Returns the same virtual key. Errors: `Memory` if an allocation fails.
fn copied_key(alloc: Global, key: &KeyName) -> Result<KeyName, Memory>
    ensures { IfOk result (λ copy. copy ≡ key.now) }
{
    let name = key.name.copy(alloc)?;
    Ok(KeyName {
        flags: key.flags,
        code: key.code,
        name,
    })
}
