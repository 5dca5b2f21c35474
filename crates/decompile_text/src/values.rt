//! Appends values. The size of a value is counted once for each store, however many items name the store.

ghost use Rattle.std.specs.Prelude.{◌≡◌, length, slice_get, unwrap_or, IfOk, OnOk};
ghost use Rattle.rule_model.specs.Tab.{elements_of};
ghost use Rattle.decompile_text.specs.Pages.{with_text};
ghost use Rattle.decompile_text.specs.Texts.{quoted_text};
ghost use Rattle.decompile_text.specs.Sizes.{quoted_sizes};

use crate::characters::put_quoted;
use crate::page::Page;
use decompile_program::Called;
use kmn_base::{Element, Memory};
use rule_model::Store;
use std::alloc::Global;
use std::marker::Model;

/// The names of a text, and for each store the size of its characters in quotes, in bytes. Contracts see the names.
#[derive(Drop)]
pub struct SizedNames<'a> {
    called: &'a Called<'a>,
    sizes: Vec<u64>,
}

impl<'a> Model for SizedNames<'a> {
    ghost use Rattle.std.specs.Prelude.{◌≡◌};
    ghost use Rattle.decompile_program.specs.Items.{Names};
    ghost use Rattle.decompile_text.specs.Sizes.{quoted_sizes};

    ghost Value = { Names };

    ghost view = { λ names. names.called.now };

    ghost invariant = { λ names. names.sizes.items ≡ quoted_sizes names.called.now.elements };
}

/// Appends the characters of a store in quotes. A page that does not keep its text counts them by their size.
pub(crate) fn put_value(page: &mut Page, names: &SizedNames<'_>, number: u32) -> Result<(), Memory>
    ensures { OnOk result (page.new ≡ with_text page.old (quoted_text (elements_of names.now.elements number))) }
{
    if page.keeps_text {
        put_quoted(page, names.called().value(number))
    } else {
        page.count(names.value_size(number))
    }
}

/// Returns for each store the size of its characters in quotes.
fn quoted_sizes(alloc: Global, stores: &[Store]) -> Result<Vec<u64>, Memory>
    ensures { IfOk result (λ sizes. sizes.items ≡ quoted_sizes stores.now) }
{
    let mut sizes = Vec::with_capacity(alloc, stores.len())?;
    for store in stores {
        let size = quoted_size(alloc, store.elements.as_slice())?;
        sizes.push(size)?;
    }
    Ok(sizes)
}

/// Returns the size of the characters of elements in quotes, in bytes.
fn quoted_size(alloc: Global, elements: &[Element]) -> Result<u64, Memory>
    ensures { IfOk result (λ size. size ≡ length (quoted_text elements.now)) }
{
    let mut page = Page::new(alloc, false);
    put_quoted(&mut page, elements)?;
    Ok(page.size)
}

impl<'a> SizedNames<'a> {
    /// Creates the names with these sizes. Counts each store once.
    pub fn new(alloc: Global, called: &'a Called<'a>) -> Result<SizedNames<'a>, Memory>
        ensures { IfOk result (λ names. names ≡ called.now) }
    {
        let sizes = quoted_sizes(alloc, called.elements())?;
        Ok(SizedNames { called, sizes })
    }

    /// Returns the names.
    pub(crate) fn called(&self) -> &Called<'a>
        ensures { result.now ≡ self.now }
    {
        self.called
    }

    /// Returns the size of the characters of a store in quotes.
    #[tactic(auto, using(crate::proofs::ValueSizes::size_known))]
    fn value_size(&self, number: u32) -> u64
        ensures { result ≡ length (quoted_text (elements_of self.now.elements number)) }
    {
        size_at(self.sizes.as_slice(), number as usize)
    }
}

/// Returns the size at an index, or the size of two quotes if there is none.
fn size_at(sizes: &[u64], number: usize) -> u64
    ensures { result ≡ unwrap_or (slice_get sizes.now number) 2 }
{
    match sizes.get(number) {
        Some(size) => *size,
        None => 2,
    }
}
