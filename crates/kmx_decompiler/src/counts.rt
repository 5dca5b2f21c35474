//! Counts the stores that a text compiles to, and the elements of all these stores.

ghost use Rattle.std.specs.Prelude.{◌≡◌, ◌+◌, ◌<◌, ◌^◌, ◌∷◌, [], map, length, if◌then◌else◌, All, IfOk};
ghost use Rattle.std.specs.Str.{IsUtf8};
ghost use Rattle.rule_model.specs.Tab.{tab_dictionary};
ghost use Rattle.kmx_format.specs.Playable.{IsPlayable};
ghost use Rattle.decompile_program.specs.Back.{back, names_for};
ghost use Rattle.decompile_program.specs.WrittenOut.{CanBeWrittenOut};
ghost use Rattle.kmx_decompiler.specs.Excess.{store_count, element_count};
ghost use Rattle.decompile_text.specs.Whole.{IsFront};
ghost use Rattle.kmx_decompiler.specs.Refusals.{too_many};
ghost use Rattle.kmx_decompiler.specs.Counting.{capped, none_counted, with_lengths, some_length, called_lengths, spaced_size, joined_length, text_lengths};

use crate::NoSpelling;
use crate::values::{WrittenValues, values_of};
use decompile_program::Called;
use decompile_text::Front;
use kmn_base::limits::{ALL_ELEMENTS, STORES};
use kmn_base::texts::character_count;
use kmn_base::{Memory, Text};
use kmx_format::version_text;
use kmx_parts::FileTables;
use rule_model::Store;
use std::alloc::Global;

/// The number of stores, and the number of elements of all these stores.
#[derive(Clone, Copy)]
pub(crate) struct WrittenCounts {
    pub(crate) stores: u32,
    pub(crate) elements: u32,
}

/// The counts of no stores.
const NONE: WrittenCounts = WrittenCounts {
    stores: 0,
    elements: 0,
};

/// Counts the stores that the text of tables compiles to, and the elements of all these stores.
#[tactic(auto, using(crate::proofs::FewCounts::few_characters))]
pub(crate) fn count_all(
    alloc: Global,
    front: &Front,
    names: &Called<'_>,
    file: &FileTables<'_>,
) -> Result<WrittenCounts, Memory>
    requires front { IsFront file.now front.now }
    requires names { names.now ≡ names_for file.now }
    requires playable { IsPlayable file.now }
    requires written { CanBeWrittenOut file.now }
    requires keys { All IsUtf8 (tab_dictionary file.now.stores) }
    ensures stores { IfOk result (λ counts. counts.stores ≡ store_count (back file.now)) }
    ensures elements { IfOk result (λ counts. counts.elements ≡ element_count (back file.now)) }
{
    count_lengths(alloc, front, names, file)
}

impl WrittenCounts {
    /// Returns the counts with another store, which has `elements` elements.
    fn with(self, elements: usize) -> WrittenCounts
        ensures { result ≡ with_lengths self (elements ∷ []) }
    {
        WrittenCounts {
            stores: larger(self.stores, 1),
            elements: larger(self.elements, elements),
        }
    }

    /// Returns the counts with another store if the text contains it.
    fn with_if(self, is_written: bool, elements: usize) -> WrittenCounts
        ensures { result ≡ with_lengths self (if is_written then elements ∷ [] else []) }
    {
        if is_written {
            self.with(elements)
        } else {
            self
        }
    }

    /// Returns the counts with another front store if it has an element.
    fn with_some(self, elements: usize) -> WrittenCounts
        ensures { result ≡ with_lengths self (some_length elements) }
    {
        self.with_if(elements != 0, elements)
    }
}

/// Counts the stores that the text of tables compiles to, and their elements, by the lengths of these stores.
#[tactic(auto, using(crate::proofs::Lengths::with_lengths_append), unfolding(decompile_program::specs::WrittenOut::table_values))]
fn count_lengths(
    alloc: Global,
    front: &Front,
    names: &Called<'_>,
    file: &FileTables<'_>,
) -> Result<WrittenCounts, Memory>
    requires front { IsFront file.now front.now }
    requires names { names.now ≡ names_for file.now }
    requires keys { spaced_size (tab_dictionary file.now.stores) < 2 ^ 32 }
    ensures { IfOk result (λ counts. counts ≡ with_lengths none_counted (text_lengths file.now)) }
{
    let counts = NONE.with(version_text(file.version()).len());
    let counts = counts.with_some(usize::from(front.marks));
    let counts = counts.with_some(front.keys.len());
    let counts = with_stores(counts, names, names.elements());
    let counts = with_dictionary(counts, front.keys.as_slice());
    let values = values_of(alloc, names, file)?;
    Ok(with_values(counts, &values))
}

/// Returns the counts with those stores of a file that the text contains.
#[tactic(auto, using(crate::proofs::Lengths::with_lengths_append))]
fn with_stores(counts: WrittenCounts, names: &Called<'_>, stores: &[Store]) -> WrittenCounts
    ensures { result ≡ with_lengths counts (called_lengths names.now.stores 0 stores.now) }
{
    let mut counts = counts;
    for (number, store) in stores.iter().enumerate() {
        let is_written = names.store_at(number).is_some();
        counts = counts.with_if(is_written, store.elements.len());
    }
    counts
}

/// Returns the counts with the store of the key dictionary if the dictionary contains a name.
fn with_dictionary(counts: WrittenCounts, keys: &[Text]) -> WrittenCounts
    requires { spaced_size keys.now < 2 ^ 32 }
    ensures { result ≡ with_lengths counts (joined_length keys.now) }
{
    match keys {
        [] => counts,
        [_, ..] => counts.with(spaced_size(keys).saturating_sub(1)),
    }
}

/// Returns the number of characters in the names, plus one for each name.
fn spaced_size(names: &[Text]) -> usize
    requires { spaced_size names.now < 2 ^ 32 }
    ensures { result ≡ spaced_size names.now }
{
    let mut size: usize = 0;
    for name in names {
        size += character_count(name.as_slice()) + 1;
    }
    size
}

/// Returns the counts with the stores of values.
#[tactic(auto, using(crate::proofs::Lengths::with_lengths_append))]
fn with_values(counts: WrittenCounts, values: &WrittenValues) -> WrittenCounts
    ensures { result ≡ with_lengths counts (map length values.now) }
{
    let mut counts = counts;
    for place in 0..values.len() {
        let Some(value) = values.at(place) else {
            return counts;
        };
        counts = counts.with(value.len());
    }
    counts
}

/// Returns the refusal of the first count that is above its limit, if any.
pub(crate) fn passed(counts: WrittenCounts) -> Option<NoSpelling>
    ensures { result ≡ too_many counts.stores counts.elements }
{
    if (STORES as u32) < counts.stores {
        return Some(NoSpelling::TooManyStores {
            stores: counts.stores,
        });
    }
    if (ALL_ELEMENTS as u32) < counts.elements {
        return Some(NoSpelling::TooManyElements {
            elements: counts.elements,
        });
    }
    None
}

/// Returns the sum of a count and `more`, or the maximum of the type if the sum is larger.
fn larger(count: u32, more: usize) -> u32
    ensures { result ≡ capped (count + more) }
{
    count.saturating_add(u32::try_from(more).unwrap_or(u32::MAX))
}
