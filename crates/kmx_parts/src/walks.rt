//! The strings of a file, part by part.

ghost use Rattle.std.specs.Prelude.{◌≡◌, ◌≤◌, [], length};
ghost use Rattle.std.specs.List.{filter_map};
ghost use Rattle.kmn_base.specs.declared.limits.TheConstants.{FILE_BYTES};
ghost use Rattle.kmx_format.specs.TablesOf.{string_at, items_of};

use crate::context_item::ContextItem;
use crate::kinds::StringPart;
use item_codec::{Items, items_of};
use kmn_base::Element;
use kmx_view::string_bytes;
use rule_model::{Out, Pat};
use std::marker::{Model, PhantomData};

/// An iterator over the parts that a string spells. It reads them in place up to the first position at which no item is
/// spelled, and skips items that are not allowed there. Contracts model it as the list of the remaining parts.
#[derive(Drop)]
pub struct StringParts<'a, T: StringPart> {
    items: Items<'a>,
    kind: PhantomData<T>,
}

/// The elements of a store.
pub type Elements<'a> = StringParts<'a, Element>;
/// The items of a context.
pub type Patterns<'a> = StringParts<'a, Pat>;
/// The items of a context with the numbers of the file.
pub type ContextItems<'a> = StringParts<'a, ContextItem>;
/// The items of an output.
pub type Outputs<'a> = StringParts<'a, Out>;

impl<'a, T: StringPart> Model for StringParts<'a, T> {
    ghost use Rattle.std.specs.Prelude.{List};
    ghost use Rattle.std.specs.List.{filter_map};
    ghost use Rattle.item_codec.specs.Walk.{items_given};

    ghost Value = { List T };

    ghost view = { λ parts. filter_map T.of_unit_item (items_given parts.items) };
}

impl<'a, T: StringPart> StringParts<'a, T> {
    /// Creates an iterator without parts.
    #[tactic(auto, unfolding(item_codec::specs::Walk::results_of))]
    pub fn none() -> StringParts<'a, T>
        ensures { result ≡ [] }
    {
        StringParts {
            items: items_of(&[]),
            kind: PhantomData,
        }
    }

    /// Iterates over the parts that the string at an offset spells.
    #[tactic(auto, using(crate::proofs::Counts::few_parts), unfolding(kmx_format::specs::TablesOf::items_of))]
    pub(crate) fn at(bytes: &'a [u8], offset: u32) -> StringParts<'a, T>
        requires { length bytes.now ≤ FILE_BYTES }
        ensures value { result ≡ filter_map T.of_unit_item (items_of (string_at bytes.now offset)) }
        ensures few { length result ≤ FILE_BYTES }
    {
        StringParts {
            items: items_of(string_bytes(bytes, offset)),
            kind: PhantomData,
        }
    }
}

impl<'a, T: StringPart> Iterator for StringParts<'a, T> {
    ghost use Rattle.std.specs.Iterator.{YieldsFirst, item_count};

    type Item = T;

    ghost next_gives = { YieldsFirst (λ parts. parts) };

    ghost remaining = { item_count (λ parts. parts) };

    #[tactic(auto, unfolding(item_codec::specs::Walk::results_of))]
    fn next(&mut self) -> Option<T> {
        while let Some(read) = self.items.next() {
            let Ok(item) = read else {
                self.items = items_of(&[]);
                return None;
            };
            if let Some(part) = T::of_unit_item(item) {
                return Some(part);
            }
        }
        None
    }
}
