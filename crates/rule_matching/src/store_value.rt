//! The content of a store, read in place from the keyboard or from a text of the host.

ghost use Rattle.std.specs.Prelude.{◌≡◌, IfOk};
ghost use Rattle.rule_model.specs.Match.{same_value};
ghost use Rattle.rule_matching.specs.StoreValues.{elements_in};

use crate::elements::same_element;
use kmn_base::{Element, Memory, Seq};
use std::alloc::Global;

/// The content of a store, read in place, element by element: elements of the keyboard, or a text of the host.
#[derive(Drop)]
pub enum StoreValue<'c> {
    Elements(&'c [Element]),
    Text(&'c [char]),
}

impl<'c> Iterator for StoreValue<'c> {
    ghost use Rattle.std.specs.Iterator.{YieldsFirst, item_count};
    ghost use Rattle.rule_matching.specs.StoreValues.{elements_in};

    type Item = Element;

    ghost next_gives = { YieldsFirst elements_in };

    ghost remaining = { item_count elements_in };

    fn next(&mut self) -> Option<Element> {
        match self {
            StoreValue::Elements(elements) => {
                let [first, behind @ ..] = *elements else {
                    return None;
                };
                *elements = behind;
                Some(*first)
            }
            StoreValue::Text(text) => {
                let [first, behind @ ..] = *text else {
                    return None;
                };
                *text = behind;
                Some(Element::Char(*first))
            }
        }
    }
}

impl<'c> StoreValue<'c> {
    /// Returns whether two values are equal, element by element.
    pub fn is_same(self, mut other: StoreValue<'_>) -> bool
        ensures { result ≡ same_value (elements_in self.entry) (elements_in other.entry) }
    {
        for element in self {
            let Some(wanted) = other.next() else {
                return false;
            };
            if !same_element(element, wanted) {
                return false;
            }
        }
        other.next().is_none()
    }

    /// Copies all elements.
    /// Errors: `Memory` if an allocation fails.
    pub fn copy(self, alloc: Global) -> Result<Seq<Element>, Memory>
        ensures { IfOk result (λ copy. copy ≡ elements_in self.entry) }
    {
        Ok(Seq::from_vec(self.collect(alloc)?))
    }
}
