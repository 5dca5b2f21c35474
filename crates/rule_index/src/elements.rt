//! The numbers of elements and items, by which the rows of stores are sorted.

ghost use Rattle.std.specs.Prelude.{◌≡◌, ◌<◌, All, map, IfOk};
ghost use Rattle.rule_index.specs.Elements.{element_number, item_number};

use crate::class::Class;
use kmn_base::{Element, Item, Memory};
use std::alloc::Global;

/// Returns the number of an item.
pub fn item_number(item: Item) -> u32
    ensures value { result ≡ item_number item }
    ensures small { result < 4194304 }
{
    match item {
        Item::Char(c) => 1 + 2 * u32::from(c),
        Item::Mark(m) => 2 + 2 * u32::from(m),
    }
}

/// Returns the numbers of elements, in their order.
pub fn element_numbers(alloc: Global, elements: &[Element]) -> Result<Vec<Class>, Memory>
    ensures value { IfOk result (λ numbers. numbers.items ≡ map element_number elements.now) }
    ensures small { IfOk result (λ numbers. All (λ number. number < 4194304) numbers.items) }
{
    let mut numbers = Vec::new(alloc);
    for element in elements {
        numbers.push(element_number(*element))?;
    }
    Ok(numbers)
}

/// Returns the number of an element.
fn element_number(element: Element) -> Class
    ensures value { result ≡ element_number element }
    ensures small { result < 4194304 }
{
    match element {
        Element::Char(c) => Class::of(1 + 2 * u64::from(c as u32)),
        Element::Mark(m) => Class::of(2 + 2 * u64::from(m)),
        Element::Key { .. } => Class::of(0),
    }
}
