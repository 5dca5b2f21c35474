//! Numbers for the contents of stores: two stores have the same number if and only if they have the same elements.
//!
//! Each content is encoded as a list of numbers. The remainder of a number by 3 is the kind of an element and determines
//! whether a second number follows, so different contents have different codes. A map then assigns each code the index of the
//! first content with this code. Index 0 is the empty content, which a missing store has. For n stores with m elements,
//! building costs O((n + m) log n). Each condition then compares two numbers instead of two contents.

ghost use Rattle.std.specs.Prelude.{◌≡◌, ◌++◌, ◌<◌, [], ◌∷◌, IfOk, OnOk, length, map};
ghost use Rattle.rule_index.specs.Values.{element_code, number_for, value_code, AreNumbersOf, known_in, IsNumbered};

use kmn_base::{Element, Memory, Seq};
use std::alloc::Global;
use std::collections::BTreeMap;

/// Returns the number of no elements, followed by the number of each store's elements.
pub fn store_numbers(alloc: Global, stores: &[Seq<Element>]) -> Result<Vec<usize>, Memory>
    ensures { IfOk result (λ numbers. AreNumbersOf (map value_code ([] ∷ stores.now)) numbers.items) }
{
    let codes = value_codes(alloc, stores)?;
    value_numbers(alloc, codes.as_slice())
}

/// Returns the code of no elements, followed by the code of each store's elements.
fn value_codes(alloc: Global, stores: &[Seq<Element>]) -> Result<Vec<Seq<u32>>, Memory>
    ensures { IfOk result (λ codes. codes.items ≡ map value_code ([] ∷ stores.now)) }
{
    let mut codes = Vec::new(alloc);
    codes.push(Seq::new(alloc))?;
    for store in stores {
        codes.push(value_code(alloc, store.as_slice())?)?;
    }
    Ok(codes)
}

/// Returns the code of elements. Different elements have different codes.
fn value_code(alloc: Global, elements: &[Element]) -> Result<Seq<u32>, Memory>
    ensures { IfOk result (λ code. code ≡ value_code elements.now) }
{
    let mut code = Seq::new(alloc);
    for element in elements {
        put_code(&mut code, *element)?;
    }
    Ok(code)
}

/// Appends the code of an element.
fn put_code(code: &mut Seq<u32>, element: Element) -> Result<(), Memory>
    ensures { OnOk result (code.new ≡ code.old ++ element_code element) }
{
    match element {
        Element::Char(c) => code.add(3 * u32::from(c)),
        Element::Mark(mark) => code.add(1 + 3 * u32::from(mark)),
        Element::Key { flags, code: key } => {
            code.add(2 + 3 * u32::from(flags))?;
            code.add(u32::from(key))
        }
    }
}

/// Returns for each value the number of the first equal value, so that one comparison of numbers compares two values.
fn value_numbers(alloc: Global, values: &[Seq<u32>]) -> Result<Vec<usize>, Memory>
    ensures { IfOk result (λ numbers. AreNumbersOf values.now numbers.items) }
{
    let mut known = BTreeMap::new(alloc);
    let mut numbers = Vec::new(alloc);
    for place in 0..values.len() {
        let number = numbered(&mut known, values[place].as_slice(), place)?;
        numbers.push(number)?;
    }
    Ok(numbers)
}

/// Returns the number of a value if it is known. Otherwise adds it with the next number and returns that number.
fn numbered<'a>(
    known: &mut BTreeMap<&'a [u32], usize>,
    value: &'a [u32],
    next: usize,
) -> Result<usize, Memory>
    ensures { IfOk result (λ number. IsNumbered (known_in known.old) (known_in known.new) value.now next number) }
{
    if let Some(number) = known.get(value) {
        return Ok(*number);
    }
    known.insert(value, next)?;
    Ok(next)
}

/// Returns the number of a store's elements among these numbers, or the number of no elements if there is no such store.
pub fn number_for(numbers: &[usize], store: u32) -> usize
    requires { 0 < length numbers.now }
    ensures { result ≡ number_for numbers.now store }
{
    match numbers.get(store as usize + 1) {
        Some(number) => *number,
        None => numbers[0],
    }
}
