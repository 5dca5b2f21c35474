//! The numbers by which C sees characters, items, elements and rules. A function that fills a buffer writes as much as fits and
//! returns the full length.

ghost use Rattle.std.specs.Prelude.{◌≡◌, ◌≤◌, ◌∷◌, [], ◌++◌, length, take, drop, encode_utf8, encode_utf8_all, IfOk};
ghost use Rattle.play_session.specs.Changes.{options_from};
ghost use Rattle.curlew_calls.specs.Numbers.{written, item_number, item_numbers, element_number, element_numbers, text_of, rule_number};

use kmn_base::{Code, Element, Item, Memory, Seq};
use std::alloc::Global;

/// The number that is added to a mark (a deadkey in the item list). It is past all characters.
pub const MARK: u32 = 0x8000_0000;
/// The number that is added to the code of a virtual key. An option's value may have virtual keys, a text has none.
pub const KEY: u32 = 0x9000_0000;

/// Converts numbers to a text. Returns `None` exactly when one of them is not a character.
pub fn characters(alloc: Global, numbers: &[u32]) -> Result<Option<Seq<char>>, Memory>
    ensures { IfOk result (λ text. text ≡ text_of numbers.now) }
{
    let mut text = Vec::with_capacity(alloc, numbers.len())?;
    for number in numbers {
        match char::from_u32(*number) {
            Some(c) => text.push(c)?,
            None => return Ok(None),
        }
    }
    Ok(Some(Seq::from_vec(text)))
}

/// Writes as many characters of a text as fit in the buffer, and returns the length of the text.
pub fn put_characters(room: &mut [u32], text: &[char]) -> usize
    ensures length { result ≡ length text.now }
    ensures room { room.new ≡ written text.now room.old }
{
    for place in 0..text.len().min(room.len()) {
        room[place] = text[place] as u32;
    }
    text.len()
}

/// Writes the numbers of as many items as fit in the buffer, and returns the number of items.
pub fn put_items(room: &mut [u32], items: &[Item]) -> usize
    ensures length { result ≡ length items.now }
    ensures room { room.new ≡ written (item_numbers items.now) room.old }
{
    for place in 0..items.len().min(room.len()) {
        room[place] = item_number(items[place]);
    }
    items.len()
}

/// Returns the number of an item.
fn item_number(item: Item) -> u32
    ensures { result ≡ item_number item }
{
    match item {
        Item::Char(c) => c as u32,
        Item::Mark(mark) => MARK + u32::from(mark),
    }
}

/// Writes the numbers of as many elements as fit in the buffer, and returns the number of elements.
pub fn put_elements(room: &mut [u32], elements: &[Element]) -> usize
    ensures length { result ≡ length elements.now }
    ensures room { room.new ≡ written (element_numbers elements.now) room.old }
{
    for place in 0..elements.len().min(room.len()) {
        room[place] = element_number(elements[place]);
    }
    elements.len()
}

/// Returns the number of an element.
fn element_number(element: Element) -> u32
    ensures { result ≡ element_number element }
{
    match element {
        Element::Char(c) => c as u32,
        Element::Mark(mark) => MARK + u32::from(mark),
        Element::Key { code, .. } => KEY + u32::from(code),
    }
}

/// Writes the numbers of the stores that have an option number, as many as fit in the buffer, and returns how many stores have an
/// option number.
pub fn put_options(room: &mut [u32], numbers: &[Option<usize>], stores: u32) -> usize
    requires { length numbers.now ≡ stores }
    ensures length { result ≡ length (options_from 0 numbers.now) }
    ensures room { room.new ≡ written (options_from 0 numbers.now) room.old }
{
    let mut count = 0;
    for store in 0..stores {
        count += put_option(room, count, store, numbers[store as usize]);
    }
    count
}

/// Writes the number of a store at an index, if the store has an option number and the buffer has the index. Returns 1 if the store
/// has an option number, otherwise 0.
fn put_option(room: &mut [u32], place: usize, store: u32, number: Option<usize>) -> usize
    ensures length { result ≡ length (options_from store (number ∷ [])) }
    ensures few { result ≤ 1 }
    ensures room { room.new ≡ take place room.old ++ written (options_from store (number ∷ [])) (drop place room.old) }
{
    if number.is_none() {
        return 0;
    }
    if place < room.len() {
        room[place] = store;
    }
    1
}

/// Writes as many bytes as fit in the buffer, and returns the number of bytes.
pub fn put_bytes(room: &mut [u8], bytes: &[u8]) -> usize
    ensures length { result ≡ length bytes.now }
    ensures room { room.new ≡ written bytes.now room.old }
{
    let count = bytes.len().min(room.len());
    room[..count].copy_from_slice(&bytes[..count]);
    bytes.len()
}

/// Writes as many UTF-8 bytes of a text as fit in the buffer, and returns the size of the text in bytes.
pub fn put_utf8(room: &mut [u8], text: &[char]) -> usize
    ensures length { result ≡ length (encode_utf8_all text.now) }
    ensures room { room.new ≡ written (encode_utf8_all text.now) room.old }
{
    let mut end = 0;
    for c in text {
        end += put_character(room, end, *c);
    }
    end
}

/// Writes the UTF-8 bytes of a character from an index on, as many as fit in the buffer, and returns their number.
fn put_character(room: &mut [u8], place: usize, c: char) -> usize
    ensures length { result ≡ length (encode_utf8 c) }
    ensures few { result ≤ 4 }
    ensures room { room.new ≡ take place room.old ++ written (encode_utf8 c) (drop place room.old) }
{
    let mut bytes = [0; 4];
    let utf8 = c.encode_utf8(&mut bytes).as_bytes();
    if place < room.len() {
        put_bytes(&mut room[place..], utf8);
    }
    utf8.len()
}

/// Returns the number of a rule about compiled keyboards, for example 14 for V14; 0 for every other code.
#[tactic(auto, unfolding(crate::specs::Numbers::rule_number))]
pub fn rule_number(code: Code) -> u32
    ensures { result ≡ rule_number code }
{
    match code {
        Code::V01 => 1,
        Code::V02 => 2,
        Code::V03 => 3,
        Code::V04 => 4,
        Code::V05 => 5,
        Code::V06 => 6,
        Code::V07 => 7,
        Code::V08 => 8,
        Code::V09 => 9,
        Code::V10 => 10,
        Code::V11 => 11,
        Code::V12 => 12,
        Code::V13 => 13,
        Code::V14 => 14,
        Code::V15 => 15,
        Code::V16 => 16,
        _ => 0,
    }
}
