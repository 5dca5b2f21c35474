//! The pieces of an output: the items that are the same for all keys of a key store, and those that depend on the key's position.

ghost use Rattle.std.specs.Prelude.{◌≡◌, ◌+◌, ◌++◌, nat_eq, [], ◌∷◌, map, flat_map, option_to_list, IfOk, OnOk};
ghost use Rattle.rule_model.specs.declared.program.SrcItem.TheVariants as source;
ghost use Rattle.rule_model.specs.Match.{element_at};
ghost use Rattle.compile_laws.specs.Compiles.{element_outs, element_outs_if_any};
ghost use Rattle.rule_expand.specs.declared.pieces.Piece.TheVariants.{Fixed};
ghost use Rattle.rule_expand.specs.Lookups.{elements_at};
ghost use Rattle.rule_expand.specs.Pieces.{one_output, item_pieces, piece_outs, pieces_outputs};

use crate::lookups::Lookups;
use kmn_base::{Element, Memory, Seq};
use rule_model::{Out, SrcItem};
use std::alloc::Global;

/// A piece of an output.
#[derive(Clone, Copy)]
pub enum Piece {
    /// The same for every key.
    Fixed(Out),
    /// The element of the store with this number, at the position that the key has in its own store. Outputs nothing if there is
    /// no store or no element, or if the element is a virtual key.
    AtKey(Option<u32>),
}

/// Returns the pieces of the output of a rule that has `count` context items.
pub fn pieces_of(
    alloc: Global,
    numbers: &Lookups<'_>,
    count: usize,
    items: &[SrcItem],
) -> Result<Seq<Piece>, Memory>
    ensures { IfOk result (λ pieces. pieces ≡ flat_map (item_pieces numbers.now count) items.now) }
{
    let mut pieces = Vec::with_capacity(alloc, items.len())?;
    for item in items {
        add_item(&mut pieces, numbers, count, item)?;
    }
    Ok(Seq::from_vec(pieces))
}

/// Appends the pieces of an output item of a rule that has `count` context items.
fn add_item(
    pieces: &mut Vec<Piece>,
    numbers: &Lookups<'_>,
    count: usize,
    item: &SrcItem,
) -> Result<(), Memory>
    ensures { OnOk result (pieces.new.items ≡ pieces.old.items ++ item_pieces numbers.now count item.now) }
{
    match item {
        SrcItem::Index(store, offset) => {
            pieces.push(index_piece(numbers, count, store.as_slice(), *offset))?
        }
        SrcItem::Outs(store) => add_elements(pieces, numbers.elements(store.as_slice()))?,
        _ => pieces.push(Piece::Fixed(one_output(numbers, item)))?,
    }
    Ok(())
}

/// Returns the piece of an `index`.
fn index_piece(numbers: &Lookups<'_>, count: usize, store: &[u8], offset: u32) -> Piece
    ensures { (result ∷ []) ≡ item_pieces numbers.now count (source.Index store.now offset) }
{
    if is_key_place(count, offset) {
        Piece::AtKey(numbers.store_place(store))
    } else {
        Piece::Fixed(Out::Index(numbers.store(store), offset))
    }
}

/// Returns whether an offset is the offset of the key, which follows `count` context items.
fn is_key_place(count: usize, offset: u32) -> bool
    ensures { result ≡ nat_eq offset (count + 1) }
{
    count.checked_add(1) == Some(offset as usize)
}

/// Appends elements as pieces, except virtual keys.
#[tactic(auto, using(crate::proofs::PieceLaws::elements_more))]
fn add_elements(pieces: &mut Vec<Piece>, elements: &[Element]) -> Result<(), Memory>
    ensures { OnOk result (pieces.new.items ≡ pieces.old.items ++ map Fixed (flat_map element_outs elements.now)) }
{
    for element in elements {
        add_element(pieces, *element)?;
    }
    Ok(())
}

/// Appends an element as a piece, unless it is a virtual key.
fn add_element(pieces: &mut Vec<Piece>, element: Element) -> Result<(), Memory>
    ensures { OnOk result (pieces.new.items ≡ pieces.old.items ++ map Fixed (element_outs element)) }
{
    match element_out(element) {
        Some(out) => pieces.push(Piece::Fixed(out))?,
        None => {}
    }
    Ok(())
}

/// Returns an element as an output, or `None` for a virtual key.
fn element_out(element: Element) -> Option<Out>
    ensures { option_to_list result ≡ element_outs element }
{
    match element {
        Element::Char(c) => Some(Out::Char(c)),
        Element::Mark(mark) => Some(Out::Mark(mark)),
        Element::Key { .. } => None,
    }
}

/// Returns the output of an item that is neither `outs` nor an `index` with the offset of the key.
fn one_output(numbers: &Lookups<'_>, item: &SrcItem) -> Out
    ensures { result ≡ one_output numbers.now item.now }
{
    match item {
        SrcItem::Char(c) => Out::Char(*c),
        SrcItem::Dead(name) => Out::Mark(numbers.mark(name.as_slice())),
        SrcItem::Index(store, offset) => Out::Index(numbers.store(store.as_slice()), *offset),
        SrcItem::Context => Out::Context,
        SrcItem::ContextAt(offset) => Out::ContextAt(*offset),
        SrcItem::Enter(group) => Out::Enter(numbers.group(group.as_slice())),
        SrcItem::Set(store, value) => Out::Set(
            numbers.store(store.as_slice()),
            numbers.value(value.as_slice()),
        ),
        SrcItem::SetSystem(id, value) => Out::SetSystem(*id, numbers.value(value.as_slice())),
        SrcItem::Save(store) => Out::Save(numbers.store(store.as_slice())),
        SrcItem::Reset(store) => Out::Reset(numbers.store(store.as_slice())),
        SrcItem::Beep => Out::Beep,
        SrcItem::Stop => Out::Stop,
        _ => Out::Nul,
    }
}

/// Returns the output of a piece, if any, if the key has this position in its store.
pub fn piece_out(numbers: &Lookups<'_>, place: Option<u32>, piece: Piece) -> Option<Out>
    ensures { option_to_list result ≡ piece_outs numbers.now.stores place piece }
{
    match piece {
        Piece::Fixed(out) => Some(out),
        Piece::AtKey(store) => out_at(numbers.elements_at(store), place),
    }
}

/// Returns the output of the element at a position, or `None` if there is no element or it is a virtual key.
fn out_at(elements: &[Element], place: Option<u32>) -> Option<Out>
    ensures { option_to_list result ≡ element_outs_if_any (element_at elements.now place) }
{
    match element_at(elements, place) {
        Some(element) => element_out(element),
        None => None,
    }
}

/// Returns the element at a position, if any.
fn element_at(elements: &[Element], place: Option<u32>) -> Option<Element>
    ensures { result ≡ element_at elements.now place }
{
    elements.get(place? as usize).copied()
}

/// Returns the output of pieces if the key has this position in its store, or a `nul` if the output is empty.
pub fn outputs_at(
    alloc: Global,
    numbers: &Lookups<'_>,
    pieces: &[Piece],
    place: Option<u32>,
) -> Result<Seq<Out>, Memory>
    ensures { IfOk result (λ output. output ≡ pieces_outputs numbers.now.stores place pieces.now) }
{
    let mut output = Vec::with_capacity(alloc, pieces.len())?;
    for piece in pieces {
        add_out(&mut output, numbers, place, *piece)?;
    }
    if output.is_empty() {
        output.push(Out::Nul)?;
    }
    Ok(Seq::from_vec(output))
}

/// Appends the output of a piece, if any.
fn add_out(
    output: &mut Vec<Out>,
    numbers: &Lookups<'_>,
    place: Option<u32>,
    piece: Piece,
) -> Result<(), Memory>
    ensures { OnOk result (output.new.items ≡ output.old.items ++ piece_outs numbers.now.stores place piece) }
{
    match piece_out(numbers, place, piece) {
        Some(out) => output.push(out)?,
        None => {}
    }
    Ok(())
}
