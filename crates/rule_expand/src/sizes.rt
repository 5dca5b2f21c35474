//! Counts the bytes that the records of rules occupy in a file, without building the records.
//!
//! The spelling of a list is its items' spellings one after the other, so sizes add up: a record has its fixed size, the string
//! of its context and the string of its output. The context and the pieces of the output that do not depend on the key are
//! counted once for each rule. Each record then needs one step, and one for each piece that depends on its key. So a source
//! whose records would need far more memory than the largest file is refused before they are built. Sums that overflow are
//! reported as `Memory`.

ghost use Rattle.std.specs.Prelude.{◌≡◌, ◌+◌, ◌++◌, ◌∷◌, [], true, length, flat_map, IfOk, OnOk};
ghost use Rattle.std.specs.List.{list_all};
ghost use Rattle.compile_laws.specs.Compiles.{rule_records};
ghost use Rattle.kmx_format.specs.File.{string};
ghost use Rattle.kmx_format.specs.FileUnits.{output_units, pattern_units};
ghost use Rattle.rule_expand.specs.Groups.{are_unit_elements, has_unit_key, have_unit_keys, is_unit_key, plain_records};
ghost use Rattle.rule_expand.specs.Pieces.{piece_outs};
ghost use Rattle.rule_expand.specs.Sizes.{bytes_of, context_size, fixed_size, fixed_units, groups_size, keyed_of, outs_size, pieces_size, plain_size, records_size, sized_halves, sized_keyed, sized_places, sized_record, sizes_of, some_units};

use crate::cased_keys::has_halves;
use crate::lookups::Lookups;
use crate::pieces::{Piece, piece_out};
use crate::records::{Template, element_key, own_key, template_of};
use item_codec::char_unit_count;
use kmn_base::{Element, Memory, RuleKey, Seq};
use kmx_format::sizes::RULE_BYTES;
use rule_model::{GroupDef, Out, Pat, RuleDef, RuleKind, SrcItem};
use std::alloc::Global;

/// The sizes that the records of a rule have in common.
#[derive(Drop)]
pub struct RuleSizes {
    /// The bytes of the string of the context.
    pub context: u64,
    /// The units that the output has for every key.
    pub fixed: u64,
    /// The pieces of the output that depend on the key.
    pub keyed: Seq<Piece>,
}

/// Returns the bytes of the records of the groups of statements.
#[tactic(auto, using(crate::proofs::RuleRecords::unit_group))]
pub fn groups_size(alloc: Global, numbers: &Lookups<'_>, groups: &[GroupDef]) -> Result<u64, Memory>
    requires { list_all (have_unit_keys numbers.now.stores) groups.now ≡ true }
    ensures { IfOk result (λ size. size ≡ groups_size numbers.now groups.now) }
{
    let mut size = 0;
    for group in groups {
        size = larger(size, rules_size(alloc, numbers, group.rules.as_slice())?)?;
    }
    Ok(size)
}

/// Returns a sum.
///
/// Errors: `Memory` if the sum does not fit, since a program of that size does not fit in memory.
fn larger(size: u64, more: u64) -> Result<u64, Memory>
    ensures { IfOk result (λ sum. sum ≡ size + more) }
{
    size.checked_add(more).ok_or(Memory)
}

/// Returns the bytes of the records of rules.
#[tactic(auto, using(crate::proofs::RuleRecords::unit_rule))]
fn rules_size(alloc: Global, numbers: &Lookups<'_>, rules: &[RuleDef]) -> Result<u64, Memory>
    requires { list_all (has_unit_key numbers.now.stores) rules.now ≡ true }
    ensures { IfOk result (λ size. size ≡ plain_size numbers.now rules.now) }
{
    let mut size = 0;
    for rule in rules {
        size = larger(size, statement_size(alloc, numbers, rule)?)?;
    }
    Ok(size)
}

/// Returns the bytes of the records of a statement. A match or nomatch statement has no records.
fn statement_size(alloc: Global, numbers: &Lookups<'_>, rule: &RuleDef) -> Result<u64, Memory>
    requires { has_unit_key numbers.now.stores rule.now ≡ true }
    ensures { IfOk result (λ size. size ≡ records_size (plain_records numbers.now rule.now)) }
{
    if rule.kind == RuleKind::Plain {
        rule_size(alloc, numbers, rule)
    } else {
        Ok(0)
    }
}

/// Returns the bytes of the records of a rule.
#[tactic(auto, using(crate::proofs::RecordSizes::rule_counted))]
fn rule_size(alloc: Global, numbers: &Lookups<'_>, rule: &RuleDef) -> Result<u64, Memory>
    requires { has_unit_key numbers.now.stores rule.now ≡ true }
    ensures { IfOk result (λ size. size ≡ records_size (rule_records numbers.now rule.now)) }
{
    let template = template_of(alloc, numbers, rule)?;
    let sizes = sizes_of(alloc, &template)?;
    keyed_size(numbers, &sizes, &rule.key)
}

/// Returns the sizes that the records of a rule have in common.
fn sizes_of(alloc: Global, template: &Template) -> Result<RuleSizes, Memory>
    ensures { IfOk result (λ sizes. sizes ≡ sizes_of template.now) }
{
    let pieces = template.pieces.as_slice();
    Ok(RuleSizes {
        context: context_bytes(template.context.as_slice())?,
        fixed: fixed_size(pieces)?,
        keyed: keyed_pieces(alloc, pieces)?,
    })
}

/// Returns the bytes of the string of a context.
#[tactic(auto, using(crate::proofs::RecordSizes::context_string))]
fn context_bytes(context: &[Pat]) -> Result<u64, Memory>
    ensures { IfOk result (λ size. size ≡ length (string (pattern_units context.now))) }
{
    let units = context_size(context)?;
    let size = bytes_of(units)?;
    Ok(size)
}

/// Returns the number of units of a context.
fn context_size(context: &[Pat]) -> Result<u64, Memory>
    ensures { IfOk result (λ size. size ≡ context_size context.now) }
{
    let mut size = 0;
    for item in context {
        size = larger(size, pattern_units(*item))?;
    }
    Ok(size)
}

/// Returns the number of units of an item of a context.
#[tactic(auto, unfolding(kmx_format::specs::FileUnits::item_units))]
fn pattern_units(item: Pat) -> u64
    ensures { result ≡ length (pattern_units (item ∷ [])) }
{
    match item {
        Pat::Char(c) => u64::from(char_unit_count(c)),
        Pat::Nul => 2,
        Pat::Mark(_) | Pat::Any(_) | Pat::NotAny(_) | Pat::ContextAt(_) => 3,
        Pat::Index(..) => 4,
        Pat::Equal(..) | Pat::Unequal(..) | Pat::SystemEqual(..) | Pat::SystemUnequal(..) => 5,
    }
}

/// Returns the number of bytes of a string with this number of units, or 0 for the empty string.
fn bytes_of(units: u64) -> Result<u64, Memory>
    ensures { IfOk result (λ bytes. bytes ≡ bytes_of units) }
{
    if units == 0 {
        return Ok(0);
    }
    larger(larger(units, units)?, 2)
}

/// Returns the number of units of the outputs of the pieces that do not depend on the key.
fn fixed_size(pieces: &[Piece]) -> Result<u64, Memory>
    ensures { IfOk result (λ size. size ≡ fixed_size pieces.now) }
{
    let mut size = 0;
    for piece in pieces {
        size = larger(size, fixed_units(*piece))?;
    }
    Ok(size)
}

/// Returns the number of units of the output of a piece for every key, or 0 if the output depends on the key.
fn fixed_units(piece: Piece) -> u64
    ensures { result ≡ fixed_units piece }
{
    match piece {
        Piece::Fixed(out) => out_units(out),
        Piece::AtKey(_) => 0,
    }
}

/// Returns the number of units of an item of an output.
#[tactic(auto, unfolding(kmx_format::specs::FileUnits::item_units))]
fn out_units(out: Out) -> u64
    ensures { result ≡ length (output_units (out ∷ [])) }
{
    match out {
        Out::Char(c) => u64::from(char_unit_count(c)),
        Out::Context | Out::Nul | Out::Beep | Out::Stop => 2,
        Out::Mark(_) | Out::ContextAt(_) | Out::Enter(_) | Out::Save(_) | Out::Reset(_) => 3,
        Out::Index(..) | Out::Set(..) | Out::SetSystem(..) => 4,
    }
}

/// Returns the pieces that depend on the key.
fn keyed_pieces(alloc: Global, pieces: &[Piece]) -> Result<Seq<Piece>, Memory>
    ensures { IfOk result (λ keyed. keyed ≡ flat_map keyed_of pieces.now) }
{
    let mut keyed = Vec::new(alloc);
    for piece in pieces {
        add_keyed(&mut keyed, *piece)?;
    }
    Ok(Seq::from_vec(keyed))
}

/// Appends a piece if it depends on the key.
fn add_keyed(keyed: &mut Vec<Piece>, piece: Piece) -> Result<(), Memory>
    ensures { OnOk result (keyed.new.items ≡ keyed.old.items ++ keyed_of piece) }
{
    match piece {
        Piece::Fixed(_) => {}
        Piece::AtKey(_) => keyed.push(piece)?,
    }
    Ok(())
}

/// Returns the bytes of the records with this key: those for each element if it is a key store, else those for the key.
fn keyed_size(
    numbers: &Lookups<'_>,
    sizes: &RuleSizes,
    key: &Option<SrcItem>,
) -> Result<u64, Memory>
    requires { is_unit_key numbers.now.stores key.now ≡ true }
    ensures { IfOk result (λ size. size ≡ sized_keyed numbers.now sizes.now key.now) }
{
    match key {
        Some(SrcItem::Any(store)) => {
            let elements = numbers.elements(store.as_slice());
            placed_size(numbers, sizes, elements)
        }
        _ => {
            let wanted = own_key(numbers, key);
            halves_size(numbers, sizes, None, wanted)
        }
    }
}

/// Returns the bytes of the records for the elements of a key store.
#[tactic(auto, using(crate::proofs::RuleRecords::unit_at, crate::proofs::RuleRecords::few_at))]
fn placed_size(
    numbers: &Lookups<'_>,
    sizes: &RuleSizes,
    elements: &[Element],
) -> Result<u64, Memory>
    requires { are_unit_elements elements.now ≡ true }
    ensures { IfOk result (λ size. size ≡ sized_places numbers.now sizes.now 0 elements.now) }
{
    let mut size = 0;
    for (place, element) in elements.iter().enumerate() {
        let key = element_key(*element);
        size = larger(size, halves_size(numbers, sizes, Some(place as u32), key)?)?;
    }
    Ok(size)
}

/// Returns the bytes of the records for a key: one, or one for each of two halves.
fn halves_size(
    numbers: &Lookups<'_>,
    sizes: &RuleSizes,
    place: Option<u32>,
    key: RuleKey,
) -> Result<u64, Memory>
    ensures { IfOk result (λ size. size ≡ sized_halves numbers.now sizes.now place key) }
{
    let size = record_size(numbers, sizes, place)?;
    if has_halves(numbers, key) {
        larger(size, size)
    } else {
        Ok(size)
    }
}

/// Returns the bytes of a record of a rule with these sizes if its key has this position in a key store.
fn record_size(numbers: &Lookups<'_>, sizes: &RuleSizes, place: Option<u32>) -> Result<u64, Memory>
    ensures { IfOk result (λ size. size ≡ sized_record numbers.now.stores sizes.now place) }
{
    let keyed = pieces_size(numbers, sizes.keyed.as_slice(), place)?;
    let units = larger(sizes.fixed, keyed)?;
    let output = bytes_of(some_units(units))?;
    larger(RULE_BYTES as u64, larger(sizes.context, output)?)
}

/// Returns the number of units of the output of pieces if the key has this position in its store.
fn pieces_size(numbers: &Lookups<'_>, pieces: &[Piece], place: Option<u32>) -> Result<u64, Memory>
    ensures { IfOk result (λ size. size ≡ pieces_size numbers.now.stores place pieces.now) }
{
    let mut size = 0;
    for piece in pieces {
        size = larger(size, piece_size(numbers, place, *piece))?;
    }
    Ok(size)
}

/// Returns the number of units of the output of a piece if the key has this position in its store.
fn piece_size(numbers: &Lookups<'_>, place: Option<u32>, piece: Piece) -> u64
    ensures { result ≡ outs_size (piece_outs numbers.now.stores place piece) }
{
    match piece_out(numbers, place, piece) {
        Some(out) => out_units(out),
        None => 0,
    }
}

/// Returns a number of units, or the number of units of a `nul` if it is 0.
fn some_units(units: u64) -> u64
    ensures { result ≡ some_units units }
{
    if units == 0 { 2 } else { units }
}
