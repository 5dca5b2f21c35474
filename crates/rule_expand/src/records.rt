//! Builds the records of a rule.

ghost use Rattle.std.specs.Prelude.{◌≡◌, ◌<◌, ◌≤◌, ◌++◌, true, map, unwrap_or, IfOk, OnOk};
ghost use Rattle.kmn_base.specs.declared.keys.RuleKey.TheVariants as key;
ghost use Rattle.rule_model.specs.Hold.{key_of_element};
ghost use Rattle.compile_laws.specs.Compiles.{file_pattern, own_key, rule_records};
ghost use Rattle.rule_expand.specs.Groups.{is_unit_element, are_unit_elements, is_unit_key, has_unit_key};
ghost use Rattle.rule_expand.specs.Pieces.{template_of, template_record, template_halves, template_records, template_keyed};

use crate::cased_keys::{half_key, has_halves};
use crate::lookups::Lookups;
use crate::pieces::{Piece, outputs_at, pieces_of};
use kmn_base::{Element, Memory, RuleKey, Seq};
use rule_model::{Pat, Rule, RuleDef, SrcItem};
use std::alloc::Global;

/// What the records of a rule have in common.
#[derive(Drop)]
pub struct Template {
    /// From 1.
    pub line: u32,
    pub context: Seq<Pat>,
    pub pieces: Seq<Piece>,
}

/// Returns what the records of a rule have in common.
pub fn template_of(alloc: Global, numbers: &Lookups<'_>, rule: &RuleDef) -> Result<Template, Memory>
    ensures { IfOk result (λ template. template ≡ template_of numbers.now rule.now) }
{
    let context = context_of(alloc, numbers, rule.context.as_slice())?;
    let pieces = pieces_of(alloc, numbers, rule.context.len(), rule.output.as_slice())?;
    Ok(Template {
        line: rule.line,
        context,
        pieces,
    })
}

/// Returns the context of a rule.
fn context_of(alloc: Global, numbers: &Lookups<'_>, items: &[SrcItem]) -> Result<Seq<Pat>, Memory>
    ensures { IfOk result (λ context. context ≡ map (file_pattern numbers.now) items.now) }
{
    let mut context = Vec::with_capacity(alloc, items.len())?;
    for item in items {
        context.push(pattern_of(numbers, item))?;
    }
    Ok(Seq::from_vec(context))
}

/// Returns the pattern of a context item.
fn pattern_of(numbers: &Lookups<'_>, item: &SrcItem) -> Pat
    ensures { result ≡ file_pattern numbers.now item.now }
{
    match item {
        SrcItem::Char(c) => Pat::Char(*c),
        SrcItem::Dead(name) => Pat::Mark(numbers.mark(name.as_slice())),
        SrcItem::Any(store) => Pat::Any(numbers.store(store.as_slice())),
        SrcItem::NotAny(store) => Pat::NotAny(numbers.store(store.as_slice())),
        SrcItem::Index(store, offset) => Pat::Index(numbers.store(store.as_slice()), *offset),
        SrcItem::ContextAt(offset) => Pat::ContextAt(*offset),
        SrcItem::Equal(store, value) => Pat::Equal(
            numbers.store(store.as_slice()),
            numbers.value(value.as_slice()),
        ),
        SrcItem::Unequal(store, value) => Pat::Unequal(
            numbers.store(store.as_slice()),
            numbers.value(value.as_slice()),
        ),
        SrcItem::SystemEqual(id, value) => Pat::SystemEqual(*id, numbers.value(value.as_slice())),
        SrcItem::SystemUnequal(id, value) => {
            Pat::SystemUnequal(*id, numbers.value(value.as_slice()))
        }
        _ => Pat::Nul,
    }
}

/// Returns the key of a rule whose key is not an `any`.
pub fn own_key(numbers: &Lookups<'_>, key: &Option<SrcItem>) -> RuleKey
    requires { is_unit_key numbers.now.stores key.now ≡ true }
    ensures { result ≡ own_key numbers.now key.now }
{
    match key {
        Some(SrcItem::Char(c)) => RuleKey::Char(*c as u16),
        Some(SrcItem::Key(key)) => RuleKey::Virtual {
            flags: u32::from(key.flags),
            code: numbers.key(key),
        },
        _ => RuleKey::Any,
    }
}

/// Returns the key that an element of a key store denotes.
pub fn element_key(element: Element) -> RuleKey
    requires { is_unit_element element ≡ true }
    ensures { result ≡ unwrap_or (key_of_element element) key.Any }
{
    match element {
        Element::Char(c) => RuleKey::Char(c as u16),
        Element::Mark(_) => RuleKey::Any,
        Element::Key { flags, code } => RuleKey::Virtual {
            flags: u32::from(flags),
            code,
        },
    }
}

/// Makes the records of a rule from what they have in common.
#[derive(Drop)]
struct RecordMaker<'a> {
    alloc: Global,
    numbers: &'a Lookups<'a>,
    template: Template,
}

impl<'a> RecordMaker<'a> {
    /// Returns the record for a key, given the position of the key in a key store, if any, and the number of the half.
    fn record_of(&self, place: Option<u32>, half: u32, key: RuleKey) -> Result<Rule, Memory>
        requires place { unwrap_or place 0 < 0x7FFF_FFFF }
        requires half { half ≤ 1 }
        ensures { IfOk result (λ made. made ≡ template_record self.now.numbers.now.stores self.now.template place half key) }
    {
        let pieces = self.template.pieces.as_slice();
        Ok(Rule {
            line: self.template.line,
            place: 2 * place.unwrap_or(0) + half,
            key,
            context: self.template.context.copy(self.alloc)?,
            output: outputs_at(self.alloc, self.numbers, pieces, place)?,
        })
    }

    /// Appends the records for a key: one, or one for each of two halves.
    fn add_halves(
        &self,
        records: &mut Vec<Rule>,
        place: Option<u32>,
        key: RuleKey,
    ) -> Result<(), Memory>
        requires { unwrap_or place 0 < 0x7FFF_FFFF }
        ensures { OnOk result (records.new.items ≡ records.old.items ++ template_halves self.now.numbers.now self.now.template place key) }
    {
        if !has_halves(self.numbers, key) {
            records.push(self.record_of(place, 0, key)?)?;
            return Ok(());
        }
        let small = self.record_of(place, 0, half_key(0, key))?;
        records.push(small)?;
        let large = self.record_of(place, 1, half_key(1, key))?;
        records.push(large)?;
        Ok(())
    }

    /// Appends the records for the elements of a key store.
    #[tactic(auto, using(crate::proofs::RuleRecords::unit_at, crate::proofs::RuleRecords::few_at))]
    fn add_placed(&self, records: &mut Vec<Rule>, elements: &[Element]) -> Result<(), Memory>
        requires { are_unit_elements elements.now ≡ true }
        ensures { OnOk result (records.new.items ≡ records.old.items ++ template_records self.now.numbers.now self.now.template 0 elements.now) }
    {
        for (place, element) in elements.iter().enumerate() {
            let key = element_key(*element);
            self.add_halves(records, Some(place as u32), key)?;
        }
        Ok(())
    }

    /// Appends the records of the rule: those for each element if the key is a key store, else those for the key.
    fn add_keyed(&self, records: &mut Vec<Rule>, key: &Option<SrcItem>) -> Result<(), Memory>
        requires { is_unit_key self.now.numbers.now.stores key.now ≡ true }
        ensures { OnOk result (records.new.items ≡ records.old.items ++ template_keyed self.now.numbers.now self.now.template key.now) }
    {
        match key {
            Some(SrcItem::Any(store)) => {
                let elements = self.numbers.elements(store.as_slice());
                self.add_placed(records, elements)
            }
            _ => {
                let wanted = own_key(self.numbers, key);
                self.add_halves(records, None, wanted)
            }
        }
    }
}

/// Appends the records of a rule.
#[tactic(auto, using(crate::proofs::RuleRecords::all_records))]
pub fn add_records(
    alloc: Global,
    records: &mut Vec<Rule>,
    numbers: &Lookups<'_>,
    rule: &RuleDef,
) -> Result<(), Memory>
    requires { has_unit_key numbers.now.stores rule.now ≡ true }
    ensures { OnOk result (records.new.items ≡ records.old.items ++ rule_records numbers.now rule.now) }
{
    let maker = RecordMaker {
        alloc,
        numbers,
        template: template_of(alloc, numbers, rule)?,
    };
    maker.add_keyed(records, &rule.key)
}
