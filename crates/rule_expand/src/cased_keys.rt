//! The cased keys of a program, and the two halves of such a key in a rule.

ghost use Rattle.std.specs.Prelude.{◌≡◌, find, IfOk, OnOk};
ghost use Rattle.rule_model.specs.Tab.{store_elements};
ghost use Rattle.rule_model.specs.Src.{is_cased_keys, codes_among};
ghost use Rattle.rule_model.specs.CasedKeys.{half_flags, with_other_shift};
ghost use Rattle.compile_laws.specs.Compiles.{has_halves, half_key};
ghost use Rattle.rule_expand.specs.CasedCodes.{cased_codes, with_code, HasCodes};

use crate::lookups::Lookups;
use indexmap::IndexSet;
use kmn_base::{Element, Memory, RuleKey, keys};
use rule_model::Store;
use rule_model::system::CASED_KEYS;
use std::alloc::Global;

// The bits of the flags of a compiled key.
const SHIFT: u32 = keys::SHIFT as u32;

const CAPS: u32 = keys::CAPS as u32;

const NO_CAPS: u32 = keys::NO_CAPS as u32;

/// Returns the codes of the cased keys, each once, as a set that finds a code by hash.
pub fn cased_codes(alloc: Global, stores: &[Store]) -> Result<IndexSet<u16>, Memory>
    ensures { IfOk result (λ codes. HasCodes codes.keys (cased_codes stores.now)) }
{
    codes_among(alloc, cased_elements(stores))
}

/// Returns the codes of the keys among elements, each once.
fn codes_among(alloc: Global, elements: &[Element]) -> Result<IndexSet<u16>, Memory>
    ensures { IfOk result (λ codes. HasCodes codes.keys (codes_among elements.now)) }
{
    let mut codes = IndexSet::new(alloc);
    for element in elements {
        add_code(&mut codes, *element)?;
    }
    Ok(codes)
}

/// Adds the code of an element if the element is a key.
fn add_code(codes: &mut IndexSet<u16>, element: Element) -> Result<(), Memory>
    ensures { OnOk result (codes.new.keys ≡ with_code codes.old.keys element) }
{
    if let Element::Key { code, .. } = element {
        codes.insert(code)?;
    }
    Ok(())
}

/// Returns the elements of the first `&casedkeys`.
fn cased_elements(stores: &[Store]) -> &[Element]
    ensures { result.now ≡ store_elements (find is_cased_keys stores.now) }
{
    for store in stores {
        if store.system == CASED_KEYS {
            return store.elements.as_slice();
        }
    }
    &[]
}

/// Returns whether a key has two records.
pub fn has_halves(numbers: &Lookups<'_>, key: RuleKey) -> bool
    ensures { result ≡ has_halves numbers.now.cased key }
{
    match key {
        RuleKey::Virtual { flags, code } => {
            numbers.is_cased(code) && (flags & CAPS == 0 && flags & NO_CAPS == 0)
        }
        _ => false,
    }
}

/// Returns a half of a key.
pub fn half_key(half: u32, key: RuleKey) -> RuleKey
    ensures { result ≡ half_key half key }
{
    match key {
        RuleKey::Virtual { flags, code } => RuleKey::Virtual {
            flags: half_flags(half, flags),
            code,
        },
        _ => key,
    }
}

/// Returns the flags of a half: half 0 is for presses without caps lock, half 1 for those with it.
fn half_flags(half: u32, flags: u32) -> u32
    ensures { result ≡ half_flags half flags }
{
    if half == 0 {
        flags | NO_CAPS
    } else {
        with_other_shift(flags) | CAPS
    }
}

/// Returns the flags with SHIFT inverted.
fn with_other_shift(flags: u32) -> u32
    ensures { result ≡ with_other_shift flags }
{
    if flags & SHIFT == 0 {
        flags | SHIFT
    } else {
        flags & !SHIFT
    }
}
