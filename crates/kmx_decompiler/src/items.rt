//! Tests of elements, items and contexts that do not depend on the tables.

ghost use Rattle.std.specs.Prelude.{◌≡◌, ◌≤◌, bit_and, false, filter, filter_map, length, nat_eq, option_to_list};
ghost use Rattle.std.specs.List.{list_all, list_any};
ghost use Rattle.kmn_base.specs.declared.limits.TheConstants.{FILE_BYTES};
ghost use Rattle.kmn_parser.specs.Names.{is_inner};
ghost use Rattle.virtual_keys.specs.Dictionary.{is_nameable};
ghost use Rattle.rule_model.specs.Tab.{element_char};
ghost use Rattle.rule_model.specs.Patterns.{is_nul};
ghost use Rattle.item_checker.specs.Items.{is_no_character};
ghost use Rattle.decompile_program.specs.WrittenOut.{output_values, pattern_values};
ghost use Rattle.kmx_decompiler.specs.Causes.{is_far_mark, is_far_output, is_far_pattern, stands_behind_match};

use kmn_base::limits::DEADKEYS;
use kmn_base::texts::is_forbidden;
use kmn_base::{Element, SHIFT_FLAGS};
use kmx_parts::Patterns;
use rule_model::{Out, Pat};

/// Returns whether the number of a deadkey is larger than a source can have.
pub(crate) fn is_far_mark(mark: u16) -> bool
    ensures { result ≡ is_far_mark mark }
{
    DEADKEYS < usize::from(mark)
}

/// Returns whether each of the flags is one that a source can express.
pub(crate) fn are_shift_flags(flags: u16) -> bool
    ensures { result ≡ nat_eq (bit_and flags SHIFT_FLAGS) flags }
{
    flags & SHIFT_FLAGS == flags
}

/// Returns whether a unit is a character that a keyboard can have.
pub(crate) fn is_nameable(unit: u16) -> bool
    ensures { result ≡ is_nameable unit }
{
    !is_forbidden(u32::from(unit)) && !(0xD800..0xE000).contains(&unit)
}

/// Returns whether at least one of the elements is not a character.
pub(crate) fn has_no_character(elements: &[Element]) -> bool
    ensures { result ≡ list_any is_no_character elements.now }
{
    elements.iter().any(|element| is_no_character(element))
}

/// Returns whether an element is not a character.
fn is_no_character(element: &Element) -> bool
    ensures { result ≡ is_no_character element.now }
{
    !matches!(element, Element::Char(_))
}

/// Returns whether no character among the elements ends a line.
pub(crate) fn are_inner(elements: &[Element]) -> bool
    ensures { result ≡ list_all is_inner (filter_map element_char elements.now) }
{
    for element in elements {
        if let Element::Char(c) = element {
            if !is_inner(*c) {
                return false;
            }
        }
    }
    true
}

/// Returns whether a character does not end a line.
fn is_inner(character: char) -> bool
    ensures { result ≡ is_inner character }
{
    character != '\n' && character != '\r'
}

pub(crate) fn is_far_pattern(pattern: &Pat) -> bool
    ensures { result ≡ is_far_pattern pattern.now }
{
    match pattern {
        Pat::Mark(mark) => is_far_mark(*mark),
        _ => false,
    }
}

/// Returns the store that contains the value of an item of a context, if the item has a value.
pub(crate) fn pattern_value(pattern: &Pat) -> Option<u32>
    ensures { option_to_list result ≡ pattern_values pattern.now }
{
    match pattern {
        Pat::Equal(_, value)
        | Pat::Unequal(_, value)
        | Pat::SystemEqual(_, value)
        | Pat::SystemUnequal(_, value) => Some(*value),
        _ => None,
    }
}

pub(crate) fn is_far_output(output: &Out) -> bool
    ensures { result ≡ is_far_output output.now }
{
    match output {
        Out::Mark(mark) => is_far_mark(*mark),
        _ => false,
    }
}

/// Returns the store that contains the value of an item of an output, if the item has a value.
pub(crate) fn output_value(output: &Out) -> Option<u32>
    ensures { option_to_list result ≡ output_values output.now }
{
    match output {
        Out::Set(_, value) | Out::SetSystem(_, value) => Some(*value),
        _ => None,
    }
}

/// Returns whether a condition or `nul` follows an item that is matched.
pub(crate) fn stands_behind_match(context: Patterns<'_>) -> bool
    ensures { result ≡ stands_behind_match false context.entry }
{
    let mut matched = false;
    for pattern in context {
        if matched && !pattern.is_matched() {
            return true;
        }
        matched = matched || pattern.is_matched();
    }
    false
}

/// Returns the number of items in a context.
pub(crate) fn item_count(context: Patterns<'_>) -> usize
    requires { length context ≤ FILE_BYTES }
    ensures { result ≡ length context.entry }
{
    context.count()
}

/// Returns the number of `nul` items in a context.
pub(crate) fn nul_count(context: Patterns<'_>) -> usize
    requires { length context ≤ FILE_BYTES }
    ensures { result ≡ length (filter is_nul context.entry) }
{
    context.filter(|pattern| pattern.is_nul()).count()
}
