//! The system options, which come after the stores.

ghost use Rattle.std.specs.Prelude.{◌≡◌, ◌-◌, Some, if◌then◌else◌, nat_eq, length, slice_get};
ghost use Rattle.std.specs.Option.{option_flatten};
ghost use Rattle.rule_model.specs.Content.{elements_at};
ghost use Rattle.rule_model.specs.declared.system.TheConstants.{PLATFORM};
ghost use Rattle.rule_model.specs.System.{system_options};

use kmn_base::Element;
use rule_model::system::PLATFORM;

/// The layer that a keyboard begins with: `default`.
static FIRST_LAYER: [Element; 7] = [
    Element::Char('d'),
    Element::Char('e'),
    Element::Char('f'),
    Element::Char('a'),
    Element::Char('u'),
    Element::Char('l'),
    Element::Char('t'),
];

/// The platform that a keyboard begins with: `windows desktop hardware native`.
static FIRST_PLATFORM: [Element; 31] = [
    Element::Char('w'),
    Element::Char('i'),
    Element::Char('n'),
    Element::Char('d'),
    Element::Char('o'),
    Element::Char('w'),
    Element::Char('s'),
    Element::Char(' '),
    Element::Char('d'),
    Element::Char('e'),
    Element::Char('s'),
    Element::Char('k'),
    Element::Char('t'),
    Element::Char('o'),
    Element::Char('p'),
    Element::Char(' '),
    Element::Char('h'),
    Element::Char('a'),
    Element::Char('r'),
    Element::Char('d'),
    Element::Char('w'),
    Element::Char('a'),
    Element::Char('r'),
    Element::Char('e'),
    Element::Char(' '),
    Element::Char('n'),
    Element::Char('a'),
    Element::Char('t'),
    Element::Char('i'),
    Element::Char('v'),
    Element::Char('e'),
];

/// Returns the elements of the layer at 0 and of the platform at 1, and none after them.
pub fn system_elements(place: usize) -> &'static [Element]
    ensures { result.now ≡ elements_at system_options (Some place) }
{
    match place {
        0 => &FIRST_LAYER,
        1 => &FIRST_PLATFORM,
        _ => &[],
    }
}

/// Returns the number of the system option with an id among the numbers of all stores: the platform's is the last, and the
/// layer's is the one before it.
#[tactic(auto, using(std::proofs::lemmas::Bool::Decides::nat_tests))]
pub fn system_number(numbers: &[Option<usize>], id: u32) -> Option<usize>
    ensures { result ≡ option_flatten (slice_get numbers.now (length numbers.now - (if nat_eq id PLATFORM then 1 else 2))) }
{
    if id == PLATFORM {
        number_from_end(numbers, 1)
    } else {
        number_from_end(numbers, 2)
    }
}

/// Returns the number at the position `back` from the end.
fn number_from_end(numbers: &[Option<usize>], back: usize) -> Option<usize>
    ensures { result ≡ option_flatten (slice_get numbers.now (length numbers.now - back)) }
{
    numbers
        .get(numbers.len().saturating_sub(back))
        .copied()
        .flatten()
}
