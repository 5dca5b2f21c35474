//! The characters among the elements of a store.

ghost use Rattle.std.specs.Prelude.{◌≡◌, ◌==◌, filter_map};
ghost use Rattle.std.specs.List.{list_any};
ghost use Rattle.rule_model.specs.Tab.{element_char};

use kmn_base::Element;

/// Returns whether a character is among elements.
pub fn has_character(elements: &[Element], wanted: char) -> bool
    ensures { result ≡ list_any (λ c. c == wanted) (filter_map element_char elements.now) }
{
    for element in elements {
        if let Element::Char(c) = element {
            if *c == wanted {
                return true;
            }
        }
    }
    false
}
