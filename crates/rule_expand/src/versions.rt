//! The version that a program states.

ghost use Rattle.std.specs.Prelude.{◌≡◌, ℕ, List, find, map, option_map, unwrap_or};
ghost use Rattle.kmx_format.specs.declared.versions.TheConstants.{OWN_VERSION};
ghost use Rattle.rule_model.specs.Match.{same_value};
ghost use Rattle.rule_model.specs.Src.{value_elements};
ghost use Rattle.compile_laws.specs.Numbers.{is_version, stated_version};

use kmn_base::Element;
use kmx_format::{OWN_VERSION, file_versions};
use rule_model::Store;
use rule_model::system::VERSION;

/// Returns the version of the file of these stores, which the first `&version` states.
pub fn version_of(stores: &[Store]) -> u16
    ensures { result ≡ stated_version (find is_version stores.now) }
{
    for store in stores {
        if store.system == VERSION {
            return version_in(file_versions(), store.elements.as_slice());
        }
    }
    OWN_VERSION
}

/// Returns the number of the version that elements state, in a table.
fn version_in(table: &[(&str, u16)], elements: &[Element]) -> u16
    ensures { result ≡ unwrap_or (option_map (λ (row : List ℕ × ℕ). row.1) (find (λ (row : List ℕ × ℕ). same_value (value_elements row.0) elements.now) (map (λ row. (row.0.now, row.1)) table.now))) OWN_VERSION }
{
    for row in table {
        if is_text(row.0.as_bytes(), elements) {
            return row.1;
        }
    }
    OWN_VERSION
}

/// Returns whether elements are the characters of an ASCII text.
fn is_text(text: &[u8], elements: &[Element]) -> bool
    ensures { result ≡ same_value (value_elements text.now) elements.now }
{
    match text {
        [] => elements.is_empty(),
        [byte, rest @ ..] => match elements {
            [Element::Char(c), others @ ..] => *c == char::from(*byte) && is_text(rest, others),
            _ => false,
        },
    }
}
