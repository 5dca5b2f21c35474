//! Lists of names, which compare without ASCII case.

ghost use Rattle.std.specs.Prelude.{◌≡◌, map};
ghost use Rattle.import_outline.specs.Names.{has_name};

use kmn_base::Text;
use kmn_base::names::same_name;

/// Returns whether a name is among the words of a table.
pub fn is_listed(table: &[&str], name: &[u8]) -> bool
    ensures { result ≡ has_name (map (λ word. word.now) table.now) name.now }
{
    for word in table {
        if same_name(name, word.as_bytes()) {
            return true;
        }
    }
    false
}

/// Returns whether a name is among names.
pub fn has_name(names: &[Text], name: &[u8]) -> bool
    ensures { result ≡ has_name names.now name.now }
{
    for known in names {
        if same_name(name, known.as_slice()) {
            return true;
        }
    }
    false
}
