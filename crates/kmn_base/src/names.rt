//! Names and words, which compare without ASCII case, and tables of them.

ghost use Rattle.std.specs.Prelude.{◌≡◌, map, IfOk};
ghost use Rattle.std.specs.Str.{str_to_ascii_lowercase};
ghost use Rattle.kmn_base.specs.Names.{same_name, named_in};

use crate::memory::Memory;
use std::alloc::Global;

/// Returns whether two names are equal without ASCII case. Other letters compare exactly.
#[tactic(auto, unfolding(crate::specs::Names::same_name))]
pub fn same_name(known: &[u8], name: &[u8]) -> bool
    ensures { result ≡ same_name known.now name.now }
{
    known.eq_ignore_ascii_case(name)
}

/// Returns a name in lower case. Errors: `Memory` if an allocation fails.
pub fn in_lower_case(alloc: Global, name: &[u8]) -> Result<Vec<u8>, Memory>
    ensures { IfOk result (λ copy. copy.items ≡ str_to_ascii_lowercase name.now) }
{
    let mut copy = Vec::from_slice(alloc, name)?;
    copy.make_ascii_lowercase();
    Ok(copy)
}

/// Returns the value of a table's first entry with a name.
pub fn named_in<T: Copy>(table: &[(&str, T)], name: &[u8]) -> Option<T>
    ensures { result ≡ named_in (map (λ row. (row.0.now, row.1)) table.now) name.now }
{
    for row in table {
        if same_name(row.0.as_bytes(), name) {
            return Some(row.1);
        }
    }
    None
}
