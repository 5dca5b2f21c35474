//! The byte offsets of a file's parts, computed before a byte is written, since the header and the arrays contain offsets.

ghost use Rattle.kmx_writer.specs.Places.{ArePlaces};
ghost use Rattle.kmx_writer.specs.Spellings.{AreSpellable};

use crate::{groups, stores};
use kmx_format::rule_count;
use kmx_format::sizes::{GROUP_BYTES, HEADER_BYTES, RULE_BYTES, STORE_BYTES};
use rule_model::Tables;

/// The byte offsets at which the parts of a file after its header and its store array begin. `picture` is the size of the
/// file without its bitmap, which is its last part.
#[derive(Clone, Copy)]
pub struct Places {
    pub groups: u64,
    pub rules: u64,
    pub store_strings: u64,
    pub group_strings: u64,
    pub rule_strings: u64,
    pub picture: u64,
}

/// Returns where the parts of the tables' file begin, without writing the file.
pub fn places_of(tables: &Tables) -> Places
    requires { AreSpellable tables.now }
    ensures { ArePlaces tables.now result }
{
    let groups = HEADER_BYTES as u64 + STORE_BYTES as u64 * tables.stores.len() as u64;
    let rules = groups + GROUP_BYTES as u64 * tables.groups.len() as u64;
    let store_strings = rules + RULE_BYTES as u64 * rule_count(tables.groups.as_slice());
    let group_strings = store_strings + stores::all_strings_size(tables.stores.as_slice());
    let rule_strings = group_strings + groups::all_strings_size(tables.groups.as_slice());
    let picture = rule_strings + groups::rule_strings_size(tables.groups.as_slice());
    Places {
        groups,
        rules,
        store_strings,
        group_strings,
        rule_strings,
        picture,
    }
}
