//! The number of key records of tables, which the writer and the printed counts of a file use.

ghost use Rattle.std.specs.Prelude.{◌≡◌, ◌<◌, ◌^◌, length};
ghost use Rattle.std.specs.List.{flat_map};
ghost use Rattle.kmx_format.specs.File.{rules_of};

use rule_model::Group;

/// Returns the number of key records of all groups.
pub fn rule_count(groups: &[Group]) -> u64
    requires { length (flat_map rules_of groups.now) < 2 ^ 64 }
    ensures { result ≡ length (flat_map rules_of groups.now) }
{
    let mut count = 0;
    for group in groups {
        count += group.rules.len() as u64;
    }
    count
}
