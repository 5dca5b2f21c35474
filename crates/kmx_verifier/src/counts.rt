//! Counts what all groups of a file contain.

ghost use Rattle.std.specs.Prelude.{◌≡◌, ◌<◌, ◌^◌, length};
ghost use Rattle.kmx_format.specs.File.{all_rules};

use kmx_parts::FileTables;

/// Returns the number of key records in all groups.
pub(crate) fn rule_count(file: &FileTables<'_>) -> u32
    requires { length (all_rules file.now) < 2 ^ 32 }
    ensures { result ≡ length (all_rules file.now) }
{
    let mut count = 0;
    for group in file.groups() {
        count += group.rule_count();
    }
    count
}
