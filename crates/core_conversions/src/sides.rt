//! The conversion of keys: clears the sides that CTRL or ALT makes needless.

ghost use Rattle.std.specs.Prelude.{◌≡◌, map};
ghost use Rattle.core_conversions.specs.Conversions.{without_control_sides, without_alt_sides, plain_flags, plain_key, plain_rule, plain_group, plain_sides};

use kmn_base::RuleKey;
use kmn_base::keys::{EITHER_ALT, EITHER_CONTROL};
use rule_model::{Group, Rule, Tables};
use virtual_keys::has;

/// All flags but LCTRL and RCTRL.
const NO_CONTROL_SIDES: u32 = 0xFFFF_FFFC;

/// All flags but LALT and RALT.
const NO_ALT_SIDES: u32 = 0xFFFF_FFF3;

/// Clears LCTRL and RCTRL in the flags of each key that has CTRL, and LALT and RALT in those of each key that has ALT.
pub fn plain_sides(tables: &mut Tables)
    ensures { tables.new ≡ plain_sides tables.old }
{
    plain_groups(tables.groups.as_mut_slice());
}

/// Clears the needless flags of all rules of groups.
fn plain_groups(groups: &mut [Group])
    ensures { groups.new ≡ map plain_group groups.old }
{
    for group in groups.iter_mut() {
        plain_group(group);
    }
}

/// Clears the needless flags of all rules of a group.
fn plain_group(group: &mut Group)
    ensures { group.new ≡ plain_group group.old }
{
    plain_rules(group.rules.as_mut_slice());
}

/// Clears the needless flags of rules.
fn plain_rules(rules: &mut [Rule])
    ensures { rules.new ≡ map plain_rule rules.old }
{
    for rule in rules.iter_mut() {
        rule.key = plain_key(rule.key);
    }
}

/// Returns a key without needless flags.
fn plain_key(key: RuleKey) -> RuleKey
    ensures { result ≡ plain_key key }
{
    match key {
        RuleKey::Virtual { flags, code } => RuleKey::Virtual {
            flags: plain_flags(flags),
            code,
        },
        other => other,
    }
}

/// Returns flags without the sides of control if they have CTRL, and without those of alt if they have ALT.
pub fn plain_flags(flags: u32) -> u32
    ensures { result ≡ plain_flags flags }
{
    without_alt_sides(without_control_sides(flags))
}

/// Returns flags without LCTRL and RCTRL if they have CTRL.
fn without_control_sides(flags: u32) -> u32
    ensures { result ≡ without_control_sides flags }
{
    if has(flags, EITHER_CONTROL) {
        flags & NO_CONTROL_SIDES
    } else {
        flags
    }
}

/// Returns flags without LALT and RALT if they have ALT.
fn without_alt_sides(flags: u32) -> u32
    ensures { result ≡ without_alt_sides flags }
{
    if has(flags, EITHER_ALT) {
        flags & NO_ALT_SIDES
    } else {
        flags
    }
}
