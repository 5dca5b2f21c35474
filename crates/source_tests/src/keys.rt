//! Keys by name and key press.

use kmn_base::{KeyPress, RuleKey};
use std::test::Fail;
use virtual_keys::{char_of, fits, is_plain, key_named, modifier_named, name_of, named_chars};

/// A key's name and code, the modifiers of a press of it, the character that the press produces, the shift flags of a rule, and
/// whether the rule matches the press.
const PRESSES: &[(&str, u16, u16, Option<char>, u32, bool)] = &[
    ("K_A", 65, 0, Some('a'), 0x4000, true),
    ("K_A", 65, 16, Some('A'), 0x4000, false),
    ("K_Z", 90, 272, Some('z'), 0x4110, true),
    ("K_9", 57, 272, Some('('), 0x4210, false),
    ("K_QUOTE", 222, 16, Some('"'), 0x4310, false),
    ("K_NPSTAR", 106, 16, Some('*'), 0x4010, true),
    ("K_oE2", 226, 0, None, 0x4000, true),
    ("K_BKSP", 8, 1, None, 0x4020, true),
    ("K_A", 65, 2, None, 0x4001, false),
    ("K_A", 65, 12, None, 0x4008, false),
];

/// Returns whether the tables of keys agree with a row.
fn is_right(row: (&str, u16, u16, Option<char>, u32, bool)) -> bool {
    let (name, code, mods, given, flags, fit) = row;
    let press = KeyPress { code, mods };
    key_named(name.as_bytes()) == Some(code)
        && name_of(code) == Some(name.as_bytes())
        && char_of(press) == given
        && is_plain(press) == (mods % 16 == 0)
        && fits(RuleKey::Virtual { flags, code }, press) == fit
}

/// Returns whether the name of a key lists these characters.
fn lists(name: &[u8], wanted: &[char]) -> bool {
    match named_chars(name) {
        Some(chars) => chars.as_slice() == wanted,
        None => false,
    }
}

#[test]
fn keys_by_name_and_press(rt: HostRuntime) -> Result<(), Fail> {
    for &row in PRESSES {
        assert!(rt; is_right(row), "{}", row.0);
    }
    assert_eq!(rt; modifier_named(b"ncaps"), Some(0x0200));
    assert!(rt; lists(b"u_01F600_0041", &['\u{1F600}', 'A']));
    assert!(rt; named_chars(b"U_D800").is_none());
    Ok(())
}
