//! The versions of the format, each by its text and its number.

ghost use Rattle.std.specs.Prelude.{◌≡◌, ℕ, List, [], find, map, nat_eq, option_map, unwrap_or};
ghost use Rattle.std.specs.List.{list_any};
ghost use Rattle.kmx_format.specs.Versions.{file_versions, is_version, version_text};

/// The number of version 10.0, which a file has if its source states no version.
pub const OWN_VERSION: u16 = 0x0A00;

/// The text of each version, as in `&version`, with its number in a file.
static VERSIONS: [(&'static str, u16); 9] = [
    ("6.0", 0x0600),
    ("7.0", 0x0700),
    ("8.0", 0x0800),
    ("9.0", 0x0900),
    ("10.0", 0x0A00),
    ("14.0", 0x0E00),
    ("15.0", 0x0F00),
    ("16.0", 0x1000),
    ("17.0", 0x1100),
];

/// Returns the text of each version, as in `&version`, with its number in a file.
pub fn file_versions() -> &'static [(&'static str, u16)]
    ensures { map (λ row. (row.0.now, row.1)) result.now ≡ file_versions }
{
    &VERSIONS
}

/// Returns whether a number is the number of a version.
pub fn is_version(number: u32) -> bool
    ensures { result ≡ is_version number }
{
    has_number(&VERSIONS, number)
}

/// Returns whether a number is among the numbers of a table.
fn has_number(table: &[(&str, u16)], number: u32) -> bool
    ensures { result ≡ list_any (nat_eq number) (map (λ (row : List ℕ × ℕ). row.1) (map (λ row. (row.0.now, row.1)) table.now)) }
{
    for row in table {
        if number == u32::from(row.1) {
            return true;
        }
    }
    false
}

/// Returns the text of the version with a number, or an empty text if there is none.
pub fn version_text(number: u16) -> &'static [u8]
    ensures { result.now ≡ version_text number }
{
    text_in(&VERSIONS, number)
}

/// Returns the text that a table has for a number, or an empty text if there is none.
fn text_in(table: &[(&'static str, u16)], number: u16) -> &'static [u8]
    ensures { result.now ≡ unwrap_or (option_map (λ (row : List ℕ × ℕ). row.0) (find (λ (row : List ℕ × ℕ). nat_eq row.1 number) (map (λ row. (row.0.now, row.1)) table.now))) [] }
{
    for row in table {
        if row.1 == number {
            return row.0.as_bytes();
        }
    }
    b""
}
