//! The earlier of two refusals.

ghost use Rattle.std.specs.Prelude.{◌≡◌};
ghost use Rattle.store_table.specs.First.{at_line, earlier};

use kmn_base::{Code, Refusal};

/// Returns the refusal with the earlier line of two optional refusals.
pub fn earlier(one: Option<Refusal>, other: Option<Refusal>) -> Option<Refusal>
    ensures { result ≡ earlier one other }
{
    match (one, other) {
        (Some(found), Some(next)) if next.line < found.line => Some(next),
        (Some(found), _) => Some(found),
        (None, _) => other,
    }
}

/// Returns the refusal of a statement that breaks a rule, at its line.
pub fn at_line(line: u32, code: Option<Code>) -> Option<Refusal>
    ensures { result ≡ at_line line code }
{
    match code {
        Some(code) => Some(Refusal { line, code }),
        None => None,
    }
}
