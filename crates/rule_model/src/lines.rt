//! Printed lines.

ghost use Rattle.std.specs.Prelude.{◌≡◌, ◌++◌, map, IfOk};
ghost use Rattle.std.specs.String.{string_bytes};
ghost use Rattle.std.specs.Fmt.{decimal};
ghost use Rattle.rule_model.specs.Lines.{joined};

use std::alloc::AllocError;

/// Appends numbers to a text, joined by dots, or `-` if there are none. Errors: `AllocError` if an allocation fails.
pub fn put_numbers(text: &mut String, numbers: &[u32]) -> Result<(), AllocError>
    ensures { IfOk result (λ _. string_bytes text.new ≡ string_bytes text.old ++ joined (map decimal numbers.now)) }
{
    let [first, rest @ ..] = numbers else {
        return text.push_str("-");
    };
    write!(text, "{first}")?;
    for number in rest {
        text.push_str(".")?;
        write!(text, "{number}")?;
    }
    Ok(())
}
