//! The line of each reason.

ghost use Rattle.std.specs.Prelude.{◌≡◌, IfOk};
ghost use Rattle.std.specs.String.{string_bytes};
ghost use Rattle.keyman_words.specs.Reasons.{fault_line, named_code, number_line, place_line, reason_line, records_line, size_line, spelling_line};
ghost use Rattle.rule_model.specs.Lines.{refusal_line};

use crate::reason::Reason;
use kmn_base::{Code, Memory, Refusal, Seq, Text};
use kmx_decompiler::NoSpelling;
use kmx_verifier::Fault;
use play_script::refused_event_line;
use std::alloc::{AllocError, Global};
use touch_layout::{LayoutFault, LayoutPlace};

/// Returns the line of a reason why work is refused.
pub fn reason_line(alloc: Global, why: Reason) -> Result<Text, Memory>
    ensures { IfOk result (λ line. line ≡ reason_line why) }
{
    match why {
        Reason::Line(refusal) => refusal_line(alloc, refusal),
        Reason::Size { code, size } => size_line(alloc, code, size),
        Reason::File(fault) => fault_line(alloc, fault),
        Reason::Layout(fault) => place_line(alloc, fault),
        Reason::Text(why) => spelling_line(alloc, why),
        Reason::Number => number_line(alloc),
        Reason::Records(count) => records_line(alloc, count),
        Reason::Event { number, code } => refused_event_line(alloc, number, code),
    }
}

/// Returns the line of a refusal.
#[tactic(auto, unfolding(rule_model::specs::Lines::refusal_line))]
fn refusal_line(alloc: Global, refusal: Refusal) -> Result<Text, Memory>
    ensures { IfOk result (λ line. line ≡ refusal_line refusal) }
{
    let mut line = Seq::from_slice(alloc, b"refused ")?;
    line.extend_from_slice(refusal.code.text())?;
    let rest = format!(in alloc; " line {}\n", refusal.line)?;
    line.extend_from_slice(rest.as_bytes())?;
    Ok(line)
}

/// Returns the line of a limit that would be exceeded, with the size in bytes.
#[tactic(auto, unfolding(crate::specs::Reasons::size_line))]
fn size_line(alloc: Global, code: Code, size: u64) -> Result<Text, Memory>
    ensures { IfOk result (λ line. line ≡ size_line code size) }
{
    let mut line = Seq::from_slice(alloc, b"refused ")?;
    line.extend_from_slice(code.text())?;
    let rest = format!(in alloc; " size {size}\n")?;
    line.extend_from_slice(rest.as_bytes())?;
    Ok(line)
}

/// Returns the line of a file's fault.
#[tactic(auto, unfolding(crate::specs::Reasons::fault_line))]
fn fault_line(alloc: Global, fault: Fault) -> Result<Text, Memory>
    ensures { IfOk result (λ line. line ≡ fault_line fault) }
{
    let mut line = Seq::from_slice(alloc, b"refused ")?;
    line.extend_from_slice(fault.code.text())?;
    let place = format!(in alloc; " at {}", fault.at)?;
    line.extend_from_slice(place.as_bytes())?;
    let named = named_code(alloc, fault.unit)?;
    line.extend_from_slice(named.as_bytes())?;
    line.extend_from_slice(b"\n")?;
    Ok(line)
}

/// Returns the text of the item code that a fault names, or an empty text if it names none.
#[tactic(auto, using(crate::proofs::Hexadecimal::two_digits_padded))]
fn named_code(alloc: Global, unit: u16) -> Result<String, AllocError>
    ensures { IfOk result (λ text. string_bytes text ≡ named_code unit) }
{
    if unit == 0 {
        return String::from_str(alloc, "");
    }
    format!(in alloc; " code {unit:02X}")
}

/// Returns the line of a rule that a layout breaks, with its place.
#[tactic(auto, unfolding(crate::specs::Reasons::place_line))]
fn place_line(alloc: Global, fault: LayoutFault) -> Result<Text, Memory>
    ensures { IfOk result (λ line. line ≡ place_line fault) }
{
    let mut line = Seq::from_slice(alloc, b"refused ")?;
    line.extend_from_slice(fault.code.text())?;
    let LayoutPlace {
        platform,
        layer,
        row,
        key,
    } = fault.place;
    let rest = format!(in alloc; " platform {platform} layer {layer} row {row} key {key}\n")?;
    line.extend_from_slice(rest.as_bytes())?;
    Ok(line)
}

/// Returns the line of the reason why a file can't be decompiled.
#[tactic(auto, unfolding(crate::specs::Reasons::spelling_line))]
fn spelling_line(alloc: Global, why: NoSpelling) -> Result<Text, Memory>
    ensures { IfOk result (λ line. line ≡ spelling_line why) }
{
    let line = format!(in alloc; "refused {why}\n")?;
    Ok(Text::from_string(line))
}

/// Returns the line of a number that no load has.
#[tactic(auto, unfolding(crate::specs::Reasons::number_line))]
fn number_line(alloc: Global) -> Result<Text, Memory>
    ensures { IfOk result (λ line. line ≡ number_line) }
{
    let mut line = Seq::from_slice(alloc, b"refused ")?;
    line.extend_from_slice(Code::G1.text())?;
    line.extend_from_slice(b"\n")?;
    Ok(line)
}

/// Returns the line of a source with `count` records, which are too many to search.
#[tactic(auto, unfolding(crate::specs::Reasons::records_line))]
fn records_line(alloc: Global, count: u64) -> Result<Text, Memory>
    ensures { IfOk result (λ line. line ≡ records_line count) }
{
    let mut line = Seq::from_slice(alloc, b"refused ")?;
    line.extend_from_slice(Code::G2.text())?;
    let rest = format!(in alloc; " rules {count}\n")?;
    line.extend_from_slice(rest.as_bytes())?;
    Ok(line)
}
