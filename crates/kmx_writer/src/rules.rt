//! Writes the key arrays of a file, and the strings of key records.

ghost use Rattle.std.specs.Prelude.{◌≡◌, ◌+◌, ◌<◌, ◌^◌, ◌++◌, length, IfOk, OnOk};
ghost use Rattle.std.specs.List.{All, flat_map};
ghost use Rattle.kmx_format.specs.File.{key_code, key_flags, rule_fields, rule_strings, rule_record, rule_records};
ghost use Rattle.kmx_writer.specs.Spellings.{IsSpellableRule};

use crate::spelled::{put_string, string_size};
use crate::units::{offset_of, put_half, put_words};
use kmn_base::{Memory, RuleKey, Seq};
use rule_model::Rule;

/// Returns the number of bytes of the strings of key records.
pub(crate) fn all_strings_size(rules: &[Rule]) -> u64
    requires spellable { All IsSpellableRule rules.now }
    requires fits { length (flat_map rule_strings rules.now) < 2 ^ 62 }
    ensures { result ≡ length (flat_map rule_strings rules.now) }
{
    let mut size = 0;
    for rule in rules {
        size += strings_size(rule);
    }
    size
}

/// Returns the number of bytes of the strings of a key record.
fn strings_size(rule: &Rule) -> u64
    requires spellable { IsSpellableRule rule.now }
    requires fits { length (rule_strings rule.now) < 2 ^ 62 }
    ensures { result ≡ length (rule_strings rule.now) }
{
    string_size(rule.context.as_slice()) + string_size(rule.output.as_slice())
}

/// Appends key records whose strings begin at `place`, and returns the offset after them.
pub(crate) fn put_records(out: &mut Seq<u8>, place: u32, rules: &[Rule]) -> Result<u32, Memory>
    requires spellable { All IsSpellableRule rules.now }
    requires fits { place + length (flat_map rule_strings rules.now) < 2 ^ 32 }
    ensures next { IfOk result (λ next. next ≡ place + length (flat_map rule_strings rules.now)) }
    ensures bytes { OnOk result (out.new ≡ out.old ++ rule_records place rules.now) }
{
    let mut place = place;
    for rule in rules {
        place = put_record(out, place, rule)?;
    }
    Ok(place)
}

/// Appends a key record whose strings begin at `place`, and returns the offset after them.
#[tactic(auto, using(crate::proofs::Strings::offset_of_string))]
fn put_record(out: &mut Seq<u8>, place: u32, rule: &Rule) -> Result<u32, Memory>
    requires spellable { IsSpellableRule rule.now }
    requires fits { place + length (rule_strings rule.now) < 2 ^ 32 }
    ensures next { IfOk result (λ next. next ≡ place + length (rule_strings rule.now)) }
    ensures bytes { OnOk result (out.new ≡ out.old ++ rule_record place rule.now) }
{
    let context_bytes = string_size(rule.context.as_slice()) as u32;
    let output_bytes = string_size(rule.output.as_slice()) as u32;
    let context = offset_of(context_bytes, place);
    let output = offset_of(output_bytes, place + context_bytes);
    put_fields(out, rule, context, output)?;
    Ok(place + context_bytes + output_bytes)
}

/// Appends a key record with the offsets of its strings.
fn put_fields(out: &mut Seq<u8>, rule: &Rule, context: u32, output: u32) -> Result<(), Memory>
    ensures { OnOk result (out.new ≡ out.old ++ rule_fields rule.now context output) }
{
    put_half(out, key_code(rule.key))?;
    put_half(out, 0)?;
    put_words(out, &[rule.line, key_flags(rule.key), output, context])
}

/// Returns the first field of a key record.
fn key_code(key: RuleKey) -> u16
    ensures { result ≡ key_code key }
{
    match key {
        RuleKey::Any => 0,
        RuleKey::Char(unit) => unit,
        RuleKey::Virtual { code, .. } => code,
    }
}

/// Returns the shift flags of a key record.
fn key_flags(key: RuleKey) -> u32
    ensures { result ≡ key_flags key }
{
    match key {
        RuleKey::Any | RuleKey::Char(_) => 0,
        RuleKey::Virtual { flags, .. } => flags,
    }
}

/// Appends the strings of key records.
pub(crate) fn put_strings(out: &mut Seq<u8>, rules: &[Rule]) -> Result<(), Memory>
    requires { All IsSpellableRule rules.now }
    ensures { OnOk result (out.new ≡ out.old ++ flat_map rule_strings rules.now) }
{
    for rule in rules {
        put_rule_strings(out, rule)?;
    }
    Ok(())
}

/// Appends the strings of a key record.
fn put_rule_strings(out: &mut Seq<u8>, rule: &Rule) -> Result<(), Memory>
    requires { IsSpellableRule rule.now }
    ensures { OnOk result (out.new ≡ out.old ++ rule_strings rule.now) }
{
    put_string(out, rule.context.as_slice())?;
    put_string(out, rule.output.as_slice())
}
