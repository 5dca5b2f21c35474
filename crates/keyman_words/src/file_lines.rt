//! The lines of work that was done: of a compiled keyboard, a valid file, a decompiled text and a touch layout.

ghost use Rattle.std.specs.Prelude.{◌≡◌, ◌<◌, ◌^◌, length, IfOk};
ghost use Rattle.kmx_format.specs.File.{all_rules};
ghost use Rattle.kmx_format.specs.TablesOf.{tables_of};
ghost use Rattle.keyman_words.specs.Lines.{compiled_line, decompiled_line, sound_line, valid_line};

use kmn_base::{Memory, Text};
use kmn_compiler::Compiled;
use kmx_format::rule_count;
use kmx_verifier::Verified;
use std::alloc::Global;

/// Returns the line of a compiled keyboard: its counts and its size in bytes.
#[tactic(auto, unfolding(crate::specs::Lines::compiled_line))]
pub fn compiled_line(alloc: Global, compiled: &Compiled) -> Result<Text, Memory>
    requires { length (all_rules compiled.now.tables) < 2 ^ 64 }
    ensures { IfOk result (λ line. line ≡ compiled_line compiled.now) }
{
    let stores = compiled.tables.stores.len();
    let groups = compiled.tables.groups.len();
    let rules = rule_count(compiled.tables.groups.as_slice());
    let bytes = compiled.bytes.len();
    let line = format!(in alloc;
        "compiled stores={stores} groups={groups} rules={rules} bytes={bytes}\n"
    )?;
    Ok(Text::from_string(line))
}

/// Returns the line of a valid file: its version and its counts.
#[tactic(auto, using(play_script::proofs::Hexadecimal::padded_hexadecimal), unfolding(crate::specs::Lines::valid_line))]
pub fn valid_line(alloc: Global, file: &Verified<'_>) -> Result<Text, Memory>
    ensures { IfOk result (λ line. line ≡ valid_line (tables_of file.now)) }
{
    let version = file.version();
    let stores = file.store_count();
    let groups = file.group_count();
    let rules = file.rule_count();
    let line = format!(in alloc;
        "valid version={version:04X} stores={stores} groups={groups} rules={rules}\n"
    )?;
    Ok(Text::from_string(line))
}

/// Returns the line of a decompiled text: its size in bytes.
#[tactic(auto, unfolding(crate::specs::Lines::decompiled_line))]
pub fn decompiled_line(alloc: Global, text: &Text) -> Result<Text, Memory>
    ensures { IfOk result (λ line. line ≡ decompiled_line text.now) }
{
    let size = text.len();
    let line = format!(in alloc; "decompiled bytes={size}\n")?;
    Ok(Text::from_string(line))
}

/// Returns the line of a layout that keeps all rules: the number of its keys.
#[tactic(auto, unfolding(crate::specs::Lines::sound_line))]
pub fn sound_line(alloc: Global, count: u32) -> Result<Text, Memory>
    ensures { IfOk result (λ line. line ≡ sound_line count) }
{
    let line = format!(in alloc; "layout sound keys={count}\n")?;
    Ok(Text::from_string(line))
}
