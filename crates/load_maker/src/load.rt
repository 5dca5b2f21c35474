//! Builds the source and the script of a load.

ghost use Rattle.std.specs.Prelude.{◌≡◌, ◌++◌, ◌+◌, ◌≤◌, ◌↔◌, false, IfOk, string_bytes};
ghost use Rattle.kmn_base.specs.declared.limits.TheConstants.{LOAD_RULES};
ghost use Rattle.load_maker.specs.Loads.{is_in_range, hexadecimal, rule_line, load_source, load_script};

use kmn_base::limits::LOAD_RULES;
use kmn_base::{Memory, Seq, Text};
use std::alloc::{AllocError, Global};
use std::fmt::Write;
use thiserror::Error;

/// The character that the first rule outputs. Each later rule outputs the next character.
pub const FIRST: u32 = 0x4E00;

/// The source of a keyboard, and a script of key presses for it.
#[derive(Drop)]
pub struct Load {
    pub source: Text,
    pub script: Text,
}

/// Why no load was made.
#[derive(Clone, Copy, Debug, Error)]
pub enum LoadError {
    /// The number is not 1 to 2,000.
    #[error("refused G1")]
    Range,
    #[error("out of memory")]
    Memory,
}

impl From<Memory> for LoadError {
    ghost use Rattle.std.specs.Prelude.{◌≡◌};
    ghost use Rattle.load_maker.specs.declared.load.LoadError.TheVariants as variants;

    ghost from_gives = { λ _ e. e ≡ variants.Memory };

    fn from(_memory: Memory) -> LoadError {
        LoadError::Memory
    }
}

/// Returns the load of a number from 1 to 2,000: `n` rules after the first one, a press of K_A for each rule, and a press of K_SPACE.
/// Both texts are our own choice: with them a run outputs one item for each press, and the text stays short.
///
/// Errors: `Range` exactly when the number is not 1 to 2,000; `Memory` if an allocation fails.
pub fn make(alloc: Global, n: u32) -> Result<Load, LoadError>
    ensures range { (result ≡ Err LoadError.Range) ↔ (is_in_range n ≡ false) }
    ensures texts { IfOk result (λ load. (load.source ≡ load_source n) × (load.script ≡ load_script n)) }
{
    if n == 0 || n > LOAD_RULES {
        return Err(LoadError::Range);
    }
    let load = both_texts(alloc, n)?;
    Ok(load)
}

/// Returns both texts.
fn both_texts(alloc: Global, n: u32) -> Result<Load, Memory>
    requires { n ≤ LOAD_RULES }
    ensures { IfOk result (λ load. (load.source ≡ load_source n) × (load.script ≡ load_script n)) }
{
    let source = source_text(alloc, n)?;
    let script = script_text(alloc, n)?;
    Ok(Load {
        source: Seq::from_vec(source.into_bytes()),
        script: Seq::from_vec(script.into_bytes()),
    })
}

/// Returns the source of a load.
#[tactic(auto, using(crate::proofs::Lines::one_rule_more))]
fn source_text(alloc: Global, n: u32) -> Result<String, AllocError>
    requires { n ≤ LOAD_RULES }
    ensures { IfOk result (λ text. string_bytes text ≡ load_source n) }
{
    let mut source = String::new(alloc);
    source.push_str("begin Unicode > use(main)\n")?;
    source.push_str("group(main) using keys\n")?;
    source.push_str("+ [K_A] > U+4E00\n")?;
    for i in 0..n {
        put_rule(&mut source, i + 1)?;
    }
    Ok(source)
}

/// Appends the rule of a number, counted from 1.
fn put_rule(source: &mut String, i: u32) -> Result<(), AllocError>
    requires at_least { 1 ≤ i }
    requires at_most { i ≤ LOAD_RULES }
    ensures { IfOk result (λ _. string_bytes source.new ≡ string_bytes source.old ++ rule_line i) }
{
    source.push_str("U+")?;
    put_hexadecimal(source, FIRST + i - 1)?;
    source.push_str(" + [K_A] > U+")?;
    put_hexadecimal(source, FIRST + i)?;
    source.push_str("\n")
}

/// Appends a number in hexadecimal digits.
fn put_hexadecimal(text: &mut String, n: u32) -> Result<(), AllocError>
    ensures { IfOk result (λ _. string_bytes text.new ≡ string_bytes text.old ++ hexadecimal n) }
{
    write!(text, "{n:X}")
}

/// Returns the script of a load.
#[tactic(auto, using(crate::proofs::Lines::one_press_more))]
fn script_text(alloc: Global, n: u32) -> Result<String, AllocError>
    requires { n ≤ LOAD_RULES }
    ensures { IfOk result (λ text. string_bytes text ≡ load_script n) }
{
    let mut script = String::new(alloc);
    for _ in 0..n + 1 {
        script.push_str("[K_A]\n")?;
    }
    script.push_str("[K_SPACE]\n")?;
    Ok(script)
}
