//! Store statements.

ghost use Rattle.std.specs.Prelude.{◌≡◌, ℕ, List, [], ◌+◌, ◌<◌, ◌^◌, find, length, map, nat_eq, option_map, unwrap_or, is_some, IfOk};
ghost use Rattle.kmn_base.specs.Names.{named_in};
ghost use Rattle.kmn_items.specs.TokenTexts.{texts, Reads};
ghost use Rattle.kmn_parser.specs.Line.{system_stores, system_store_name, store_system, store_form, store_fault, store_def, read_store};

use crate::statement::{Line, Statement};
use kmn_base::names::named_in;
use kmn_base::{Code, Memory, Seq};
use kmn_items::{
    LineError, LineTokens, Slot, TokenRefusal, Where, bare_name, begins_open, broken,
    is_system_name, read_items,
};
use rule_model::system::{BITMAP, CASED_KEYS, DROPPED, LEFT_OUT, MNEMONIC_LAYOUT, VERSION};
use rule_model::{SrcItem, StoreDef};
use std::alloc::Global;

/// The id of each system store that a source can define.
static SYSTEM_STORES: [(&str, u32); 27] = [
    ("bitmap", BITMAP),
    ("copyright", 2),
    ("hotkey", 3),
    ("message", 6),
    ("name", 7),
    ("version", VERSION),
    ("mnemoniclayout", MNEMONIC_LAYOUT),
    ("visualkeyboard", 24),
    ("layoutfile", 35),
    ("keyboardversion", 36),
    ("targets", 38),
    ("casedkeys", CASED_KEYS),
    ("includecodes", LEFT_OUT),
    ("capsalwaysoff", LEFT_OUT),
    ("capsononly", LEFT_OUT),
    ("shiftfreescaps", LEFT_OUT),
    ("ethnologuecode", DROPPED),
    ("windowslanguages", DROPPED),
    ("language", DROPPED),
    ("layout", DROPPED),
    ("languagename", DROPPED),
    ("displaymap", DROPPED),
    ("kmw_rtl", DROPPED),
    ("kmw_helpfile", DROPPED),
    ("kmw_helptext", DROPPED),
    ("kmw_embedjs", DROPPED),
    ("kmw_embedcss", DROPPED),
];

/// Returns the name without `&` of the system store with an id: the first name by which a source can define it, or an empty
/// name if there is none.
#[tactic(auto, unfolding(crate::specs::Line::system_stores))]
pub fn system_store_name(id: u32) -> &'static [u8]
    ensures { result.now ≡ system_store_name id }
{
    name_in(&SYSTEM_STORES, id)
}

/// Returns the name that a table has for an id, or an empty name.
fn name_in(table: &[(&'static str, u32)], id: u32) -> &'static [u8]
    ensures { result.now ≡ unwrap_or (option_map (λ (row : List ℕ × ℕ). row.0) (find (λ (row : List ℕ × ℕ). nat_eq row.1 id) (map (λ row. (row.0.now, row.1)) table.now))) [] }
{
    for row in table {
        if row.1 == id {
            return row.0.as_bytes();
        }
    }
    b""
}

/// Reads a store statement.
#[tactic(auto, unfolding(crate::specs::Line::read_store))]
pub(crate) fn read_store(alloc: Global, line: Line<'_>) -> Result<Statement, LineError>
    requires { length (texts line.tokens) < 2 ^ 59 }
    ensures { Reads (read_store line.entry.number line.entry.last (texts line.entry.tokens)) result }
{
    let Line {
        number,
        last,
        tokens,
        ..
    } = line;
    if let Some(fault) = store_fault(last, tokens) {
        return Err(LineError::Refused(fault));
    }
    let items = read_items(alloc, Where::Store, last, 4, tokens.behind(4))?;
    Ok(Statement::Store(store_def(alloc, number, tokens.text(2), items)?))
}

/// Returns the first fault of a store statement before its items.
#[tactic(auto, unfolding(crate::specs::Line::store_fault))]
fn store_fault(last: usize, tokens: LineTokens<'_>) -> Option<TokenRefusal>
    requires { length (texts tokens) < 2 ^ 59 }
    ensures { result ≡ store_fault last (texts tokens.entry) }
{
    if begins_open(tokens.behind(1)) {
        store_form(last, tokens)
    } else {
        Some(TokenRefusal {
            at: 0,
            code: Code::S01,
        })
    }
}

/// Returns the fault of a store's name and of the parenthesis that closes it.
fn store_form(last: usize, tokens: LineTokens<'_>) -> Option<TokenRefusal>
    requires { length (texts tokens) < 2 ^ 59 }
    ensures { result ≡ store_form last (texts tokens.entry) }
{
    if let Some(fault) = broken(last, 2, &[Slot::StoreName], tokens.behind(2)) {
        return Some(fault);
    }
    let rest = tokens.behind(3);
    if !rest.is_empty() && store_system(tokens.text(2)).is_none() {
        return Some(TokenRefusal {
            at: 2,
            code: Code::S12,
        });
    }
    broken(last, 3, &[Slot::Close], rest)
}

/// Returns the id of a store by its name: 0 for a name without `&`, None for an unknown system store.
fn store_system(name: &[u8]) -> Option<u32>
    ensures { result ≡ store_system name.now }
{
    if is_system_name(name) {
        system_id(bare_name(name))
    } else {
        Some(0)
    }
}

/// Returns the id of a system store by its name without `&`.
#[tactic(auto, unfolding(crate::specs::Line::system_stores))]
fn system_id(name: &[u8]) -> Option<u32>
    ensures { result ≡ named_in system_stores name.now }
{
    named_in(&SYSTEM_STORES, name)
}

/// Creates a store with a name and its items. Only an ordinary store keeps the name. Errors: `Memory` if an allocation fails.
fn store_def(alloc: Global, line: u32, name: &[u8], items: Seq<SrcItem>) -> Result<StoreDef, Memory>
    ensures { IfOk result (λ store. store ≡ store_def line name.now items) }
{
    let kept = if is_system_name(name) {
        Seq::new(alloc)
    } else {
        Seq::from_slice(alloc, name)?
    };
    Ok(StoreDef {
        line,
        system: store_system(name).unwrap_or(0),
        name: kept,
        items,
    })
}
