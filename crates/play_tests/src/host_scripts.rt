//! Tests scripts for several fields: the entries that they contain or the rule that they break.

use kmn_base::{Event, Refusal};
use play_script::ScriptError;
use source_tests::fixtures::{is_row, parted, source_of};
use std::alloc::Global;
use std::test::Fail;
use text_host::{HostEntry, read_host};
use virtual_keys::KeyDictionary;

/// Each row contains a script, as `source_of` reads it, and, after ` ⇒ `, its entries, each with its line, or the rule that it breaks.
const ROWS: &str = "\
== notes and empty scripts
# x¶ ⇒ 
 ⇒ 
== entries of several fields
open¶[K_BKQUOTE]¶open¶[K_A]¶field 1¶preview [K_A]¶[K_A] ⇒ 1:open 2:192/0 3:open 4:65/0 5:field/1 6:preview/65/0 7:65/0
 open ¶# open¶field 0000001 ¶preview  [SHIFT K_A] ¶[K_A][K_B]¶expect 'a'¶caret 0 ⇒ 1:open 3:field/1 4:preview/65/16 5:65/0 5:66/0 6:expect 7:other
== entries before the first field, and fields that are not open
[K_A] ⇒ H1 1
field 1 ⇒ H1 1
expect \"\" ⇒ H1 1
preview [K_A] ⇒ H1 1
caret 0 ⇒ H1 1
open¶field 2 ⇒ H1 2
open¶field 0 ⇒ H1 2
open¶field 2¶open ⇒ H1 2
[K_A]¶[K_QQ] ⇒ H1 1
⟨[K_F5]¶×100001⟩ ⇒ H1 1
== at most 64 fields
⟨open¶×65⟩ ⇒ H2 65
⟨open¶×65⟩x ⇒ H2 65
== faults of lines, whatever field is active
[K_A] x ⇒ P08 1
[K_A] [K_B ⇒ P03 1
open¶field 9 x ⇒ P08 2
⟨open¶×64⟩open x ⇒ P08 65
⟨[K_F5]×100001⟩ ⇒ P07 1
open x ⇒ P08 1
open¶field x ⇒ P05 2
open¶field ⇒ P05 2
open¶field 12345678 ⇒ P05 2
open¶field 1 x ⇒ P08 2
== previews
open¶preview ⇒ P03 2
open¶preview x ⇒ P03 2
open¶preview [K_QQ] ⇒ P03 2
open¶preview [K_A ⇒ P03 2
open¶preview [K_A] [K_A ⇒ P08 2
open¶preview[K_A] ⇒ P02 2
== limits on entries and bytes
open¶⟨preview [K_F5]¶×100001⟩ ⇒ P07 100002
open¶⟨preview [K_F5]¶×100000⟩preview [K_F5] x ⇒ P07 100002
⟨#×4194305⟩ ⇒ P06 1";

/// Appends an entry in the notation of the rows.
fn show_entry(shown: &mut String, entry: &HostEntry) -> Result<(), Fail> {
    match entry {
        HostEntry::Open { line } => write!(shown, "{line}:open")?,
        HostEntry::Field { line, field } => write!(shown, "{line}:field/{field}")?,
        HostEntry::Preview { line, press } => {
            write!(shown, "{line}:preview/{}/{}", press.code, press.mods)?;
        }
        HostEntry::Act {
            line,
            event: Event::Key(press),
        } => {
            write!(shown, "{line}:{}/{}", press.code, press.mods)?;
        }
        HostEntry::Act { line, .. } => write!(shown, "{line}:other")?,
        HostEntry::Expect { line, .. } => write!(shown, "{line}:expect")?,
    }
    Ok(())
}

/// Returns entries in the notation of the rows.
fn shown_entries(alloc: Global, entries: &[HostEntry]) -> Result<String, Fail> {
    let mut shown = String::new(alloc);
    for entry in entries {
        if !shown.is_empty() {
            shown.push(' ')?;
        }
        show_entry(&mut shown, entry)?;
    }
    Ok(shown)
}

/// Returns the entries of a script or its refusal, in the notation of the rows.
fn given(alloc: Global, script: &[u8]) -> Result<String, Fail> {
    match read_host(alloc, script, &KeyDictionary::new(alloc)) {
        Ok(entries) => shown_entries(alloc, entries.as_slice()),
        Err(ScriptError::Refused(Refusal { code, line })) => {
            Ok(format!(in alloc; "{code} {line}")?)
        }
        Err(error) => Err(error.into()),
    }
}

/// Returns whether the script of a row has the result in the row.
fn is_right(alloc: Global, row: &str) -> Result<bool, Fail> {
    let (text, wanted) = parted(row)?;
    let script = source_of(alloc, text)?;
    Ok(given(alloc, script.as_bytes())?.as_str() == wanted)
}

#[test]
fn scripts_give_entries(rt: HostRuntime) -> Result<(), Fail> {
    for row in ROWS.lines().filter(is_row) {
        assert!(rt; is_right(rt.alloc(), row)?, "{row}");
    }
    Ok(())
}
