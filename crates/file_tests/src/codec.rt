//! Bytes and the items that they decode to.

use crate::files::change_all;
use item_codec::{BadUnits, UnitItem, items_of};
use source_tests::fixtures::{is_row, parted};
use std::alloc::{AllocError, Global};
use std::fmt::Write;
use std::test::Fail;

/// Each line has bytes and, after ` ⇒ `, the result of decoding them: items, and the kind, the byte offset and the code of the fault.
const FAULTS: &str = "\
== operands of 0, which no item has
ff ff 03 00 61 00 ff ff 14 00 01 00 03 00 02 00 61 00 ⇒ Context Char('a') U5 at 6 code 0
ff ff 0a 00 00 40 41 00 11 00 ⇒ U4 at 0 code 0
== a code that no item has
61 00 ff ff 09 00 ⇒ Char('a') U2 at 2 code 9
== half of a surrogate pair
3d d8 61 00 ⇒ U1 at 0 code 0
== an odd byte at the end
62 00 61 ⇒ Char('b') U6 at 2 code 0
== a zero unit, as an item and as an operand
00 00 61 00 ⇒ U3 at 0 code 0
== strings that end within an item
ff ff 14 00 00 00 03 00 02 ⇒ U6 at 0 code 0
ff ff 17 00 22 00 03 00 01 00 ⇒ U5 at 0 code 0
61 00 ff ff 17 00 22 00 00 00 01 00 ⇒ Char('a') U3 at 2 code 0
ff ff 18 00 22 00 ⇒ U3 at 0 code 0
ff ff 18 00 22 00 01 ⇒ U6 at 0 code 0
== another code that no item has
ff ff 19 00 ⇒ U2 at 0 code 25";

/// Appends an item or a fault.
fn write_result(out: &mut String, given: Result<UnitItem, BadUnits>) -> Result<(), AllocError> {
    match given {
        Ok(item) => write!(out, " {item:?}"),
        Err(fault) => write!(out, " {:?} at {} code {}", fault.kind, fault.at, fault.code),
    }
}

/// Appends the results of decoding the first 256 bytes.
fn write_walk(out: &mut String, bytes: &[u8]) -> Result<(), AllocError> {
    for result in items_of(&bytes[..bytes.len().min(256)]) {
        write_result(out, result)?;
    }
    Ok(())
}

/// Returns whether decoding a row's bytes has the row's results.
fn is_walked(alloc: Global, row: &str) -> Result<bool, Fail> {
    let (digits, wanted) = parted(row)?;
    let mut bytes = Vec::new(alloc);
    change_all(&mut bytes, digits)?;
    let mut out = String::new(alloc);
    write_walk(&mut out, bytes.as_slice())?;
    Ok(out.as_str().strip_prefix(' ') == Some(wanted))
}

#[test]
fn bytes_and_their_items(rt: HostRuntime) -> Result<(), Fail> {
    for row in FAULTS.lines().filter(is_row) {
        assert!(rt; is_walked(rt.alloc(), row)?, "{row}");
    }
    Ok(())
}
