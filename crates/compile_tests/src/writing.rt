//! A bitmap that is too large to be written.

use crate::sources::tables;
use kmn_base::{Code, CompileError};
use kmx_writer::write;
use std::alloc::Global;
use std::test::Fail;

/// Returns whether a bitmap that is one byte longer than its limit is refused with its size.
fn is_refused(alloc: Global) -> Result<bool, Fail> {
    let tables = tables(alloc, "H¶+ 'a'")?;
    let large = vec![in alloc; 0u8; 1_048_577]?;
    Ok(matches!(
        write(alloc, &tables, &large),
        Err(CompileError::TooLarge {
            code: Code::C24,
            size: 1_048_577
        })
    ))
}

#[test]
fn large_bitmap(rt: HostRuntime) -> Result<(), Fail> {
    assert!(rt; is_refused(rt.alloc())?);
    Ok(())
}
