//! Tests the printed texts of the errors of loads (generated keyboards with scripts).

use load_maker::LoadError;
use std::test::Fail;

/// Errors and their printed texts.
const PRINTED: &[(LoadError, &str)] = &[
    (LoadError::Range, "refused G1"),
    (LoadError::Memory, "out of memory"),
];

#[test]
fn load_errors(rt: HostRuntime) -> Result<(), Fail> {
    let alloc = rt.alloc();
    for (error, wanted) in PRINTED {
        assert!(rt;
            format!(in alloc; "{error}")?.as_str() == *wanted,
            "{wanted}"
        );
    }
    Ok(())
}
