//! Tests the printed texts of the errors of calls from a program in another language.

use curlew_calls::CallError;
use std::test::Fail;

/// Errors and their printed texts.
const PRINTED: &[(CallError, &str)] = &[
    (CallError::Memory, "out of memory"),
    (CallError::Place, "a place past the text"),
    (CallError::Length, "too long a text"),
    (CallError::Character, "a number that is no character"),
    (CallError::NoOption, "no option of this name"),
];

#[test]
fn call_errors(rt: HostRuntime) -> Result<(), Fail> {
    let alloc = rt.alloc();
    for (error, wanted) in PRINTED {
        assert!(rt;
            format!(in alloc; "{error}")?.as_str() == *wanted,
            "{wanted}"
        );
    }
    Ok(())
}
