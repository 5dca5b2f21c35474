//! Tests the printed texts of the errors of a compilation.

use kmn_base::{Code, CompileError, Refusal};
use std::test::Fail;

/// Errors and their printed texts.
const PRINTED: &[(CompileError, &str)] = &[
    (
        CompileError::Refused(Refusal {
            line: 12,
            code: Code::S10,
        }),
        "refused S10 line 12",
    ),
    (
        CompileError::TooLarge {
            code: Code::C23,
            size: 67_108_865,
        },
        "refused C23 size 67108865",
    ),
    (CompileError::Memory, "out of memory"),
];

#[test]
fn compile_errors(rt: HostRuntime) -> Result<(), Fail> {
    let alloc = rt.alloc();
    for (error, wanted) in PRINTED {
        assert!(rt;
            format!(in alloc; "{error}")?.as_str() == *wanted,
            "{wanted}"
        );
    }
    Ok(())
}
