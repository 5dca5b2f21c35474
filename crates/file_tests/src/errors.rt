//! The printed texts of errors of files.

use kmn_base::Code;
use kmx_decompiler::{DecompileError, NoSpelling};
use kmx_verifier::{Fault, VerifyError};
use std::test::Fail;

/// Errors of a file that is verified, and their printed texts.
const OF_VERIFYING: &[(VerifyError, &str)] = &[
    (
        VerifyError::Refused(Fault {
            code: Code::V10,
            at: 100,
            unit: 0,
        }),
        "refused V10 at 100",
    ),
    (VerifyError::Memory, "out of memory"),
];

/// Errors of a file that is decompiled, and their printed texts.
const OF_DECOMPILING: &[(DecompileError, &str)] = &[
    (
        DecompileError::Refused(NoSpelling::Unspelled { at: 100 }),
        "refused X2 at 100",
    ),
    (DecompileError::Memory, "out of memory"),
];

#[test]
fn verify_errors(rt: HostRuntime) -> Result<(), Fail> {
    let alloc = rt.alloc();
    for (error, wanted) in OF_VERIFYING {
        assert!(rt;
            format!(in alloc; "{error}")?.as_str() == *wanted,
            "{wanted}"
        );
    }
    Ok(())
}

#[test]
fn decompile_errors(rt: HostRuntime) -> Result<(), Fail> {
    let alloc = rt.alloc();
    for (error, wanted) in OF_DECOMPILING {
        assert!(rt;
            format!(in alloc; "{error}")?.as_str() == *wanted,
            "{wanted}"
        );
    }
    Ok(())
}
