//! Tests the fields of one host.

use compile_tests::fixtures::ONE_RULE;
use kmn_base::limits::FIELDS;
use kmn_base::{Event, KeyPress};
use kmx_verifier::{Verified, verify};
use std::alloc::Global;
use std::test::Fail;
use text_host::{Host, HostError};

/// The key of the vowel.
const VOWEL: KeyPress = KeyPress { code: 65, mods: 0 };

/// Returns a host with `fields` fields.
fn host_with<'a>(
    alloc: Global,
    file: &'a Verified<'a>,
    fields: usize,
) -> Result<Host<'a>, HostError> {
    let mut host = Host::over(alloc, file);
    for _ in 0..fields {
        host.add(alloc)?;
    }
    Ok(host)
}

/// Returns whether a host of two fields has no other.
fn has_two(alloc: Global, file: &Verified) -> Result<bool, HostError> {
    let mut host = host_with(alloc, file, 2)?;
    let step = host.step(alloc, 9, &Event::Key(VOWEL));
    let preview = host.preview(alloc, 0, VOWEL);
    Ok(
        matches!(step, Err(HostError::NoField))
            && matches!(preview, Err(HostError::NoField))
            && host.field(2).is_some()
            && host.field(3).is_none(),
    )
}

/// Returns whether a host has the maximum number of fields, and no more.
fn is_full(alloc: Global, file: &Verified) -> Result<bool, HostError> {
    let mut host = host_with(alloc, file, FIELDS)?;
    let more = host.add(alloc);
    Ok(matches!(more, Err(HostError::Full)) && host.field(64).is_some() && host.field(65).is_none())
}

/// Returns whether a host over the file of one rule passes both checks.
fn is_right(alloc: Global) -> Result<bool, Fail> {
    let file = verify(alloc, &ONE_RULE)?;
    Ok(has_two(alloc, &file)? && is_full(alloc, &file)?)
}

#[test]
fn fields_of_a_host(rt: HostRuntime) -> Result<(), Fail> {
    assert!(rt; is_right(rt.alloc())?);
    Ok(())
}

/// Errors and their printed texts.
const PRINTED: &[(HostError, &str)] = &[
    (HostError::NoField, "no such field"),
    (HostError::Full, "no room for another field"),
    (HostError::Place, "refused E1"),
    (HostError::Length, "refused E2"),
    (HostError::Memory, "out of memory"),
];

#[test]
fn host_errors(rt: HostRuntime) -> Result<(), Fail> {
    let alloc = rt.alloc();
    for (error, wanted) in PRINTED {
        assert!(rt;
            format!(in alloc; "{error}")?.as_str() == *wanted,
            "{wanted}"
        );
    }
    Ok(())
}
