//! The parts of a file, read by byte offset and by index.

use compile_tests::fixtures::ONE_RULE;
use kmx_view::{GroupRef, KmxView, RuleRef};
use std::test::Fail;

const GROUP: GroupRef = GroupRef {
    name: 108,
    keys: 88,
    on_match: 0,
    on_nomatch: 0,
    count: 1,
    using_keys: 1,
};

const RULE: RuleRef = RuleRef {
    key: 0x61,
    line: 3,
    flags: 0,
    output: 118,
    context: 0,
};

/// Returns whether the file has its words and strings, and none past its end.
fn has_words(view: KmxView<'_>) -> bool {
    view.word(0) == Some(0x5354_584B)
        && view.word(118) == Some(0x62)
        && view.word(119).is_none()
        && view.string(0) == Some([].as_slice())
        && view.string(118) == Some([0x62, 0].as_slice())
        && view.string(121).is_none()
        && view.string(122).is_none()
        && view.string(u32::MAX).is_none()
}

/// Returns whether the file has its one group and rule, and no other group, rule or store.
fn has_records(view: KmxView<'_>) -> bool {
    view.store(0).is_none()
        && view.group(0) == Some(GROUP)
        && view.group(1).is_none()
        && view.rule(0, 0) == Some(RULE)
        && view.rule(0, 1).is_none()
        && view.rule(1, 0).is_none()
}

#[test]
fn parts_of_one_rule(rt: HostRuntime) -> Result<(), Fail> {
    let view = KmxView::of(&ONE_RULE);
    assert!(rt; has_words(view));
    assert!(rt; has_records(view));
    Ok(())
}
