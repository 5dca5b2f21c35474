//! A group that a key press enters.

use kmn_base::KeyPress;
use kmx_parts::FileGroup;
use rule_index::RuleIndex;

/// The group from which a record is selected: the key press that enters it, the group in the file, and the index of its
/// records.
#[derive(Drop)]
pub struct EnteredGroup<'c, 'g> {
    pub press: KeyPress,
    pub group: &'c FileGroup<'g>,
    pub records: &'c RuleIndex,
}
