//! The properties of records, groups and files that Keyman's own engine treats differently.

use kmn_base::Seq;

/// What Keyman's own engine treats differently in a keyboard.
#[derive(Drop)]
pub struct Told {
    /// In rising order of the lines.
    pub lines: Seq<Difference>,
    /// In rising order of the groups.
    pub groups: Seq<GroupDifference>,
    pub file: Seq<FileConstruct>,
}

/// A line of the source with the constructs of its records.
#[derive(Drop)]
pub struct Difference {
    pub line: u32,
    pub constructs: Seq<Construct>,
}

/// A construct of the match or nomatch output of a group. Groups count from 0.
#[derive(Drop)]
pub struct GroupDifference {
    pub group: u32,
    pub construct: GroupConstruct,
}

/// A property of a record that Keyman's own engine treats differently.
#[derive(Clone, Copy)]
pub enum Construct {
    /// Its output does something after a `use`.
    Use,
    /// Its output has a `use` and no `return`, and the match output of its group does something.
    Match,
    /// Its context has a `nul` that is not its first item.
    Nul,
    /// Its context or output names an item by an offset that is counted differently.
    Offset,
    /// Its context is empty, and its group does not use keys.
    Empty,
    /// Its key has CTRL or ALT, and a side of one of them.
    Sides,
    /// Its key has LCTRL and RALT, and no other modifier than caps lock.
    Right,
    /// Its context can need more units than the window of that engine has left.
    Long,
    /// It has a condition on the layer, or sets it.
    Layer,
    /// It has a condition on the platform whose value is empty, or begins or ends with a space.
    Platform,
    /// Its output saves an option that is set or reset after it in the event.
    Save,
    /// Its key is a character of the keypad.
    Keypad,
    /// The value store of a condition or of a `set` is an option.
    Value,
}

/// A property of the match or nomatch output of a group that Keyman's own engine treats differently.
#[derive(Clone, Copy)]
pub enum GroupConstruct {
    /// One of them does something after a `use`.
    Use,
    /// One of them saves an option that is set or reset after it in the event.
    Save,
    /// One of them sets the layer.
    Layer,
    /// The group uses keys and has a nomatch output.
    Nomatch,
}

/// A property of a whole file that Keyman's own engine treats differently.
#[derive(Clone, Copy)]
pub enum FileConstruct {
    /// An output puts a mark.
    Marks,
    /// The file names a custom key.
    Own,
    /// A key requires CTRL or ALT without a side, or both sides of one.
    Both,
    /// An event may queue more than 1,024 effects.
    Budget,
    /// A flag of the header turns caps lock on or off.
    Caps,
    /// Two options have the same name.
    Names,
}

/// All constructs of records, in the order in which a line lists them.
pub(crate) const CONSTRUCTS: [Construct; 13] = [
    Construct::Use,
    Construct::Match,
    Construct::Nul,
    Construct::Offset,
    Construct::Empty,
    Construct::Sides,
    Construct::Right,
    Construct::Long,
    Construct::Layer,
    Construct::Platform,
    Construct::Save,
    Construct::Keypad,
    Construct::Value,
];

/// All constructs of groups, in the order in which they are listed.
pub(crate) const GROUP_CONSTRUCTS: [GroupConstruct; 4] = [
    GroupConstruct::Use,
    GroupConstruct::Save,
    GroupConstruct::Layer,
    GroupConstruct::Nomatch,
];

/// All constructs of files, in the order in which they are listed.
pub(crate) const FILE_CONSTRUCTS: [FileConstruct; 6] = [
    FileConstruct::Marks,
    FileConstruct::Own,
    FileConstruct::Both,
    FileConstruct::Budget,
    FileConstruct::Caps,
    FileConstruct::Names,
];
