//! What a check finds in a source, in a touch layout and in a script.

use keyman_words::Reason;
use kmn_base::{Refusal, Seq, Text};
use refusal_details::Explained;
use source_warnings::Warning;

/// An option that a script sets and that the keyboard does not have, with the line of the script, from 1.
#[derive(Drop)]
pub(crate) struct UnknownOption {
    pub line: u32,
    pub name: Text,
}

/// What a check finds in a touch layout.
#[derive(Drop)]
pub(crate) enum LayoutFindings {
    /// The layout is refused.
    Refused(Reason),
    /// The layout is accepted, or there is none. The warnings are those of rules whose keys it lacks (W17), in the order of the rules.
    Accepted { warnings: Seq<Warning> },
}

/// What a check finds in a script.
#[derive(Drop)]
pub(crate) enum ScriptFindings {
    /// The script is refused.
    Refused(Reason),
    /// The script is accepted, or there is none. Its unknown options are in the order of its entries.
    Accepted { unknown: Seq<UnknownOption> },
}

/// What a check finds in the touch layout and in the script for a source that compiles.
#[derive(Drop)]
pub(crate) struct InputFindings {
    pub layout: LayoutFindings,
    pub script: ScriptFindings,
}

/// What a check finds in a source that it reads whole.
#[derive(Drop)]
pub(crate) enum Findings {
    /// Lines are refused. `first` is the refusal that compilation reports. `errors` are those that are printed, in the order of lines, and
    /// `more` is the number of the others.
    Refused {
        first: Refusal,
        errors: Seq<Explained>,
        more: usize,
    },
    /// The source compiles. Its warnings are in the order of lines.
    Accepted {
        warnings: Seq<Warning>,
        inputs: InputFindings,
    },
}
