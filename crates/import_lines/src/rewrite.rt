//! What a line becomes.

use crate::change_kind::ChangeKind;
use import_tokens::OwnedToken;
use kmn_base::{Seq, Text};

/// How a line is written.
#[derive(Drop)]
pub enum Form {
    /// As it is.
    Unchanged,
    /// From these tokens.
    Rebuilt(Seq<OwnedToken>),
    /// After `$keymanweb:`, so that it is skipped.
    WebOnly,
    /// As a comment.
    Commented,
}

/// What a line becomes, and its changes.
#[derive(Drop)]
pub struct Rewrite {
    pub form: Form,
    pub kinds: Seq<ChangeKind>,
}

/// The tokens of a line so far, and their changes.
#[derive(Drop)]
pub struct Changed {
    pub tokens: Seq<OwnedToken>,
    pub kinds: Seq<ChangeKind>,
}

/// The bytes of a line, and its changes.
#[derive(Drop)]
pub struct WrittenLine {
    pub bytes: Text,
    pub kinds: Seq<ChangeKind>,
}
