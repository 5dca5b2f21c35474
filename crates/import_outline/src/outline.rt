//! What a whole source states of its groups and system stores.

ghost use Rattle.std.specs.Prelude.{◌≡◌, ◌++◌, false, OnOk};
ghost use Rattle.import_outline.specs.Names.{has_name};
ghost use Rattle.import_outline.specs.Outline.{readonly_words, begins_context, is_readonly_token, are_readonly_items, is_readonly_output, inside_after, output_of, use_at, uses_in};

use crate::line_kinds::{LineKind, Start, arrow_place, begins_open, begins_word, line_kind};
use crate::names::is_listed;
use import_tokens::{OwnedToken, text_at};
use kmn_base::slices::behind;
use kmn_base::{Memory, Seq, Text};
use kmn_lines::TokenKind;
use std::alloc::Global;

/// The words of the items that an output of a readonly group may have.
static READONLY_WORDS: [&str; 8] = [
    "layer", "set", "save", "reset", "use", "nul", "beep", "return",
];

/// A group that uses another one, by their names.
#[derive(Drop)]
pub struct GroupUse {
    pub user: Text,
    pub used: Text,
}

/// What the lines of a source state. Groups and stores are given by their names, in the order of the lines.
#[derive(Drop)]
pub struct Outline {
    /// The last group so far, or an empty name.
    pub group: Text,
    /// The groups that begin statements for keys enter.
    pub for_keys: Seq<Text>,
    /// The groups that begin statements for layers enter.
    pub for_layers: Seq<Text>,
    /// All groups that are stated.
    pub stated: Seq<Text>,
    /// The readonly groups.
    pub readonly: Seq<Text>,
    /// The groups with an output that may change text.
    pub writing: Seq<Text>,
    /// Which groups use which.
    pub uses: Seq<GroupUse>,
    /// The stores, also the system stores.
    pub stores: Seq<Text>,
}

impl Outline {
    ghost use Rattle.std.specs.Prelude.{◌≡◌, OnOk, ◌++◌, ◌∷◌, []};
    ghost use Rattle.import_outline.specs.Outline.{empty_outline, with_line, with_output, with_kind};
    ghost use Rattle.import_outline.specs.declared.line_kinds.LineKind.TheVariants.{Begin, Group};

    /// Creates the outline of no line.
    pub(crate) fn new(alloc: Global) -> Outline
        ensures { result ≡ empty_outline }
    {
        Outline {
            group: Seq::new(alloc),
            for_keys: Seq::new(alloc),
            for_layers: Seq::new(alloc),
            stated: Seq::new(alloc),
            readonly: Seq::new(alloc),
            writing: Seq::new(alloc),
            uses: Seq::new(alloc),
            stores: Seq::new(alloc),
        }
    }

    /// Adds a line with these tokens. Errors: `Memory` if an allocation fails; the outline is then unspecified.
    pub(crate) fn add_line(&mut self, alloc: Global, tokens: &[OwnedToken]) -> Result<(), Memory>
        ensures { OnOk result (self.new ≡ with_line self.old tokens.now) }
    {
        match line_kind(alloc, tokens)? {
            LineKind::Begin(start, group) => self.add_begin(start, group),
            LineKind::Group(name, readonly) => self.add_group(alloc, name, readonly),
            LineKind::Store(name) => self.stores.add(name),
            LineKind::Match | LineKind::Rule => self.add_output(alloc, output_of(tokens)),
            _ => Ok(()),
        }
    }

    /// Adds a begin statement. Errors: `Memory` if an allocation fails.
    fn add_begin(&mut self, start: Start, group: Text) -> Result<(), Memory>
        ensures { OnOk result (self.new ≡ with_kind self.old (Begin start group) []) }
    {
        match start {
            Start::Keys | Start::Unnamed => self.for_keys.add(group),
            Start::Layers => self.for_layers.add(group),
        }
    }

    /// Adds a group statement. Errors: `Memory` if an allocation fails.
    fn add_group(&mut self, alloc: Global, name: Text, readonly: bool) -> Result<(), Memory>
        ensures { OnOk result (self.new ≡ with_kind self.old (Group name readonly) []) }
    {
        self.stated.add(name.copy(alloc)?)?;
        if readonly {
            self.readonly.add(name.copy(alloc)?)?;
        }
        self.group = name;
        Ok(())
    }

    /// Adds an output of the last group. Errors: `Memory` if an allocation fails.
    fn add_output(&mut self, alloc: Global, output: &[OwnedToken]) -> Result<(), Memory>
        ensures { OnOk result (self.new ≡ with_output self.old output.now) }
    {
        if !is_readonly_output(output) {
            self.writing.add(self.group.copy(alloc)?)?;
        }
        add_uses(alloc, &mut self.uses, self.group.as_slice(), output)
    }
}

/// Returns the tokens after the first `>`.
fn output_of(tokens: &[OwnedToken]) -> &[OwnedToken]
    ensures { result.now ≡ output_of tokens.now }
{
    behind(tokens, arrow_place(tokens) + 1)
}

/// Returns whether an output changes no text: after a first `context` it has items of readonly groups only.
fn is_readonly_output(output: &[OwnedToken]) -> bool
    ensures { result ≡ is_readonly_output output.now }
{
    if begins_context(output) {
        are_readonly_items(behind(output, 1))
    } else {
        are_readonly_items(output)
    }
}

/// Returns whether tokens begin with `context` without a parenthesis after it.
pub fn begins_context(tokens: &[OwnedToken]) -> bool
    ensures { result ≡ begins_context tokens.now }
{
    begins_word(b"context", tokens) && !begins_open(behind(tokens, 1))
}

/// Returns whether the tokens outside parentheses are words of readonly groups.
fn are_readonly_items(tokens: &[OwnedToken]) -> bool
    ensures { result ≡ are_readonly_items false tokens.now }
{
    let mut inside = false;
    for token in tokens {
        if !is_readonly_token(inside, token) {
            return false;
        }
        inside = inside_after(inside, token);
    }
    true
}

/// Returns whether a token is in parentheses, a parenthesis, or a word of readonly groups.
fn is_readonly_token(inside: bool, token: &OwnedToken) -> bool
    ensures { result ≡ is_readonly_token inside token.now }
{
    inside
        || token.kind == TokenKind::Open
        || token.kind == TokenKind::Close
        || (token.kind == TokenKind::Word && is_readonly_word(token.text.as_slice()))
}

/// Returns whether a word begins an item that readonly groups may have.
#[tactic(auto, unfolding(crate::specs::Outline::readonly_words))]
fn is_readonly_word(word: &[u8]) -> bool
    ensures { result ≡ has_name readonly_words word.now }
{
    is_listed(&READONLY_WORDS, word)
}

/// Returns whether a parenthesis is open after a token.
fn inside_after(inside: bool, token: &OwnedToken) -> bool
    ensures { result ≡ inside_after inside token.now }
{
    match token.kind {
        TokenKind::Open => true,
        TokenKind::Close => false,
        _ => inside,
    }
}

/// Appends the groups that the `use` items of an output of a group name. Errors: `Memory` if an allocation fails.
fn add_uses(
    alloc: Global,
    uses: &mut Seq<GroupUse>,
    group: &[u8],
    output: &[OwnedToken],
) -> Result<(), Memory>
    ensures { OnOk result (uses.new ≡ uses.old ++ uses_in group.now output.now) }
{
    let mut rest = output;
    while let [token, after @ ..] = rest {
        add_use(alloc, uses, group, token, after)?;
        rest = after;
    }
    Ok(())
}

/// Appends the group that a `use` item names, if these tokens begin with one. Errors: `Memory` if an allocation fails.
fn add_use(
    alloc: Global,
    uses: &mut Seq<GroupUse>,
    group: &[u8],
    token: &OwnedToken,
    after: &[OwnedToken],
) -> Result<(), Memory>
    ensures { OnOk result (uses.new ≡ uses.old ++ use_at group.now token.now after.now) }
{
    if !(token.is_the_word(b"use") && begins_open(after)) {
        return Ok(());
    }
    uses.add(GroupUse {
        user: Seq::from_slice(alloc, group)?,
        used: Seq::from_slice(alloc, text_at(1, after))?,
    })
}
