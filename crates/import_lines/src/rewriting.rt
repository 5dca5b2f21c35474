//! Rewrites the tokens of a line.

ghost use Rattle.std.specs.Prelude.{◌≡◌, ◌<◌, ◌^◌, ◌++◌, ◌∷◌, take, drop, map, IfOk};
ghost use Rattle.kmn_parser.specs.Texts.{word};
ghost use Rattle.import_outline.specs.Names.{has_name};
ghost use Rattle.import_lines.specs.Rewrites.{rewrite, unchanged, same_texts, and_changed, not_changed, rule_items, store_items, rebuilt, old_versions, bare_text, is_old_version, caps_stores, is_one, states_mnemonic, is_mnemonic, store_line, in_quotes, store_tokens, header_line, ansi_tokens, begin_line, group_line, with_context, giving_back, rule_line, match_line, line_of_kind};

use crate::change_kind::ChangeKind;
use crate::rewrite::{Changed, Form, Rewrite};
use import_outline::names::{has_name, is_listed};
use import_outline::{Groups, LineKind, Start, arrow_place, begins_context};
use import_tokens::{OwnedToken, copies, quoted_token, with_key_names, without_ranges};
use kmn_base::limits::STORE_ELEMENTS;
use kmn_base::names::same_name;
use kmn_base::slices::{before, behind};
use kmn_base::{Memory, Seq};
use kmn_lines::TokenKind;
use std::alloc::Global;

/// The versions that are older than those that a file can have.
static OLD_VERSIONS: [&str; 8] = ["1.0", "2.0", "3.0", "3.1", "3.2", "4.0", "5.0", "5.01"];

/// The system stores for caps lock.
static CAPS_STORES: [&str; 3] = ["&capsalwaysoff", "&capsononly", "&shiftfreescaps"];

/// Returns what a line of a kind becomes in a group. Errors: `Memory` if an allocation fails.
pub(crate) fn line_of_kind(
    alloc: Global,
    groups: &Groups,
    group: &[u8],
    kind: &LineKind,
    tokens: &[OwnedToken],
) -> Result<Rewrite, Memory>
    ensures { IfOk result (λ rewrite. rewrite ≡ line_of_kind groups.now.outline group.now kind.now tokens.now) }
{
    match kind {
        LineKind::Header(store) => header_line(alloc, store.as_slice(), tokens),
        LineKind::CapsHeader => rewrite(alloc, Form::Commented, ChangeKind::Caps),
        LineKind::Store(name) => store_line(alloc, groups, name.as_slice(), tokens),
        LineKind::Begin(start, entered) => {
            begin_line(alloc, groups, *start, entered.as_slice(), tokens)
        }
        LineKind::Group(name, _) => group_line(alloc, groups, name.as_slice(), tokens),
        LineKind::Match => match_line(alloc, groups, group, tokens),
        LineKind::Rule => rule_line(alloc, groups, group, tokens),
        LineKind::Other => Ok(unchanged(alloc)),
    }
}

/// Returns a rewrite with one change. Errors: `Memory` if an allocation fails.
fn rewrite(alloc: Global, form: Form, kind: ChangeKind) -> Result<Rewrite, Memory>
    ensures { IfOk result (λ new. new ≡ rewrite form kind) }
{
    let mut kinds = Seq::new(alloc);
    kinds.add(kind)?;
    Ok(Rewrite { form, kinds })
}

/// Returns the rewrite of a line that is kept as it is.
fn unchanged(alloc: Global) -> Rewrite
    ensures { result ≡ unchanged }
{
    Rewrite {
        form: Form::Unchanged,
        kinds: Seq::new(alloc),
    }
}

/// Returns whether two lists of tokens have the same texts.
pub(crate) fn same_texts(old: &[OwnedToken], new: &[OwnedToken]) -> bool
    ensures { result ≡ same_texts old.now new.now }
{
    let mut left = old;
    let mut right = new;
    while let [first, rest @ ..] = left {
        let [other, others @ ..] = right else {
            return false;
        };
        if first.text.as_slice() != other.text.as_slice() {
            return false;
        }
        left = rest;
        right = others;
    }
    right.is_empty()
}

/// Returns tokens after another step, with the kind of its change if it changed a text. Errors: `Memory` if an allocation fails.
fn and_changed(
    kind: ChangeKind,
    tokens: Seq<OwnedToken>,
    changed: Changed,
) -> Result<Changed, Memory>
    ensures { IfOk result (λ new. new ≡ and_changed kind tokens changed) }
{
    let mut kinds = changed.kinds;
    if !same_texts(changed.tokens.as_slice(), tokens.as_slice()) {
        kinds.add(kind)?;
    }
    Ok(Changed { tokens, kinds })
}

/// Returns tokens without a change. Errors: `Memory` if an allocation fails.
fn not_changed(alloc: Global, tokens: &[OwnedToken]) -> Result<Changed, Memory>
    ensures { IfOk result (λ new. new ≡ not_changed tokens.now) }
{
    Ok(Changed {
        tokens: copies(alloc, tokens)?,
        kinds: Seq::new(alloc),
    })
}

/// Returns the items of a rule with a name for each key. Errors: `Memory` if an allocation fails.
fn rule_items(alloc: Global, changed: Changed) -> Result<Changed, Memory>
    ensures { IfOk result (λ new. new ≡ rule_items changed) }
{
    let named = with_key_names(alloc, changed.tokens.as_slice())?;
    and_changed(ChangeKind::Key, named, changed)
}

/// Returns the items of a store with a name for each key, and with its ranges written out. Errors: `Memory` if an allocation fails.
fn store_items(alloc: Global, changed: Changed) -> Result<Changed, Memory>
    ensures { IfOk result (λ new. new ≡ store_items changed) }
{
    let named = rule_items(alloc, changed)?;
    let tokens = without_ranges(alloc, STORE_ELEMENTS, named.tokens.as_slice())?;
    and_changed(ChangeKind::Range, tokens, named)
}

/// Returns the rewrite of a line that is written from its tokens if they were changed.
fn rebuilt(alloc: Global, changed: Changed) -> Rewrite
    ensures { result ≡ rebuilt changed }
{
    if changed.kinds.is_empty() {
        return unchanged(alloc);
    }
    Rewrite {
        form: Form::Rebuilt(changed.tokens),
        kinds: changed.kinds,
    }
}

/// Returns the text of a value, without its quotes.
fn bare_text(token: &OwnedToken) -> &[u8]
    ensures { result.now ≡ bare_text token.now }
{
    let text = token.text.as_slice();
    if token.kind != TokenKind::Quoted {
        return text;
    }
    if text.len() < 2 {
        return &[];
    }
    before(behind(text, 1), text.len() - 2)
}

/// Returns whether tokens are one value that is an old version.
fn is_old_version(tokens: &[OwnedToken]) -> bool
    ensures { result ≡ is_old_version tokens.now }
{
    match tokens {
        [token] => is_old_version_text(bare_text(token)),
        _ => false,
    }
}

/// Returns whether a text is an old version.
#[tactic(auto, unfolding(crate::specs::Rewrites::old_versions))]
fn is_old_version_text(text: &[u8]) -> bool
    ensures { result ≡ has_name old_versions text.now }
{
    is_listed(&OLD_VERSIONS, text)
}

/// Returns whether a store is a system store for caps lock.
#[tactic(auto, unfolding(crate::specs::Rewrites::caps_stores))]
fn is_caps_store(name: &[u8]) -> bool
    ensures { result ≡ has_name caps_stores name.now }
{
    is_listed(&CAPS_STORES, name)
}

/// Returns whether tokens are one value that is 1.
fn is_one(tokens: &[OwnedToken]) -> bool
    ensures { result ≡ is_one tokens.now }
{
    match tokens {
        [token] => bare_text(token) == b"1".as_slice(),
        _ => false,
    }
}

/// Returns whether a store of these tokens states a mnemonic layout, in a source without a list of cased keys.
fn is_mnemonic(groups: &Groups, name: &[u8], tokens: &[OwnedToken]) -> bool
    ensures { result ≡ is_mnemonic groups.now.outline name.now tokens.now }
{
    states_mnemonic(name, tokens) && !has_name(groups.outline.stores.as_slice(), b"&casedkeys")
}

/// Returns whether a store of these tokens states a mnemonic layout.
fn states_mnemonic(name: &[u8], tokens: &[OwnedToken]) -> bool
    ensures { result ≡ states_mnemonic name.now tokens.now }
{
    same_name(name, b"&mnemoniclayout") && is_one(behind(tokens, 4))
}

/// Returns what a store statement becomes. Errors: `Memory` if an allocation fails.
fn store_line(
    alloc: Global,
    groups: &Groups,
    name: &[u8],
    tokens: &[OwnedToken],
) -> Result<Rewrite, Memory>
    ensures { IfOk result (λ rewrite. rewrite ≡ store_line groups.now.outline name.now tokens.now) }
{
    if is_caps_store(name) {
        rewrite(alloc, Form::Commented, ChangeKind::Caps)
    } else if same_name(name, b"&version") && is_old_version(behind(tokens, 4)) {
        rewrite(alloc, Form::Commented, ChangeKind::Version)
    } else if is_mnemonic(groups, name, tokens) {
        rewrite(alloc, Form::Commented, ChangeKind::Mnemonic)
    } else {
        let changed = not_changed(alloc, tokens)?;
        Ok(rebuilt(alloc, store_items(alloc, changed)?))
    }
}

/// Returns what an old header becomes. Errors: `Memory` if an allocation fails.
fn header_line(alloc: Global, store: &[u8], tokens: &[OwnedToken]) -> Result<Rewrite, Memory>
    ensures { IfOk result (λ rewrite. rewrite ≡ header_line store.now tokens.now) }
{
    let values = behind(tokens, 1);
    if same_name(store, b"&version") && is_old_version(values) {
        return rewrite(alloc, Form::Commented, ChangeKind::Version);
    }
    let statement = store_tokens(alloc, store, values)?;
    rewrite(alloc, Form::Rebuilt(statement), ChangeKind::Header)
}

/// Returns the statement of the system store of an old header. Errors: `Memory` if an allocation fails.
fn store_tokens(
    alloc: Global,
    store: &[u8],
    values: &[OwnedToken],
) -> Result<Seq<OwnedToken>, Memory>
    ensures { IfOk result (λ tokens. tokens ≡ store_tokens store.now values.now) }
{
    let mut tokens = Seq::new(alloc);
    tokens.add(OwnedToken::word(alloc, b"store")?)?;
    tokens.add(OwnedToken::new(alloc, TokenKind::Open, b"(")?)?;
    tokens.add(OwnedToken::word(alloc, store)?)?;
    tokens.add(OwnedToken::new(alloc, TokenKind::Close, b")")?)?;
    tokens.append(quoted_values(alloc, values)?)?;
    Ok(tokens)
}

/// Returns values in quotes. Errors: `Memory` if an allocation fails.
fn quoted_values(alloc: Global, values: &[OwnedToken]) -> Result<Seq<OwnedToken>, Memory>
    ensures { IfOk result (λ tokens. tokens ≡ map in_quotes values.now) }
{
    let mut tokens = Seq::new(alloc);
    for value in values {
        tokens.add(in_quotes(alloc, value)?)?;
    }
    Ok(tokens)
}

/// Returns a value in quotes. Errors: `Memory` if an allocation fails.
fn in_quotes(alloc: Global, value: &OwnedToken) -> Result<OwnedToken, Memory>
    ensures { IfOk result (λ token. token ≡ in_quotes value.now) }
{
    if value.kind == TokenKind::Quoted {
        value.copy(alloc)
    } else {
        quoted_token(alloc, b'"', value.text.as_slice())
    }
}

/// Returns what a begin statement becomes. Errors: `Memory` if an allocation fails.
fn begin_line(
    alloc: Global,
    groups: &Groups,
    start: Start,
    group: &[u8],
    tokens: &[OwnedToken],
) -> Result<Rewrite, Memory>
    ensures { IfOk result (λ rewrite. rewrite ≡ begin_line groups.now.outline start group.now tokens.now) }
{
    match start {
        Start::Keys => Ok(unchanged(alloc)),
        Start::Layers => {
            if has_name(groups.outline.readonly.as_slice(), group) {
                rewrite(alloc, Form::WebOnly, ChangeKind::Layer)
            } else {
                Ok(unchanged(alloc))
            }
        }
        Start::Unnamed => {
            let statement = with_word(alloc, 1, b"ANSI", tokens)?;
            rewrite(alloc, Form::Rebuilt(statement), ChangeKind::Begin)
        }
    }
}

/// Returns tokens with a word after the first `count`. Errors: `Memory` if an allocation fails.
fn with_word(
    alloc: Global,
    count: usize,
    text: &[u8],
    tokens: &[OwnedToken],
) -> Result<Seq<OwnedToken>, Memory>
    ensures { IfOk result (λ new. new ≡ take count tokens.now ++ (word text.now ∷ drop count tokens.now)) }
{
    let mut new = copies(alloc, before(tokens, count))?;
    new.add(OwnedToken::word(alloc, text)?)?;
    new.append(copies(alloc, behind(tokens, count))?)?;
    Ok(new)
}

/// Returns what a group statement becomes. Errors: `Memory` if an allocation fails.
fn group_line(
    alloc: Global,
    groups: &Groups,
    name: &[u8],
    tokens: &[OwnedToken],
) -> Result<Rewrite, Memory>
    ensures { IfOk result (λ rewrite. rewrite ≡ group_line groups.now.outline name.now tokens.now) }
{
    if groups.is_web_only(name) {
        rewrite(alloc, Form::WebOnly, ChangeKind::Layer)
    } else if groups.is_plain_readonly(name) {
        let statement = copies(alloc, before(tokens, 4))?;
        rewrite(alloc, Form::Rebuilt(statement), ChangeKind::Readonly)
    } else {
        Ok(unchanged(alloc))
    }
}

/// Returns tokens with `context` first in the output, given the index of the first `>`. Errors: `Memory` if an allocation fails.
fn with_context(
    alloc: Global,
    arrow: usize,
    tokens: &[OwnedToken],
) -> Result<Seq<OwnedToken>, Memory>
    requires { arrow < 2 ^ 62 }
    ensures { IfOk result (λ new. new ≡ with_context arrow tokens.now) }
{
    if begins_context(behind(tokens, arrow + 1)) {
        copies(alloc, tokens)
    } else {
        with_word(alloc, arrow + 1, b"context", tokens)
    }
}

/// Returns the tokens of a rule, which puts again what it matched if its group is readonly. Errors: `Memory` if an allocation
/// fails.
fn giving_back(alloc: Global, readonly: bool, tokens: &[OwnedToken]) -> Result<Changed, Memory>
    ensures { IfOk result (λ new. new ≡ giving_back readonly tokens.now) }
{
    let changed = not_changed(alloc, tokens)?;
    if !readonly {
        return Ok(changed);
    }
    let new = with_context(alloc, arrow_place(tokens), tokens)?;
    and_changed(ChangeKind::Readonly, new, changed)
}

/// Returns what a rule in a group becomes. Errors: `Memory` if an allocation fails.
fn rule_line(
    alloc: Global,
    groups: &Groups,
    group: &[u8],
    tokens: &[OwnedToken],
) -> Result<Rewrite, Memory>
    ensures { IfOk result (λ rewrite. rewrite ≡ rule_line groups.now.outline group.now tokens.now) }
{
    if groups.is_web_only(group) {
        return rewrite(alloc, Form::WebOnly, ChangeKind::Layer);
    }
    let changed = giving_back(alloc, groups.is_plain_readonly(group), tokens)?;
    Ok(rebuilt(alloc, rule_items(alloc, changed)?))
}

/// Returns what a match or nomatch in a group becomes. Errors: `Memory` if an allocation fails.
fn match_line(
    alloc: Global,
    groups: &Groups,
    group: &[u8],
    tokens: &[OwnedToken],
) -> Result<Rewrite, Memory>
    ensures { IfOk result (λ rewrite. rewrite ≡ match_line groups.now.outline group.now tokens.now) }
{
    if groups.is_web_only(group) {
        return rewrite(alloc, Form::WebOnly, ChangeKind::Layer);
    }
    let changed = not_changed(alloc, tokens)?;
    Ok(rebuilt(alloc, rule_items(alloc, changed)?))
}
