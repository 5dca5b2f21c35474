//! Writes a line in its new form. A written line counts only if it is read as its tokens and has the line ends of the old line.

ghost use Rattle.std.specs.Prelude.{◌≡◌, ◌++◌, ◌≤◌, [], length, true, Some, IfOk, OnOk};
ghost use Rattle.std.specs.List.{list_all};
ghost use Rattle.kmn_base.specs.Bytes.{is_blank};
ghost use Rattle.kmn_base.specs.declared.limits.TheConstants.{TEXT_BYTES};
ghost use Rattle.kmn_lines.specs.Laws.{bytes_between};
ghost use Rattle.kmn_lines.specs.Lines.{logicals};
ghost use Rattle.kmn_lines.specs.Places.{IsPlaced};
ghost use Rattle.kmn_lines.specs.Walks.{physical_lines_left};
ghost use Rattle.import_lines.specs.Written.{is_unspaced, spaced_token, spaced, prefix, before_rest, in_last_line, spaced_prefix, rebuilt_line, is_read_as, is_line_of, commented_line, line_bytes, web_only_line, form_bytes, unchanged_line, if_same_line_ends, written_line};
ghost use Rattle.import_lines.specs.Rewrites.{same_texts};
ghost use Rattle.kmn_items.specs.TokenTexts.{with_texts};

use crate::change_kind::ChangeKind;
use crate::line_ends::{can_replace, line_bytes};
use crate::rewrite::{Form, Rewrite, WrittenLine};
use import_tokens::OwnedToken;
use kmn_base::bytes::is_blank;
use kmn_base::limits::TEXT_BYTES;
use kmn_base::slices::{before, behind};
use kmn_base::{CompileError, Memory, Seq, Text};
use kmn_items::text_in;
use kmn_lines::bytes::byte_or_end;
use kmn_lines::{
    Logical, PhysicalLine, PhysicalLines, Token, TokenKind, dropped, lines, physical_lines,
};
use kmn_tokens::tokens;
use std::alloc::Global;

/// Returns a logical line of this source after its rewrite. Errors: `Memory` if an allocation fails.
pub(crate) fn written_line(
    alloc: Global,
    source: &str,
    logical: Logical,
    rewrite: Rewrite,
) -> Result<WrittenLine, Memory>
    requires few { length source.now ≤ TEXT_BYTES }
    requires placed { IsPlaced source.now logical }
    ensures { IfOk result (λ line. line ≡ written_line source.now logical rewrite) }
{
    match form_bytes(alloc, source, logical, &rewrite.form)? {
        Some(new) => if_same_line_ends(alloc, source, logical, rewrite.kinds, new),
        None => unchanged_line(alloc, source, logical),
    }
}

/// Returns a line that is kept. Errors: `Memory` if an allocation fails.
fn unchanged_line(alloc: Global, source: &str, logical: Logical) -> Result<WrittenLine, Memory>
    ensures { IfOk result (λ line. line ≡ unchanged_line (line_bytes source.now logical)) }
{
    Ok(WrittenLine {
        bytes: Seq::from_slice(alloc, line_bytes(source.as_bytes(), logical))?,
        kinds: Seq::new(alloc),
    })
}

/// Returns new bytes with their changes if they can replace the old ones, else the old ones. Errors: `Memory` if an allocation
/// fails.
fn if_same_line_ends(
    alloc: Global,
    source: &str,
    logical: Logical,
    kinds: Seq<ChangeKind>,
    new: Text,
) -> Result<WrittenLine, Memory>
    requires few { length source.now ≤ TEXT_BYTES }
    requires placed { IsPlaced source.now logical }
    ensures { IfOk result (λ line. line ≡ if_same_line_ends (line_bytes source.now logical) kinds (Some new)) }
{
    if kinds.is_empty() {
        return unchanged_line(alloc, source, logical);
    }
    if !can_replace(source, logical, new.as_slice()) {
        return unchanged_line(alloc, source, logical);
    }
    Ok(WrittenLine { bytes: new, kinds })
}

/// Returns the bytes of a line in a form, or None if it is kept or would not be read as its tokens. Errors: `Memory` if an
/// allocation fails.
fn form_bytes(
    alloc: Global,
    source: &str,
    logical: Logical,
    form: &Form,
) -> Result<Option<Text>, Memory>
    requires few { length source.now ≤ TEXT_BYTES }
    requires placed { IsPlaced source.now logical }
    ensures { IfOk result (λ bytes. bytes ≡ form_bytes source.now logical form.now) }
{
    match form {
        Form::Unchanged => Ok(None),
        Form::WebOnly => Ok(Some(web_only_line(alloc, source, logical)?)),
        Form::Commented => {
            let walk = physical_lines(source, logical);
            Ok(Some(commented_line(alloc, source.as_bytes(), walk)?))
        }
        Form::Rebuilt(tokens) => {
            let line = rebuilt_line(alloc, source, logical, tokens.as_slice())?;
            if is_read_as(alloc, tokens.as_slice(), line.as_slice())? {
                return Ok(Some(line));
            }
            Ok(None)
        }
    }
}

/// Returns the bytes between two positions.
fn between(source: &[u8], from: usize, to: usize) -> &[u8]
    ensures { result.now ≡ bytes_between source.now from to }
{
    behind(before(source, to), from)
}

/// Returns physical lines as comments. Errors: `Memory` if an allocation fails.
fn commented_line(alloc: Global, source: &[u8], walk: PhysicalLines<'_>) -> Result<Text, Memory>
    ensures { IfOk result (λ text. text ≡ commented_line source.now (physical_lines_left walk.entry)) }
{
    let mut text = Seq::new(alloc);
    for physical in walk {
        text.extend_from_slice(b"c ")?;
        text.extend_from_slice(between(source, physical.from, physical.next))?;
    }
    Ok(text)
}

/// Returns a logical line after `$keymanweb:`, or as a comment if it has its own prefix. Errors: `Memory` if an allocation fails.
fn web_only_line(alloc: Global, source: &str, logical: Logical) -> Result<Text, Memory>
    requires few { length source.now ≤ TEXT_BYTES }
    requires placed { IsPlaced source.now logical }
    ensures { IfOk result (λ text. text ≡ web_only_line source.now logical) }
{
    let walk = physical_lines(source, logical);
    let bytes = source.as_bytes();
    if !prefix(bytes, walk).is_empty() {
        return commented_line(alloc, bytes, walk);
    }
    let mut text = Seq::from_slice(alloc, b"$keymanweb: ")?;
    text.extend_from_slice(line_bytes(bytes, logical))?;
    Ok(text)
}

/// Returns the prefix before the first text of physical lines.
fn prefix<'a>(source: &'a [u8], walk: PhysicalLines<'_>) -> &'a [u8]
    ensures { result.now ≡ prefix source.now (physical_lines_left walk.entry) }
{
    for physical in walk {
        let text = between(source, physical.from, physical.to);
        if !is_all_blank(text) {
            return before(text, dropped(text));
        }
    }
    &[]
}

/// Returns whether a text has only blanks.
fn is_all_blank(text: &[u8]) -> bool
    ensures { result ≡ list_all is_blank text.now }
{
    text.iter().all(|byte| is_blank(*byte))
}

/// Returns a logical line with other tokens. Errors: `Memory` if an allocation fails.
fn rebuilt_line(
    alloc: Global,
    source: &str,
    logical: Logical,
    tokens: &[OwnedToken],
) -> Result<Text, Memory>
    requires few { length source.now ≤ TEXT_BYTES }
    requires placed { IsPlaced source.now logical }
    ensures { IfOk result (λ text. text ≡ rebuilt_line source.now logical tokens.now) }
{
    let walk = physical_lines(source, logical);
    let bytes = source.as_bytes();
    let mut text = spaced_prefix(alloc, prefix(bytes, walk))?;
    add_spaced(&mut text, tokens)?;
    in_last_line(alloc, bytes, text.as_slice(), walk)
}

/// Returns a prefix with a blank after it. Errors: `Memory` if an allocation fails.
fn spaced_prefix(alloc: Global, prefix: &[u8]) -> Result<Text, Memory>
    ensures { IfOk result (λ text. text ≡ spaced_prefix prefix.now) }
{
    let mut text = Seq::from_slice(alloc, prefix)?;
    if !prefix.is_empty() {
        text.add(b' ')?;
    }
    Ok(text)
}

/// Appends the texts of tokens with blanks between them. Errors: `Memory` if an allocation fails.
fn add_spaced(text: &mut Text, tokens: &[OwnedToken]) -> Result<(), Memory>
    ensures { OnOk result (text.new ≡ text.old ++ spaced true tokens.now) }
{
    let mut joined = true;
    for token in tokens {
        add_token(text, joined, token)?;
        joined = matches!(token.kind, TokenKind::Open | TokenKind::BracketOpen);
    }
    Ok(())
}

/// Appends the text of a token, after a blank unless it is joined to the one before. Errors: `Memory` if an allocation fails.
fn add_token(text: &mut Text, joined: bool, token: &OwnedToken) -> Result<(), Memory>
    ensures { OnOk result (text.new ≡ text.old ++ spaced_token joined token.now) }
{
    if !(joined || is_unspaced(token.kind)) {
        text.add(b' ')?;
    }
    text.extend_from_slice(token.text.as_slice())
}

/// Returns whether no blank is written before a token.
fn is_unspaced(kind: TokenKind) -> bool
    ensures { result ≡ is_unspaced kind }
{
    matches!(
        kind,
        TokenKind::Open | TokenKind::Close | TokenKind::BracketClose | TokenKind::Comma
    )
}

/// Returns a text in the last of physical lines: of the lines only backslashes, comments and line ends are kept. Errors: `Memory`
/// if an allocation fails.
fn in_last_line(
    alloc: Global,
    source: &[u8],
    text: &[u8],
    walk: PhysicalLines<'_>,
) -> Result<Text, Memory>
    ensures { IfOk result (λ line. line ≡ in_last_line source.now text.now (physical_lines_left walk.entry)) }
{
    let mut line = Seq::new(alloc);
    let mut last: Option<PhysicalLine> = None;
    for physical in walk {
        if let Some(before) = last {
            line.extend_from_slice(between(source, before.to, before.next))?;
        }
        last = Some(physical);
    }
    if let Some(physical) = last {
        line.extend_from_slice(text)?;
        add_rest(&mut line, between(source, physical.to, physical.next))?;
    }
    Ok(line)
}

/// Appends the rest of a physical line, with a blank before its comment or its backslash. Errors: `Memory` if an allocation fails.
fn add_rest(line: &mut Text, rest: &[u8]) -> Result<(), Memory>
    ensures { OnOk result (line.new ≡ line.old ++ before_rest rest.now) }
{
    let first = byte_or_end(rest, 0);
    if first != b'\n' && first != b'\r' {
        line.add(b' ')?;
    }
    line.extend_from_slice(rest)
}

/// Returns whether bytes in UTF-8 are one logical line without a fault that has these tokens. Errors: `Memory` if an allocation
/// fails.
fn is_read_as(alloc: Global, tokens: &[OwnedToken], line: &[u8]) -> Result<bool, Memory>
    ensures { IfOk result (λ read. read ≡ is_line_of tokens.now line.now) }
{
    if line.len() > TEXT_BYTES {
        return Ok(false);
    }
    match str::from_utf8(line) {
        Ok(text) => is_text_of(alloc, tokens, text),
        Err(_) => Ok(false),
    }
}

/// Returns whether a text is one logical line without a fault that has these tokens. Errors: `Memory` if an allocation fails.
fn is_text_of(alloc: Global, wanted: &[OwnedToken], text: &str) -> Result<bool, Memory>
    requires { length text.now ≤ TEXT_BYTES }
    ensures { IfOk result (λ read. read ≡ is_read_as wanted.now text.now (logicals text.now)) }
{
    let mut walk = lines(text);
    let Some(logical) = walk.next() else {
        return Ok(false);
    };
    if walk.next().is_some() {
        return Ok(false);
    }
    match tokens(alloc, text, logical) {
        Ok(found) => Ok(are_texts_of(wanted, text.as_bytes(), found.as_slice())),
        Err(CompileError::Memory) => Err(Memory),
        Err(_) => Ok(false),
    }
}

/// Returns whether the tokens of a text have these texts.
fn are_texts_of(wanted: &[OwnedToken], text: &[u8], found: &[Token]) -> bool
    ensures { result ≡ same_texts wanted.now (with_texts text.now found.now) }
{
    let mut left = wanted;
    let mut right = found;
    while let [first, rest @ ..] = left {
        let [other, others @ ..] = right else {
            return false;
        };
        if first.text.as_slice() != text_in(text, *other) {
            return false;
        }
        left = rest;
        right = others;
    }
    right.is_empty()
}
