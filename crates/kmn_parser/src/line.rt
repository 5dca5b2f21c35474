//! The statement of a logical line.

ghost use Rattle.std.specs.Prelude.{◌≡◌, ◌<◌, ◌^◌, length};
ghost use Rattle.kmn_items.specs.TokenTexts.{texts, Reads};
ghost use Rattle.kmn_parser.specs.Line.{read_tokens, read_line};

use crate::group_line::{read_begin, read_group};
use crate::rule_line::{read_match, read_rule};
use crate::signs::begins_word;
use crate::statement::{LastGroup, Line, Statement};
use crate::store_line::read_store;
use kmn_items::{LineError, LineTokens};
use rule_model::RuleKind;
use std::alloc::Global;

/// Reads the tokens of a line with a number, after the last group before it. Errors: `Memory` if an allocation fails; else the first
/// fault among the tokens, `S01` to `S12`, `L02` or `L04`.
pub fn read_line(
    alloc: Global,
    group: LastGroup,
    number: u32,
    tokens: LineTokens<'_>,
) -> Result<Statement, LineError>
    requires { length (texts tokens) < 2 ^ 59 }
    ensures { Reads (read_line group number (texts tokens.entry)) result }
{
    if tokens.is_empty() {
        return Ok(Statement::Nothing);
    }
    let last = tokens.len() - 1;
    read_tokens(
        alloc,
        Line {
            number,
            group,
            last,
            tokens,
        },
    )
}

/// Reads a line by its first word.
fn read_tokens(alloc: Global, line: Line<'_>) -> Result<Statement, LineError>
    requires { length (texts line.tokens) < 2 ^ 59 }
    ensures { Reads (read_tokens line.entry.group line.entry.number line.entry.last (texts line.entry.tokens)) result }
{
    if begins_word(b"store", line.tokens) {
        read_store(alloc, line)
    } else if begins_word(b"begin", line.tokens) {
        read_begin(alloc, line)
    } else if begins_word(b"group", line.tokens) {
        read_group(alloc, line)
    } else if begins_word(b"match", line.tokens) {
        read_match(alloc, RuleKind::OnMatch, line)
    } else if begins_word(b"nomatch", line.tokens) {
        read_match(alloc, RuleKind::OnNoMatch, line)
    } else {
        read_rule(alloc, line)
    }
}
