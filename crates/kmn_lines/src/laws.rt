//! Laws of the definitions in `specs/`, each the contract of a function with an empty body.

ghost use Rattle.kmn_lines.specs.Laws.{TokensCoverParts, WordsArePlain, PartsStandInOrder, PhysicalLinesMakeTheSource, LinesMakeTheSource, LinesAreNumbered, PartsAreTexts, PrefixesAreDropped, TokensAreText};

/// The tokens of a line are in its parts in rising order and do not overlap. Each token has a byte and the line number of its
/// part, and each byte of a part that is not in a token is a blank.
#[tactic(auto, using(crate::proofs::Covering::tokens_cover_parts))]
pub fn tokens_cover_parts()
    ensures { TokensCoverParts }
{}

/// A word has no blank, no quote and none of the bytes that are tokens by themselves, so no `!=` either.
#[tactic(auto, using(crate::proofs::Covering::words_are_plain))]
pub fn words_are_plain()
    ensures { WordsArePlain }
{}

/// The parts of a line are in it in rising order and do not overlap.
#[tactic(auto, using(crate::proofs::Whole::parts_stand_in_order))]
pub fn parts_stand_in_order()
    ensures { PartsStandInOrder }
{}

/// The physical lines with their line ends, joined after a byte order mark, are the source.
#[tactic(auto, using(crate::proofs::Whole::physical_lines_make_the_source))]
pub fn physical_lines_make_the_source()
    ensures { PhysicalLinesMakeTheSource }
{}

/// The logical lines with their line ends, joined after a byte order mark, are the source.
#[tactic(auto, using(crate::proofs::Whole::lines_make_the_source))]
pub fn lines_make_the_source()
    ensures { LinesMakeTheSource }
{}

/// The number of a logical line is one more than the number of line ends before it.
#[tactic(auto, using(crate::proofs::Numbered::lines_are_numbered))]
pub fn lines_are_numbered()
    ensures { LinesAreNumbered }
{}

/// The physical lines of a logical line follow one another, and each but the last is joined to the next. The parts are their
/// texts without a prefix. A text is a physical line without its comment, its joining backslash with the blanks after it, and
/// its line end. A comment is a `c` or `C` outside quotes, after a blank or the line's start and before a blank or the line's
/// end, with the rest of the physical line.
#[tactic(auto, using(crate::proofs::LineTexts::parts_are_texts))]
pub fn parts_are_texts()
    ensures { PartsAreTexts }
{}

/// The omitted prefix is blanks and `$keyman:` or `$keymanonly:`. A line is skipped from blanks and `$keymanweb:` or `$kmfl:` on.
pub fn prefixes_are_dropped()
    ensures { PrefixesAreDropped }
{}

/// The tokens of the lines of a UTF-8 source are UTF-8.
#[tactic(auto, using(crate::proofs::TextLines::tokens_are_text))]
pub fn tokens_are_text()
    ensures { TokensAreText }
{}
