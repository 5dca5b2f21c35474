//! The printed lines of what the other engine treats differently.

ghost use Rattle.std.specs.Prelude.{◌≡◌, ◌++◌, IfOk, IsTrue, flat_map, map};
ghost use Rattle.std.specs.String.{string_bytes};
ghost use Rattle.rule_model.specs.Lines.{joined};
ghost use Rattle.kmn_outside.specs.Outside.{WriteCounts};
ghost use Rattle.play_transcript.specs.Printing.{Prints};
ghost use Rattle.export_run.specs.Lines.{construct_word, group_word, file_word, differs_line, group_line, file_line, told_text};

use core_constructs::{
    Construct, Difference, FileConstruct, GroupConstruct, GroupDifference, Told,
};
use kmn_base::{Memory, Text};
use kmn_outside::{Sink, WriteError};
use play_transcript::put_all;
use std::alloc::{AllocError, Global};

/// Prints what the other engine treats differently: first by line of the source, then by group, then for the file.
#[tactic(auto, using(play_transcript::proofs::PrintingLaws::faults, play_transcript::proofs::PrintingLaws::prints_behind))]
pub fn put_told<S: Sink>(alloc: Global, differences: &Told, out: &mut S) -> Result<(), WriteError>
    ensures counts { WriteCounts (S.faults out.old) (S.faults out.new) result }
    ensures told { S.told out.new ≡ S.told out.old }
    ensures prints { IsTrue (S.told out.old) → Prints (S.written out.old) (S.written out.new) (told_text differences.now) result }
{
    put_differences(alloc, differences.lines.as_slice(), out)?;
    put_groups(alloc, differences.groups.as_slice(), out)?;
    put_file(alloc, differences.file.as_slice(), out)
}

/// Prints a line for each line of the source that the other engine treats differently.
#[tactic(auto, using(play_transcript::proofs::PrintingLaws::faults, crate::proofs::Differs::lines_begin))]
fn put_differences<S: Sink>(
    alloc: Global,
    differences: &[Difference],
    out: &mut S,
) -> Result<(), WriteError>
    ensures counts { WriteCounts (S.faults out.old) (S.faults out.new) result }
    ensures told { S.told out.new ≡ S.told out.old }
    ensures prints { IsTrue (S.told out.old) → Prints (S.written out.old) (S.written out.new) (flat_map differs_line differences.now) result }
{
    for difference in differences {
        put_difference(alloc, difference, out)?;
    }
    Ok(())
}

/// Prints the line of a difference.
#[tactic(auto, using(play_transcript::proofs::PrintingLaws::faults))]
fn put_difference<S: Sink>(
    alloc: Global,
    difference: &Difference,
    out: &mut S,
) -> Result<(), WriteError>
    ensures counts { WriteCounts (S.faults out.old) (S.faults out.new) result }
    ensures told { S.told out.new ≡ S.told out.old }
    ensures prints { IsTrue (S.told out.old) → Prints (S.written out.old) (S.written out.new) (differs_line difference.now) result }
{
    let line = differs_line(alloc, difference)?;
    put_all(out, line.as_slice())
}

/// Returns the line of a difference.
fn differs_line(alloc: Global, difference: &Difference) -> Result<Text, Memory>
    ensures { IfOk result (λ line. line ≡ differs_line difference.now) }
{
    let mut line = format!(in alloc; "differs {} ", difference.line)?;
    put_words(&mut line, difference.constructs.as_slice())?;
    line.push_str("\n")?;
    Ok(Text::from_string(line))
}

/// Appends the words of constructs, joined by dots, or `-` if there are none.
fn put_words(line: &mut String, constructs: &[Construct]) -> Result<(), AllocError>
    ensures { IfOk result (λ _. string_bytes line.new ≡ string_bytes line.old ++ joined (map construct_word constructs.now)) }
{
    let [first, rest @ ..] = constructs else {
        return line.push_str("-");
    };
    line.push_str(construct_word(*first))?;
    for construct in rest {
        line.push_str(".")?;
        line.push_str(construct_word(*construct))?;
    }
    Ok(())
}

/// Returns the word of a construct of a record.
fn construct_word(construct: Construct) -> &'static str
    ensures { result.now ≡ construct_word construct }
{
    match construct {
        Construct::Use => "use",
        Construct::Match => "match",
        Construct::Nul => "nul",
        Construct::Offset => "offset",
        Construct::Empty => "empty",
        Construct::Sides => "sides",
        Construct::Right => "right",
        Construct::Long => "long",
        Construct::Layer => "layer",
        Construct::Platform => "platform",
        Construct::Save => "save",
        Construct::Keypad => "keypad",
        Construct::Value => "value",
    }
}

/// Prints a line for each construct of the match or nomatch output of a group.
#[tactic(auto, using(play_transcript::proofs::PrintingLaws::faults, crate::proofs::Differs::groups_begin))]
fn put_groups<S: Sink>(
    alloc: Global,
    differences: &[GroupDifference],
    out: &mut S,
) -> Result<(), WriteError>
    ensures counts { WriteCounts (S.faults out.old) (S.faults out.new) result }
    ensures told { S.told out.new ≡ S.told out.old }
    ensures prints { IsTrue (S.told out.old) → Prints (S.written out.old) (S.written out.new) (flat_map group_line differences.now) result }
{
    for difference in differences {
        put_group(alloc, difference, out)?;
    }
    Ok(())
}

/// Prints the line of a construct of a group.
#[tactic(auto, using(play_transcript::proofs::PrintingLaws::faults))]
fn put_group<S: Sink>(
    alloc: Global,
    difference: &GroupDifference,
    out: &mut S,
) -> Result<(), WriteError>
    ensures counts { WriteCounts (S.faults out.old) (S.faults out.new) result }
    ensures told { S.told out.new ≡ S.told out.old }
    ensures prints { IsTrue (S.told out.old) → Prints (S.written out.old) (S.written out.new) (group_line difference.now) result }
{
    let line = group_line(alloc, difference)?;
    put_all(out, line.as_slice())
}

/// Returns the line of a construct of a group.
fn group_line(alloc: Global, difference: &GroupDifference) -> Result<Text, Memory>
    ensures { IfOk result (λ line. line ≡ group_line difference.now) }
{
    let word = group_word(difference.construct);
    let line = format!(in alloc; "differs group {} {word}\n", difference.group)?;
    Ok(Text::from_string(line))
}

/// Returns the word of a construct of the match or nomatch output of a group.
fn group_word(construct: GroupConstruct) -> &'static str
    ensures { result.now ≡ group_word construct }
{
    match construct {
        GroupConstruct::Use => "use",
        GroupConstruct::Save => "save",
        GroupConstruct::Layer => "layer",
        GroupConstruct::Nomatch => "nomatch",
    }
}

/// Prints a line for each construct of the file.
#[tactic(auto, using(play_transcript::proofs::PrintingLaws::faults, crate::proofs::Differs::words_begin))]
fn put_file<S: Sink>(
    alloc: Global,
    constructs: &[FileConstruct],
    out: &mut S,
) -> Result<(), WriteError>
    ensures counts { WriteCounts (S.faults out.old) (S.faults out.new) result }
    ensures told { S.told out.new ≡ S.told out.old }
    ensures prints { IsTrue (S.told out.old) → Prints (S.written out.old) (S.written out.new) (flat_map file_line constructs.now) result }
{
    for construct in constructs {
        put_file_word(alloc, *construct, out)?;
    }
    Ok(())
}

/// Prints the line of a construct of the file.
#[tactic(auto, using(play_transcript::proofs::PrintingLaws::faults))]
fn put_file_word<S: Sink>(
    alloc: Global,
    construct: FileConstruct,
    out: &mut S,
) -> Result<(), WriteError>
    ensures counts { WriteCounts (S.faults out.old) (S.faults out.new) result }
    ensures told { S.told out.new ≡ S.told out.old }
    ensures prints { IsTrue (S.told out.old) → Prints (S.written out.old) (S.written out.new) (file_line construct) result }
{
    let line = file_line(alloc, construct)?;
    put_all(out, line.as_slice())
}

/// Returns the line of a construct of the file.
fn file_line(alloc: Global, construct: FileConstruct) -> Result<Text, Memory>
    ensures { IfOk result (λ line. line ≡ file_line construct) }
{
    let word = file_word(construct);
    let line = format!(in alloc; "differs file {word}\n")?;
    Ok(Text::from_string(line))
}

/// Returns the word of a construct of the file.
fn file_word(construct: FileConstruct) -> &'static str
    ensures { result.now ≡ file_word construct }
{
    match construct {
        FileConstruct::Marks => "marks",
        FileConstruct::Own => "own",
        FileConstruct::Both => "both",
        FileConstruct::Budget => "budget",
        FileConstruct::Caps => "caps",
        FileConstruct::Names => "names",
    }
}
