//! Writes the objects of the lines of a text.
ghost use Rattle.std.specs.Prelude.{◌≡◌, ◌==◌, ◌++◌, IfOk, OnOk, OnErr, map};
ghost use Rattle.std.specs.Io.KnownBytes.{Appends};
ghost use Rattle.std.specs.List.{slice_split, flat_map};
ghost use Rattle.gt_text.specs.Streams.{AppendsBeginning};
ghost use Rattle.gt_json.specs.Lines.{pieces, json_words, object_line, json_text};
ghost use Rattle.gt_json.specs.Places.{start};

use crate::fault::JsonFault;
use crate::members::push_word_member;
use crate::places::PrintedText;
use gt_text::{finish, push_text, send};
use std::alloc::{AllocError, Global};
use std::io::Write;

// Splits a line into its words, at each blank.
fn words_of<'l>(alloc: Global, line: &'l [u8]) -> Result<Vec<&'l [u8]>, AllocError>
    ensures { IfOk result (λ v. map (λ word. word.now) v.items ≡ json_words line.entry.now) }
{
    line.split(|byte| *byte == b' ').collect(alloc)
}

// Splits a text into its lines. The last one is what follows the last LF.
fn lines_of<'t>(alloc: Global, text: &'t [u8]) -> Result<Vec<&'t [u8]>, AllocError>
    ensures { IfOk result (λ v. map (λ line. line.now) v.items ≡ slice_split (λ b. b == 10) text.entry.now) }
{
    text.split(|byte| *byte == b'\n').collect(alloc)
}

fn push_pieces(out: &mut Vec<u8>, printed: PrintedText, words: &[&[u8]]) -> Result<(), AllocError>
    ensures { OnOk result (out.new.items ≡ out.old.items ++ pieces (start printed) (map (λ w. w.now) words.now)) }
{
    let mut place = printed.start();
    'words: for word in words {
        push_word_member(out, place, word)?;
        place = place.next(word);
    }
    Ok(())
}

// Appends the object of a line; nothing for an empty line.
#[tactic(auto, unfolding(crate::specs::Lines::object_line))]
fn push_object(
    alloc: Global,
    out: &mut Vec<u8>,
    printed: PrintedText,
    line: &[u8],
) -> Result<(), AllocError>
    ensures { OnOk result (out.new.items ≡ out.old.items ++ object_line printed line.now) }
{
    if line.is_empty() {
        return Ok(());
    }
    let words = words_of(alloc, line)?;
    push_pieces(out, printed, words.as_slice())?;
    push_text(out, "}\n")
}

// Writes the objects of lines.
fn write_lines<W: Write>(
    alloc: Global,
    printed: PrintedText,
    lines: &[&[u8]],
    writer: &mut W,
) -> Result<(), JsonFault>
    ensures whole { OnOk result (Appends (W.contents writer.old) (W.contents writer.new)
        (flat_map (λ l. object_line printed l.now) lines.now)) }
    ensures beginning { OnErr result (AppendsBeginning (W.contents writer.old) (W.contents writer.new)
        (flat_map (λ l. object_line printed l.now) lines.now)) }
{
    let mut waiting = Vec::new(alloc);
    'lines: for line in lines {
        push_object(alloc, &mut waiting, printed, line)?;
        send(writer, &mut waiting)?;
    }
    finish(writer, waiting.as_slice())?;
    Ok(())
}

/// Writes a text that a command printed as JSON Lines: an object for each line, with a member for each word.
///
/// # Errors
/// An allocation or a write failed. A prefix of the JSON may have gone out.
pub fn write_json<W: Write>(
    alloc: Global,
    printed: PrintedText,
    text: &[u8],
    writer: &mut W,
) -> Result<(), JsonFault>
    ensures whole { OnOk result (Appends (W.contents writer.old) (W.contents writer.new)
        (json_text printed text.now)) }
    ensures beginning { OnErr result (AppendsBeginning (W.contents writer.old) (W.contents writer.new)
        (json_text printed text.now)) }
{
    let lines = lines_of(alloc, text)?;
    write_lines(alloc, printed, lines.as_slice(), writer)
}
