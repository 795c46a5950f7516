//! The commands with their texts as JSON Lines.
ghost use Rattle.gt_text.specs.Streams.{ConsumesAtMost};
ghost use Rattle.gt_text.specs.declared.streams.TheConstants.{READ_LIMIT};
ghost use Rattle.gt_json.specs.declared.places.PrintedText.TheVariants as printed_texts;
ghost use Rattle.gt_script_runs.specs.declared.fault.PlayFault.TheVariants as play_faults;
ghost use Rattle.gt_policy_list.specs.declared.fault.ListingFault.TheVariants as listing_faults;
ghost use Rattle.gt_entries.specs.declared.fault.DumpFault.TheVariants as dump_faults;
ghost use Rattle.gt_file_commands.specs.AsJson.{ForInput, PlayedAsJson, ListedAsJson, WroteDumpAsJson, Passes};

use gt_entries::{DumpFault, DumpOptions, entries};
use gt_host::play;
use gt_json::{JsonFault, PrintedText, write_json};
use gt_policy_list::{ListingFault, policy};
use gt_script_runs::PlayFault;
use gt_text::every_writer_keeps_what_it_has;
use std::alloc::Global;
use std::io::{Read, Write};

// Writes the JSON of the text that `play` wrote, if it returned Ok.
fn pass_play<W: Write>(
    alloc: Global,
    text: &[u8],
    outcome: Result<(), PlayFault>,
    writer: &mut W,
) -> Result<(), PlayFault>
    ensures { Passes printed_texts.Run play_faults.Memory play_faults.Write text.now outcome
        (W.contents writer.old) (W.contents writer.new) result }
{
    every_writer_keeps_what_it_has();
    match outcome {
        Ok(()) => match write_json(alloc, PrintedText::Run, text, writer) {
            Ok(()) => Ok(()),
            Err(JsonFault::Memory) => Err(PlayFault::Memory),
            Err(JsonFault::Write) => Err(PlayFault::Write),
        },
        Err(PlayFault::Write) => Err(PlayFault::Memory),
        Err(fault) => Err(fault),
    }
}

// Writes the JSON of the text that `policy` wrote, if it returned Ok.
fn pass_policy<W: Write>(
    alloc: Global,
    text: &[u8],
    outcome: Result<(), ListingFault>,
    writer: &mut W,
) -> Result<(), ListingFault>
    ensures { Passes printed_texts.Policy listing_faults.Memory listing_faults.Write text.now outcome
        (W.contents writer.old) (W.contents writer.new) result }
{
    every_writer_keeps_what_it_has();
    match outcome {
        Ok(()) => match write_json(alloc, PrintedText::Policy, text, writer) {
            Ok(()) => Ok(()),
            Err(JsonFault::Memory) => Err(ListingFault::Memory),
            Err(JsonFault::Write) => Err(ListingFault::Write),
        },
        Err(ListingFault::Write) => Err(ListingFault::Memory),
        Err(fault) => Err(fault),
    }
}

// Writes the JSON of the text that `entries` wrote, if it returned Ok.
fn pass_entries<W: Write>(
    alloc: Global,
    text: &[u8],
    outcome: Result<(), DumpFault>,
    writer: &mut W,
) -> Result<(), DumpFault>
    ensures { Passes printed_texts.Entries dump_faults.Memory dump_faults.Write text.now outcome
        (W.contents writer.old) (W.contents writer.new) result }
{
    every_writer_keeps_what_it_has();
    match outcome {
        Ok(()) => match write_json(alloc, PrintedText::Entries, text, writer) {
            Ok(()) => Ok(()),
            Err(JsonFault::Memory) => Err(DumpFault::Memory),
            Err(JsonFault::Write) => Err(DumpFault::Write),
        },
        Err(DumpFault::Write) => Err(DumpFault::Memory),
        Err(fault) => Err(fault),
    }
}

/// Plays a script as [`play`] does, and writes its text as JSON Lines.
///
/// # Errors
/// Those of `play`. At a fault of the script or a failed read nothing was written; after a failed write or allocation,
/// a prefix of the JSON or nothing.
pub(crate) fn play_json<R: Read, W: Write>(
    alloc: Global,
    reader: &mut R,
    writer: &mut W,
    audit: bool,
) -> Result<(), PlayFault>
    ensures text { ForInput (R.remaining reader.old) (λ input. PlayedAsJson input audit)
        (W.contents writer.old) (W.contents writer.new) result }
    ensures read { ConsumesAtMost READ_LIMIT (R.remaining reader.old) (R.remaining reader.new) }
{
    let mut text = Vec::new(alloc);
    let outcome = play(alloc, reader, &mut text, audit);
    pass_play(alloc, text.as_slice(), outcome, writer)
}

/// Lists the triples of a policy as [`policy`] does, and writes them as JSON Lines.
///
/// # Errors
/// Those of `policy`. At a fault of the policy or a failed read nothing was written; after a failed write or
/// allocation, a prefix of the JSON or nothing.
pub(crate) fn policy_json<R: Read, W: Write>(
    alloc: Global,
    reader: &mut R,
    writer: &mut W,
) -> Result<(), ListingFault>
    ensures text { ForInput (R.remaining reader.old) ListedAsJson
        (W.contents writer.old) (W.contents writer.new) result }
    ensures read { ConsumesAtMost READ_LIMIT (R.remaining reader.old) (R.remaining reader.new) }
{
    let mut text = Vec::new(alloc);
    let outcome = policy(alloc, reader, &mut text);
    pass_policy(alloc, text.as_slice(), outcome, writer)
}

/// Prints the entries of a dump as [`entries`] does, and writes them as JSON Lines. With `asked.script` the lines are
/// those of a script: their objects only split them into words.
///
/// # Errors
/// Those of `entries`. At a fault of the dump or a failed read nothing was written; after a failed write or allocation,
/// a prefix of the JSON or nothing.
pub(crate) fn entries_json<R: Read, W: Write>(
    alloc: Global,
    asked: DumpOptions,
    reader: &mut R,
    writer: &mut W,
) -> Result<(), DumpFault>
    ensures text { ForInput (R.remaining reader.old) (WroteDumpAsJson asked)
        (W.contents writer.old) (W.contents writer.new) result }
    ensures read { ConsumesAtMost READ_LIMIT (R.remaining reader.old) (R.remaining reader.new) }
{
    let mut text = Vec::new(alloc);
    let outcome = entries(alloc, asked, reader, &mut text);
    pass_entries(alloc, text.as_slice(), outcome, writer)
}
