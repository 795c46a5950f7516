//! Texts as JSON Lines.
use anyhow::{Result, bail};
use gt_json::{JsonFault, PrintedText, write_json};
use std::alloc::Global;
use test_failing::{FailingWriter, failing_line};

/// Returns a text as JSON Lines.
pub fn json_said(alloc: Global, printed: PrintedText, text: &[u8]) -> Result<Vec<u8>> {
    let mut json = Vec::new(alloc);
    match write_json(alloc, printed, text, &mut json) {
        Ok(()) => Ok(json),
        Err(fault) => bail!("{fault:?}"),
    }
}

// Returns whether a writer that takes this number of bytes got a prefix of the JSON, and its failure was reported if
// that is less than all of it and the flush.
fn is_told(alloc: Global, text: &[u8], json: &[u8], left: usize) -> bool {
    let is_short = left <= json.len();
    let mut writer = FailingWriter::new(Vec::new(alloc), left);
    let is_told = match write_json(alloc, PrintedText::Run, text, &mut writer) {
        Ok(()) => !is_short,
        Err(fault) => is_short && fault == JsonFault::Write,
    };
    is_told && writer.taken.as_slice() == &json[..left.min(json.len())]
}

// Lets each write fail after N bytes, for each N; then only the flush, and then nothing. Returns the first N after
// which the failure is not reported, or what went out is not a prefix of the JSON.
fn untold_write(alloc: Global, text: &[u8], json: &[u8]) -> Option<usize> {
    for left in 0..json.len().saturating_add(2) {
        if !is_told(alloc, text, json, left) {
            return Some(left);
        }
    }
    None
}

/// Returns a text of `play` or `run` as JSON Lines, with U+FFFD for each byte that is not UTF-8, and whether each write
/// that fails is reported.
pub fn json_failing_said(alloc: Global, text: &[u8]) -> Result<Vec<u8>> {
    let json = json_said(alloc, PrintedText::Run, text)?;
    let untold = untold_write(alloc, text, json.as_slice());
    let mut said = String::from_utf8_lossy(alloc, json.as_slice())?;
    said.push_str(failing_line(alloc, "write", untold)?.as_str())?;
    Ok(said.into_bytes())
}
