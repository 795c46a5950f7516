//! The lines of answers.
ghost use Rattle.std.specs.Prelude.{◌≡◌, ◌++◌, OnOk};
ghost use Rattle.gt_script_runs.specs.Printing.{bytes_text, answer_text, call_text, answer_line, busy_line, idle_line};
ghost use Rattle.gt_script_runs.specs.Printing.{open_line};

use gt_core::Answer;
use gt_script_lines::Text;
use gt_text::{push_denial, push_frames, push_number, push_size, push_text, push_version};
use gt_types::DomId;
use std::alloc::{AllocError, Global};

fn push_bytes(alloc: Global, out: &mut Vec<u8>, bytes: &[u8]) -> Result<(), AllocError>
    ensures { OnOk result (out.new.items ≡ out.old.items ++ bytes_text bytes.now) }
{
    if bytes.is_empty() {
        return Ok(());
    }
    push_text(out, " ")?;
    let digits = hex::encode(alloc, bytes)?;
    push_text(out, digits.as_str())
}

/// Appends an answer without its line: `ok`, the value that it has, or the rule, the status and the facts of a refusal.
/// `names` has the names of the types by their numbers. After an Err, part of it may have been appended.
pub fn push_answer(
    alloc: Global,
    out: &mut Vec<u8>,
    names: &[Text],
    answer: &Answer,
) -> Result<(), AllocError>
    ensures { OnOk result (out.new.items ≡ out.old.items ++ answer_text names.now answer.now) }
{
    match answer {
        Answer::Done | Answer::Mapped(_) => push_text(out, "ok"),
        Answer::Bytes(answered) => {
            push_text(out, "ok")?;
            push_bytes(alloc, out, answered.bytes.as_slice())
        }
        Answer::Frames(frames) => push_frames(out, *frames),
        Answer::Size(size) => push_size(out, *size),
        Answer::Version(version) => push_version(out, *version),
        Answer::Denied(denial) => push_denial(out, names, *denial),
    }
}

fn push_call(out: &mut Vec<u8>, line: usize, dom: DomId) -> Result<(), AllocError>
    ensures { OnOk result (out.new.items ≡ out.old.items ++ call_text line dom) }
{
    push_number(out, line)?;
    push_text(out, " ")?;
    push_number(out, dom.0)?;
    push_text(out, " ")
}

/// Appends the line of an answer to the call that this domain made on this line of the script. `names` has the names of
/// the types by their numbers. After an Err, part of the line may have been appended.
pub fn push_answer_line(
    alloc: Global,
    out: &mut Vec<u8>,
    names: &[Text],
    line: usize,
    dom: DomId,
    answer: &Answer,
) -> Result<(), AllocError>
    ensures { OnOk result (out.new.items ≡ out.old.items ++ answer_line names.now line dom answer.now) }
{
    push_call(out, line, dom)?;
    push_answer(alloc, out, names, answer)?;
    push_text(out, "\n")
}

/// Appends the line of a call that its domain can't begin, because it has another call open.
pub fn push_busy_line(out: &mut Vec<u8>, line: usize, dom: DomId) -> Result<(), AllocError>
    ensures { OnOk result (out.new.items ≡ out.old.items ++ busy_line line dom) }
{
    push_call(out, line, dom)?;
    push_text(out, "busy\n")
}

/// Appends the line of a tick of a domain without an open call.
pub fn push_idle_line(out: &mut Vec<u8>, line: usize, dom: DomId) -> Result<(), AllocError>
    ensures { OnOk result (out.new.items ≡ out.old.items ++ idle_line line dom) }
{
    push_call(out, line, dom)?;
    push_text(out, "idle\n")
}

/// Appends the line of a call that has no answer at the end of the script.
pub fn push_open_line(out: &mut Vec<u8>, line: usize, dom: DomId) -> Result<(), AllocError>
    ensures { OnOk result (out.new.items ≡ out.old.items ++ open_line line dom) }
{
    push_call(out, line, dom)?;
    push_text(out, "open\n")
}
