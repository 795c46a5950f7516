//! The forms of an answer, text and JSON Lines, and the text that grows to it.
ghost use Rattle.std.specs.Prelude.{◌≡◌, ◌++◌, OnOk};
ghost use Rattle.gt_policy_questions.specs.Format.{name_text};

use gt_json::push_quoted;
use gt_text::push_text;
use std::alloc::AllocError;

/// The form of an answer: text, or JSON Lines, which have an object on each line.
#[derive(Clone, Copy)]
pub enum FlowFormat {
    Text,
    Json,
}

/// A text that grows. After a failed allocation it is not whole, and what it has counts for nothing.
#[derive(Drop)]
pub(crate) struct FlowText {
    pub bytes: Vec<u8>,
    pub is_whole: bool,
}

/// Appends a name: as JSON it is a string.
pub(crate) fn push_name(out: &mut Vec<u8>, format: FlowFormat, name: &str) -> Result<(), AllocError>
    ensures { OnOk result (out.new.items ≡ out.old.items ++ name_text format name.now) }
{
    match format {
        FlowFormat::Text => push_text(out, name),
        FlowFormat::Json => push_quoted(out, name.as_bytes()),
    }
}
