//! Answers about flows: their form, their fault, and the reader and the writer.
ghost use Rattle.std.specs.Prelude.{◌≡◌};
ghost use Rattle.gt_file_commands.specs.Flows.{flow_format};

pub(crate) mod answering;

use gt_command_line::Format;
use gt_policy_questions::FlowFormat;

/// Returns the form of an answer for the format of a command line.
pub fn flow_format(format: Format) -> FlowFormat
    ensures { result ≡ flow_format format }
{
    match format {
        Format::Text => FlowFormat::Text,
        Format::Json => FlowFormat::Json,
    }
}
