//! The answer to a request, in the format of its output.
ghost use Rattle.std.specs.Prelude.{IfOk, map};
ghost use Rattle.gt_script.specs.Contents.{contents_of};
ghost use Rattle.gt_script.specs.RunContents.{run_contents};
ghost use Rattle.gt_script.specs.RunScripts.{CanConfigure};
ghost use Rattle.gt_explore_verdict.specs.Formulas.{operation_asked};
ghost use Rattle.gt_explore_answers.specs.Answering.{ShownAs};
ghost use Rattle.gt_explore_answers.specs.Exploring.{AreTextsOf};
ghost use Rattle.gt_explore_answers.specs.Outputs.{found_from};

use crate::answering::{ExploreOutput, answer_in_text};
use crate::asking::{ExploreFormat, ExploreOptions};
use crate::found::FoundTexts;
use crate::json::ObjectWriter;
use gt_explore_faults::TextsFault;
use gt_explore_verdict::Operation;
use gt_script::RunScript;
use std::alloc::Global;

/// Answers a request about a script by the texts that were found, in the format of its output. A claim is one on these
/// conditions.
///
/// # Errors
/// `Astray` if no text has the number that the request names ([`has_its_text`](crate::has_its_text)), or an order or a
/// witness does not give its text; and `Memory`.
pub fn answer_request(
    alloc: Global,
    asked: &ExploreOptions,
    source: &[u8],
    script: &RunScript,
    found: &FoundTexts,
    conditions: &[Operation<'_>],
) -> Result<ExploreOutput, TextsFault>
    requires fits { CanConfigure (contents_of script.now.head) }
    requires texts { AreTextsOf (run_contents script.now) (found_from found.now) }
    ensures { IfOk result (λ made. ShownAs (run_contents script.now) asked.now.format asked.now.states asked.now.request
        (map operation_asked conditions.now) (found_from found.now) made.text.items made.verdict) }
{
    match asked.format {
        ExploreFormat::Text => answer_in_text(
            alloc,
            asked.request,
            source,
            script,
            found,
            conditions,
        ),
        ExploreFormat::Json => {
            let writer = ObjectWriter {
                alloc,
                source,
                script,
                found,
            };
            writer.answer(asked.request, asked.states, conditions)
        }
    }
}
