//! The answers of calls.
ghost use Rattle.std.specs.Prelude.{◌≡◌, ◌++◌, OnOk};
ghost use Rattle.std.specs.Option.{option_map};
ghost use Rattle.gt_explore_trace.specs.Lines.{answer_member, answer_of_move, answer_part};

use gt_core::Answer;
use gt_explore_replay::Moved;
use gt_json::push_quoted;
use gt_script_lines::Text;
use gt_script_runs::push_answer;
use gt_text::push_text;
use std::alloc::{AllocError, Global};

/// Returns the answer of the call that ended by a move, if one did.
pub fn answer_of(moved: &Moved) -> Option<&Answer>
    ensures { option_map (λ a. a.now) result ≡ answer_of_move moved.now }
{
    match moved {
        Moved::Raised | Moved::Passed => None,
        Moved::Began(answer) => answer.as_ref(),
        Moved::Stepped(_, _, answer) => answer.as_ref(),
    }
}

/// Appends the answer of a call, if it has ended.
pub fn push_answer_part(
    alloc: Global,
    out: &mut Vec<u8>,
    names: &[Text],
    answer: Option<&Answer>,
) -> Result<(), AllocError>
    ensures { OnOk result (out.new.items
        ≡ out.old.items ++ answer_part names.now (option_map (λ a. a.now) answer.entry)) }
{
    match answer {
        Some(answer) => {
            push_text(out, " : ")?;
            push_answer(alloc, out, names, answer)
        }
        None => Ok(()),
    }
}

/// Appends the answer of a call as a member of a JSON object, if the call has ended.
pub fn push_answer_member(
    alloc: Global,
    out: &mut Vec<u8>,
    names: &[Text],
    answer: Option<&Answer>,
) -> Result<(), AllocError>
    ensures { OnOk result (out.new.items
        ≡ out.old.items ++ answer_member names.now (option_map (λ a. a.now) answer.entry)) }
{
    match answer {
        Some(answer) => {
            let mut words = Vec::new(alloc);
            push_answer(alloc, &mut words, names, answer)?;
            push_text(out, ",\"answer\":")?;
            push_quoted(out, words.as_slice())
        }
        None => Ok(()),
    }
}
