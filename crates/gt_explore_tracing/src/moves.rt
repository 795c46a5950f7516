//! The moves that lead to a text.
ghost use Rattle.std.specs.Prelude.{◌≡◌, ◌++◌, IfOk, OnOk};
ghost use Rattle.gt_script.specs.RunContents.{run_contents};
ghost use Rattle.gt_explore_answers.specs.Outputs.{found_from};
ghost use Rattle.gt_explore_tracing.specs.MoveBlocks.{LeadToNumbered};
ghost use Rattle.gt_explore_tracing.specs.Tracing.{ShowsMoves, blocks_line, blocks_object, diagram_end, diagram_moves};
ghost use Rattle.gt_explore_tracing.specs.Tracing.{diagram_shown, fewest_member, fewest_words, moves_shown, objects_shown};
ghost use Rattle.gt_explore_tracing.specs.Tracing.{title_text, trace_end, trace_shown};

use crate::fewest::{FewestMoves, blocks_of};
use gt_explore_answers::{FoundTexts, push_heading_line, push_states_line, push_text_object};
use gt_explore_faults::TextsFault;
use gt_explore_trace::{TraceForm, TracedMove, push_participants, push_trace};
use gt_script::RunScript;
use gt_text::{push_number, push_text};
use std::alloc::{AllocError, Global};

// A text of a script, with its number among those that were found.
#[derive(Clone, Copy)]
struct ShownText<'s, 'a> {
    script: &'s RunScript<'a>,
    found: &'s FoundTexts,
    number: usize,
}

// Returns the words after the number of blocks.
fn fewest_words(is_fewest: bool) -> &'static str
    ensures { result.now ≡ fewest_words is_fewest }
{
    if is_fewest {
        ", the fewest\n"
    } else {
        ", perhaps not the fewest; raise --states\n"
    }
}

// Appends the number of blocks of these moves.
#[tactic(auto, unfolding(crate::specs::Tracing::blocks_line))]
fn push_blocks_line(out: &mut Vec<u8>, made: &FewestMoves) -> Result<(), AllocError>
    ensures { OnOk result (out.new.items ≡ out.old.items ++ blocks_line made.now.moves.items made.now.is_fewest) }
{
    push_text(out, "blocks ")?;
    push_number(out, blocks_of(made.moves.as_slice()))?;
    push_text(out, fewest_words(made.is_fewest))
}

// Appends the last lines.
fn push_trace_end(
    out: &mut Vec<u8>,
    found: &FoundTexts,
    made: &FewestMoves,
) -> Result<(), AllocError>
    ensures { OnOk result (out.new.items ≡ out.old.items
        ++ trace_end (found_from found.now) made.now.moves.items made.now.is_fewest) }
{
    push_blocks_line(out, made)?;
    push_states_line(out, found)
}

// Appends a line for each move.
fn push_trace_shown(
    alloc: Global,
    out: &mut Vec<u8>,
    shown: ShownText,
    made: &FewestMoves,
) -> Result<(), AllocError>
    ensures { OnOk result (out.new.items ≡ out.old.items ++ trace_shown (run_contents shown.entry.script.now)
        (found_from shown.entry.found.now) shown.entry.number made.now.moves.items made.now.is_fewest) }
{
    push_heading_line(out, shown.found, shown.number)?;
    push_trace(
        alloc,
        out,
        shown.script,
        TraceForm::Text,
        made.moves.as_slice(),
    )?;
    push_trace_end(out, shown.found, made)
}

// Appends the title of a sequence diagram.
fn push_title(out: &mut Vec<u8>, found: &FoundTexts, number: usize) -> Result<(), AllocError>
    ensures { OnOk result (out.new.items ≡ out.old.items ++ title_text (found_from found.now) number) }
{
    push_text(out, "sequenceDiagram\n    title ")?;
    push_heading_line(out, found, number)
}

// Appends the last lines of a sequence diagram.
#[tactic(auto, unfolding(crate::specs::Tracing::diagram_end))]
fn push_diagram_end(
    out: &mut Vec<u8>,
    found: &FoundTexts,
    made: &FewestMoves,
) -> Result<(), AllocError>
    ensures { OnOk result (out.new.items ≡ out.old.items
        ++ diagram_end (found_from found.now) made.now.moves.items made.now.is_fewest) }
{
    push_text(out, "    %% ")?;
    push_blocks_line(out, made)?;
    push_text(out, "    %% ")?;
    push_states_line(out, found)
}

// Appends a sequence diagram of the moves, without its last lines.
fn push_diagram_moves(
    alloc: Global,
    out: &mut Vec<u8>,
    shown: ShownText,
    moves: &[TracedMove],
) -> Result<(), AllocError>
    ensures { OnOk result (out.new.items ≡ out.old.items ++ diagram_moves (run_contents shown.entry.script.now)
        (found_from shown.entry.found.now) shown.entry.number moves.now) }
{
    push_title(out, shown.found, shown.number)?;
    push_participants(out, shown.script.head().domains(), moves)?;
    push_trace(alloc, out, shown.script, TraceForm::Mermaid, moves)
}

// Appends a sequence diagram of the moves.
fn push_diagram_shown(
    alloc: Global,
    out: &mut Vec<u8>,
    shown: ShownText,
    made: &FewestMoves,
) -> Result<(), AllocError>
    ensures { OnOk result (out.new.items ≡ out.old.items ++ diagram_shown (run_contents shown.entry.script.now)
        (found_from shown.entry.found.now) shown.entry.number made.now.moves.items made.now.is_fewest) }
{
    push_diagram_moves(alloc, out, shown, made.moves.as_slice())?;
    push_diagram_end(out, shown.found, made)
}

// Returns the last member of the object of blocks.
fn fewest_member(is_fewest: bool) -> &'static str
    ensures { result.now ≡ fewest_member is_fewest }
{
    if is_fewest {
        ",\"fewest\":true}\n"
    } else {
        ",\"fewest\":false}\n"
    }
}

// Appends the number of blocks of these moves as an object.
#[tactic(auto, unfolding(crate::specs::Tracing::blocks_object))]
fn push_blocks_object(out: &mut Vec<u8>, made: &FewestMoves) -> Result<(), AllocError>
    ensures { OnOk result (out.new.items ≡ out.old.items ++ blocks_object made.now.moves.items made.now.is_fewest) }
{
    push_text(out, "{\"blocks\":")?;
    push_number(out, blocks_of(made.moves.as_slice()))?;
    push_text(out, fewest_member(made.is_fewest))
}

// Appends the object of a text, one for each of the moves that lead to it, and that of their blocks.
fn push_objects_shown(
    alloc: Global,
    out: &mut Vec<u8>,
    shown: ShownText,
    made: &FewestMoves,
) -> Result<(), AllocError>
    ensures { OnOk result (out.new.items ≡ out.old.items
        ++ objects_shown (run_contents shown.entry.script.now) (found_from shown.entry.found.now) shown.entry.number
        made.now.text.items made.now.moves.items made.now.is_fewest) }
{
    push_text_object(alloc, out, shown.found, shown.number, made.text.as_slice())?;
    push_trace(
        alloc,
        out,
        shown.script,
        TraceForm::Json,
        made.moves.as_slice(),
    )?;
    push_blocks_object(out, made)
}

// Appends the moves that lead to a text, in this form.
fn push_moves(
    alloc: Global,
    out: &mut Vec<u8>,
    form: TraceForm,
    shown: ShownText,
    made: &FewestMoves,
) -> Result<(), AllocError>
    ensures { OnOk result (out.new.items ≡ out.old.items
        ++ moves_shown (run_contents shown.entry.script.now) (found_from shown.entry.found.now) shown.entry.number form
        made.now.text.items made.now.moves.items made.now.is_fewest) }
{
    match form {
        TraceForm::Text => push_trace_shown(alloc, out, shown, made),
        TraceForm::Mermaid => push_diagram_shown(alloc, out, shown, made),
        TraceForm::Json => push_objects_shown(alloc, out, shown, made),
    }
}

/// Returns these moves, which lead to the text of this number among those that were found: a line each, as a sequence
/// diagram of mermaid, or the object of the text and one for each move. The number of their blocks comes after them.
///
/// # Errors
/// `Memory` if an allocation fails.
pub fn moves_shown(
    alloc: Global,
    form: TraceForm,
    script: &RunScript,
    found: &FoundTexts,
    number: usize,
    made: &FewestMoves,
) -> Result<Vec<u8>, TextsFault>
    requires { LeadToNumbered (run_contents script.now) (found_from found.now) number made.now }
    ensures { IfOk result (λ text. ShowsMoves (run_contents script.now) (found_from found.now) number form text.items) }
{
    let shown = ShownText {
        script,
        found,
        number,
    };
    let mut out = Vec::new(alloc);
    push_moves(alloc, &mut out, form, shown, made)?;
    Ok(out)
}
