//! The lines that show the moves of an order.
ghost use Rattle.std.specs.Prelude.{◌≡◌, ◌++◌, OnOk};
ghost use Rattle.std.specs.Option.{option_map};
ghost use Rattle.gt_script.specs.RunContents.{run_contents};
ghost use Rattle.gt_explore_trace.specs.Lines.{line_value, line_word, move_words, step_members, step_words};
ghost use Rattle.gt_explore_trace.specs.Lines.{trace_output};

use crate::answers::{answer_of, push_answer_member, push_answer_part};
use crate::diagram::{push_arrow, push_note};
use crate::facts::{TraceForm, push_move_part, push_value_part};
use crate::moves::TracedMove;
use crate::names::begun_name;
use crate::places::task_of;
use crate::steps::{push_seen, push_step};
use gt_core::Answer;
use gt_explore_replay::Moved;
use gt_script::{RunScript, RunTask};
use gt_script_lines::Text;
use gt_script_runs::push_answer;
use gt_text::{push_number, push_text};
use gt_types::DomId;
use std::alloc::{AllocError, Global};

// Appends the number of a line of the script, or `-` if there is none.
fn push_line_word(out: &mut Vec<u8>, task: Option<&RunTask>) -> Result<(), AllocError>
    ensures { OnOk result (out.new.items ≡ out.old.items ++ line_word (option_map (λ u. u.now) task.entry)) }
{
    match task {
        Some(task) => push_number(out, task.line),
        None => push_text(out, "-"),
    }
}

// Appends the number of a line of the script as a value of JSON, or `null` if there is none.
fn push_line_value(out: &mut Vec<u8>, task: Option<&RunTask>) -> Result<(), AllocError>
    ensures { OnOk result (out.new.items ≡ out.old.items ++ line_value (option_map (λ u. u.now) task.entry)) }
{
    match task {
        Some(task) => push_number(out, task.line),
        None => push_text(out, "null"),
    }
}

// Appends the words of a move of a domain.
fn push_move_words(
    alloc: Global,
    out: &mut Vec<u8>,
    form: TraceForm,
    task: Option<&RunTask>,
    traced: &TracedMove,
) -> Result<(), AllocError>
    ensures { OnOk result (out.new.items ≡ out.old.items
        ++ move_words form traced.now.dom (option_map (λ u. u.now) task.entry) traced.now.moved) }
{
    match &traced.moved {
        Moved::Raised => push_move_part(out, form, "tell"),
        Moved::Passed => push_move_part(out, form, "await"),
        Moved::Began(_) => {
            push_move_part(out, form, "begin")?;
            push_value_part(out, form, "call", begun_name(task))
        }
        Moved::Stepped(step, seen, _) => {
            push_step(alloc, out, form, traced.dom, *step)?;
            push_seen(alloc, out, form, *seen)
        }
    }
}

// Appends a move of this number, and its line of the script.
#[tactic(auto, unfolding(crate::specs::Lines::step_words))]
fn push_step_words(
    alloc: Global,
    out: &mut Vec<u8>,
    form: TraceForm,
    number: usize,
    task: Option<&RunTask>,
    traced: &TracedMove,
) -> Result<(), AllocError>
    ensures { OnOk result (out.new.items ≡ out.old.items
        ++ step_words form number (option_map (λ u. u.now) task.entry) traced.now) }
{
    push_number(out, number)?;
    push_text(out, " ")?;
    push_number(out, traced.dom.0)?;
    push_text(out, " ")?;
    push_line_word(out, task)?;
    push_text(out, " ")?;
    push_move_words(alloc, out, form, task, traced)
}

// Appends a move of this number, and its line of the script, as members of a JSON object that stays open.
#[tactic(auto, unfolding(crate::specs::Lines::step_members))]
fn push_step_members(
    alloc: Global,
    out: &mut Vec<u8>,
    number: usize,
    task: Option<&RunTask>,
    traced: &TracedMove,
) -> Result<(), AllocError>
    ensures { OnOk result (out.new.items ≡ out.old.items
        ++ step_members number (option_map (λ u. u.now) task.entry) traced.now) }
{
    push_text(out, "{\"step\":")?;
    push_number(out, number)?;
    push_text(out, ",\"domain\":")?;
    push_number(out, traced.dom.0)?;
    push_text(out, ",\"line\":")?;
    push_line_value(out, task)?;
    push_move_words(alloc, out, TraceForm::Json, task, traced)
}

// The form of the lines, and what they need: an allocator, and the names of the types.
#[derive(Drop)]
struct LinePrinter<'a> {
    alloc: Global,
    form: TraceForm,
    names: Vec<Text<'a>>,
}

impl LinePrinter<'_> {
    ghost use Rattle.std.specs.Prelude.{◌≡◌, ◌++◌, OnOk};
    ghost use Rattle.std.specs.Option.{option_map};
    ghost use Rattle.gt_explore_trace.specs.Lines.{answer_note, diagram_line, json_line, move_line, text_line};

    // Appends the note of an answer in a sequence diagram.
    #[tactic(auto, unfolding(crate::specs::Lines::answer_note))]
    fn push_answer_note(
        &self,
        out: &mut Vec<u8>,
        dom: DomId,
        task: Option<&RunTask>,
        answer: Option<&Answer>,
    ) -> Result<(), AllocError>
        ensures { OnOk result (out.new.items ≡ out.old.items ++ answer_note self.now.names.items dom
            (option_map (λ u. u.now) task.entry) (option_map (λ a. a.now) answer.entry)) }
    {
        let Some(answer) = answer else {
            return Ok(());
        };
        push_note(out, dom)?;
        push_line_word(out, task)?;
        push_text(out, " ")?;
        push_answer(self.alloc, out, self.names.as_slice(), answer)?;
        push_text(out, "\n")
    }

    // Appends a line of text.
    fn push_text_line(
        &self,
        out: &mut Vec<u8>,
        number: usize,
        task: Option<&RunTask>,
        traced: &TracedMove,
    ) -> Result<(), AllocError>
        ensures { OnOk result (out.new.items ≡ out.old.items ++ text_line self.now.names.items number
            (option_map (λ u. u.now) task.entry) traced.now) }
    {
        push_step_words(self.alloc, out, TraceForm::Text, number, task, traced)?;
        let answer = answer_of(&traced.moved);
        push_answer_part(self.alloc, out, self.names.as_slice(), answer)?;
        push_text(out, "\n")
    }

    // Appends a JSON object.
    fn push_json_line(
        &self,
        out: &mut Vec<u8>,
        number: usize,
        task: Option<&RunTask>,
        traced: &TracedMove,
    ) -> Result<(), AllocError>
        ensures { OnOk result (out.new.items ≡ out.old.items ++ json_line self.now.names.items number
            (option_map (λ u. u.now) task.entry) traced.now) }
    {
        push_step_members(self.alloc, out, number, task, traced)?;
        let answer = answer_of(&traced.moved);
        push_answer_member(self.alloc, out, self.names.as_slice(), answer)?;
        push_text(out, "}\n")
    }

    // Appends a message or a note of a sequence diagram, and the note of the answer.
    fn push_diagram_line(
        &self,
        out: &mut Vec<u8>,
        number: usize,
        task: Option<&RunTask>,
        traced: &TracedMove,
    ) -> Result<(), AllocError>
        ensures { OnOk result (out.new.items ≡ out.old.items ++ diagram_line self.now.names.items number
            (option_map (λ u. u.now) task.entry) traced.now) }
    {
        push_arrow(out, traced.dom, &traced.moved)?;
        push_step_words(self.alloc, out, TraceForm::Mermaid, number, task, traced)?;
        push_text(out, "\n")?;
        self.push_answer_note(out, traced.dom, task, answer_of(&traced.moved))
    }

    // Appends the line of the move of this number.
    fn push_line(
        &self,
        out: &mut Vec<u8>,
        number: usize,
        task: Option<&RunTask>,
        traced: &TracedMove,
    ) -> Result<(), AllocError>
        ensures { OnOk result (out.new.items ≡ out.old.items ++ move_line self.now.form self.now.names.items number
            (option_map (λ u. u.now) task.entry) traced.now) }
    {
        match self.form {
            TraceForm::Text => self.push_text_line(out, number, task, traced),
            TraceForm::Json => self.push_json_line(out, number, task, traced),
            TraceForm::Mermaid => self.push_diagram_line(out, number, task, traced),
        }
    }
}

/// Appends a line for each move of an order of the script. In a sequence diagram each answer has a line too.
///
/// # Errors
/// An allocation failed. Part of the lines may have been appended.
pub fn push_trace(
    alloc: Global,
    out: &mut Vec<u8>,
    script: &RunScript,
    form: TraceForm,
    moves: &[TracedMove],
) -> Result<(), AllocError>
    ensures { OnOk result (out.new.items ≡ out.old.items ++ trace_output (run_contents script.now) form moves.now) }
{
    let names = script.head().type_names(alloc)?;
    let printer = LinePrinter { alloc, form, names };
    let mut number = 0;
    'moves: for traced in moves {
        let task = task_of(alloc, script, &moves[..number], traced)?;
        number += 1;
        printer.push_line(out, number, task, traced)?;
    }
    Ok(())
}
