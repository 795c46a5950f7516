//! One domain's list, from its first line to its last.
ghost use Rattle.std.specs.Prelude.{◌≡◌, ◌++◌, [], false, IfOk, IsOk, IsTrue, MatchBool};
ghost use Rattle.gt_word_history.specs.declared.view.FlagStep.TheVariants.{Passed};
ghost use Rattle.gt_model.specs.Entries.{IsEntry};
ghost use Rattle.gt_run.specs.Asking.{IsSameStand, MakesFlagStep};
ghost use Rattle.gt_run.specs.Printing.{IsOutputOf};
ghost use Rattle.gt_run.specs.Serving.{gate_line, ServesCall, FitsEntry, IsReady, MakesScriptCall, Serves};
ghost use Rattle.gt_run.specs.Serving.{StartsLogged};

use crate::gate::Gate;
use crate::lists::ThreadJob;
use crate::logging::{TrailLogger, log_next, logger_for};
use crate::running::RunningDomain;
use gt_core::Answer;
use gt_entry::Entry;
use gt_live::Departed;
use gt_script::RunAction;
use gt_script_lines::ScriptCall;
use gt_script_runs::{Labels, call_bytes, label_given, name_mapping, push_answer_line, request_of};
use gt_text::{push_number, push_text};
use gt_types::{Allows, DomId, Memory};
use std::alloc::{AllocError, Global};
use std::sync::{OnceLock, Wait};

/// The output of a domain's list.
#[derive(Drop)]
pub struct Output {
    /// The lines of its answers, or a prefix of them.
    pub text: Vec<u8>,
    /// Whether the text has all lines. It does not if an allocation failed, or if no list ran.
    pub whole: bool,
    /// Its audit lines. There are none if no log was given.
    pub audit: Result<Vec<u8>, Memory>,
    /// The number of its records that were lost. It is 0 if no log was given.
    pub lost: u64,
    /// What the domain left behind when it was finished.
    pub left: Departed,
}

// A law: each number of an entry fits its type.
fn entry_fits(entry: Entry)
    ensures { IsEntry entry }
{}

// A law: the numbers of the entry that a line grants fit their types.
fn granted_fits(call: &ScriptCall<'_>)
    ensures { FitsEntry call.now }
{
    match call {
        ScriptCall::Grant { entry, .. } => entry_fits(*entry),
        _ => {}
    }
}

// Makes the call of a line. A map that is answered Ok gives its handle to its label.
fn make_call<'a, R: Wait, P: Allows>(
    rt: &R,
    domain: &mut RunningDomain<'_, P>,
    labels: &mut Labels<'a>,
    job: &ThreadJob<'_, 'a, P>,
    call: &ScriptCall<'a>,
) -> Result<Answer, AllocError>
    requires { domain.old.monitor ≡ job.now.monitor.now }
    ensures same { IsSameStand domain.old domain.new }
    ensures made { IfOk result
        (MakesScriptCall P.may job.now call.now domain.old.domain domain.new.domain labels.old labels.new) }
{
    granted_fits(call);
    let bytes = call_bytes(job.alloc, call)?;
    let dom = job.part.dom;
    let answer = domain.ask(rt, request_of(labels, dom, bytes.as_slice(), call));
    name_mapping(labels, dom, label_given(call), &answer)?;
    Ok(answer)
}

// A line of the script that has a call.
#[derive(Clone, Copy)]
struct CallLine<'b, 'a> {
    line: usize,
    call: &'b ScriptCall<'a>,
}

// Makes the call of a line, pushes its record, and returns the line that it prints.
fn call_line<'a, R: Wait, P: Allows>(
    rt: &R,
    domain: &mut RunningDomain<'_, P>,
    labels: &mut Labels<'a>,
    logger: &mut Option<TrailLogger<'_>>,
    job: &ThreadJob<'_, 'a, P>,
    at: CallLine<'_, 'a>,
) -> Result<Vec<u8>, AllocError>
    requires { domain.old.monitor ≡ job.now.monitor.now }
    ensures same { IsSameStand domain.old domain.new }
    ensures calls { IfOk result (λ text. ServesCall P.may job.now at.entry.line at.entry.call.now
        domain.old.domain domain.new.domain labels.old labels.new logger.old logger.new text.items) }
{
    let answer = make_call(rt, domain, labels, job, at.call);
    log_next(rt, logger, domain.trail());
    let mut text = Vec::new(job.alloc);
    push_answer_line(
        job.alloc,
        &mut text,
        job.part.types,
        at.line,
        job.part.dom,
        &answer?,
    )?;
    Ok(text)
}

// Returns the line of a gate that answered false.
fn gate_line(alloc: Global, line: usize, dom: DomId) -> Result<Vec<u8>, AllocError>
    ensures { IfOk result (λ text. text.items ≡ gate_line line dom) }
{
    let mut text = Vec::new(alloc);
    push_number(&mut text, line)?;
    push_text(&mut text, " ")?;
    push_number(&mut text, dom.0)?;
    push_text(&mut text, " ")?;
    push_text(&mut text, "gate\n")?;
    Ok(text)
}

// Appends a line if it and all lines before it could be allocated. Returns whether they could.
fn has_appended(text: &mut Vec<u8>, whole: bool, line: Result<Vec<u8>, AllocError>) -> bool
    ensures appended { IsTrue result → IsTrue whole × IsOk line
        × IfOk line (λ l. text.new.items ≡ text.old.items ++ l.items) }
    ensures kept { (result ≡ false) → text.new.items ≡ text.old.items }
{
    match line {
        Ok(line) if whole => text.extend_from_slice(line.as_slice()).is_ok(),
        _ => false,
    }
}

// Waits at the gate until the flag is raised, and passes it. Returns false, and makes no step, if the gate refuses the
// domain at this flag.
fn has_passed<R: Wait, P: Allows, G: Gate>(
    rt: &R,
    domain: &mut RunningDomain<'_, P>,
    gate: &G,
    flag: usize,
) -> bool
    ensures same { IsSameStand domain.old domain.new }
    ensures passed { MatchBool result
        (MakesFlagStep P.may domain.old.monitor flag Passed domain.old.domain domain.new.domain)
        ((domain.new.domain ≡ domain.old.domain) × IsTrue (G.refuses gate.now flag)) }
{
    'looks: for _look in rt.forever() {
        if !gate.pass(flag) {
            return false;
        }
        if domain.pass_flag(flag) {
            return true;
        }
    }
    unreachable!()
}

// Serves the lines of a domain, and returns whether all were written. It continues if a line cannot be allocated, since
// other domains may wait for a flag of this one. Nothing is written after that line.
fn serve<'a, R: Wait, P: Allows, G: Gate>(
    rt: &R,
    domain: &mut RunningDomain<'_, P>,
    job: ThreadJob<'_, 'a, P>,
    logger: &mut Option<TrailLogger<'_>>,
    gate: &G,
    text: &mut Vec<u8>,
) -> bool
    requires monitor { domain.old.monitor ≡ job.monitor.now }
    requires recorded { StartsLogged job domain.old.domain logger.old }
    requires text { text.old.items ≡ [] }
    ensures same { IsSameStand domain.old domain.new }
    ensures served { Serves P.may (G.refuses gate.now) job.entry
        domain.old.domain result text.new.items domain.new.domain logger.new }
{
    let alloc = job.alloc;
    let mut labels = Labels::new(alloc);
    let mut whole = true;
    let dom = job.part.dom;
    'tasks: for task in job.part.tasks {
        if task.dom.0 == dom.0 {
            match &task.run_action {
                RunAction::Do(call) => {
                    let line = task.line;
                    let at = CallLine { line, call };
                    let printed = call_line(rt, domain, &mut labels, logger, &job, at);
                    whole = has_appended(text, whole, printed);
                }
                RunAction::Tell(flag) => {
                    domain.raise_flag(*flag);
                    gate.tell(*flag);
                }
                RunAction::Await(flag) => {
                    if !has_passed(rt, domain, gate, *flag) {
                        return has_appended(text, whole, gate_line(alloc, task.line, dom));
                    }
                }
            }
        }
    }
    whole
}

/// Serves a domain's list once the start is given, and finishes the domain. If the start is called off, it serves no
/// line.
pub fn work<'a, R: Wait, P: Allows, G: Gate>(
    rt: &R,
    domain: RunningDomain<'_, P>,
    job: ThreadJob<'_, 'a, P>,
    gate: &G,
    start: &OnceLock<bool>,
) -> Output
    requires { IsReady P.may job.monitor.now job.part.dom domain }
    ensures { IsOutputOf P.may (G.refuses gate.now) job.entry result }
{
    let mut domain = domain;
    let (alloc, types) = (job.alloc, job.part.types);
    let mut text = Vec::new(alloc);
    if !*start.wait(rt) {
        return Output {
            text,
            whole: false,
            audit: Ok(Vec::new(alloc)),
            lost: 0,
            left: domain.finish(),
        };
    }
    let mut logger = logger_for(alloc, job.log, job.part.dom);
    let whole = serve(rt, &mut domain, job, &mut logger, gate, &mut text);
    let left = domain.finish();
    let (audit, lost) = match logger {
        Some(logger) => (logger.audit(alloc, types), logger.lost(&left)),
        None => (Ok(Vec::new(alloc)), 0),
    };
    Output {
        text,
        whole,
        audit,
        lost,
        left,
    }
}
