//! One script on the core and on the monitor.
use crate::asking::{Asked, Both, Shows};
use crate::scarce::Scarce;
use crate::stops::Stop;
use crate::texts::text_difference;
use gt_core::{Answer, Core, Request};
use gt_script::{Script, ScriptAction, ScriptCall, ScriptStep, Text, parse};
use gt_script_runs::{Labels, ScriptPolicy, call_bytes, label_given, push_answer_line, request_of};
use gt_types::{Config, DomId};
use std::alloc::{AllocError, Global};
use std::sync::Wait;
use test_monitor::{Calls, all_running, start_run};

/// The result of a script: its calls, how many were Ok, in which of them allocations failed, and the first difference,
/// if there is one.
#[derive(Drop)]
pub struct Compared {
    pub calls: usize,
    pub done: usize,
    pub refused: String,
    pub difference: Option<String>,
}

// The result of the call of a line.
#[derive(Clone, Copy)]
enum Came {
    Done,
    Denied,
    Otherwise,
    Differs(Shows),
}

// The course of a script: the handles that labels name, the lines of all answers, the number of calls and of those that
// were Ok, and the first difference, if there is one.
#[derive(Drop)]
struct Told<'a> {
    labels: Labels<'a>,
    lines: Vec<u8>,
    calls: usize,
    done: usize,
    difference: Option<String>,
}

// Returns the configuration and the rights in the script.
fn settings(alloc: Global, script: &Script<'_>) -> Result<(Config, ScriptPolicy), Stop> {
    let head = script.head();
    let config = Config {
        domains: Vec::from_slice(alloc, head.domains())?,
        first_gen: head.first_gen(),
    };
    match ScriptPolicy::of(alloc, head) {
        Ok(rights) => Ok((config, rights)),
        Err(_) => Err(Stop::Memory),
    }
}

// Makes a core with the script's configuration.
fn core_of(alloc: Global, script: &Script<'_>) -> Result<Core<ScriptPolicy>, Stop> {
    let (config, allowed) = settings(alloc, script)?;
    match Core::new(alloc, config, allowed) {
        Ok(core) => Ok(core),
        Err(_) => Err(Stop::NotStarted),
    }
}

fn call_of<'b, 'a>(step: &'b ScriptStep<'a>) -> Result<&'b ScriptCall<'a>, Stop> {
    match &step.action {
        ScriptAction::Do(call) => Ok(call),
        _ => Err(Stop::NoCall),
    }
}

// Returns the answer of a call on both. Each time that an allocation of the monitor fails, both must show what they did
// before, and the call is made again.
fn answered<R: Wait, D: Calls + Drop>(
    both: &mut Both<D>,
    rt: &R,
    scarce: &mut Scarce,
    dom: DomId,
    request: Request<'_>,
) -> Result<Result<Answer, Came>, Stop> {
    let place = both.domain_place(dom);
    for _ in 0..scarce.prepare_call() {
        match both.ask(rt, scarce, place, request)? {
            Asked::Alike(answer) => return Ok(Ok(answer)),
            Asked::Otherwise => return Ok(Err(Came::Otherwise)),
            Asked::Refused => {}
        }
        if let Some(shows) = both.shown_by_all(rt)? {
            return Ok(Err(Came::Differs(shows)));
        }
    }
    Ok(Err(Came::Otherwise))
}

// Makes the call of a line on both.
fn line_answered<'a, R: Wait, D: Calls + Drop>(
    both: &mut Both<D>,
    rt: &R,
    scarce: &mut Scarce,
    labels: &Labels<'a>,
    step: &ScriptStep<'a>,
) -> Result<Result<Answer, Came>, Stop> {
    let call = call_of(step)?;
    let bytes = call_bytes(both.alloc, call)?;
    let request = request_of(labels, step.dom, bytes.as_slice(), call);
    answered(both, rt, scarce, step.dom, request)
}

impl<'a> Told<'a> {
    fn nothing(alloc: Global) -> Told<'a> {
        Told {
            labels: Labels::new(alloc),
            lines: Vec::new(alloc),
            calls: 0,
            done: 0,
            difference: None,
        }
    }

    // Counts a call, and notes what differs, if anything does.
    fn note(&mut self, alloc: Global, line: usize, came: Came) -> Result<(), AllocError> {
        self.calls = self.calls.saturating_add(1);
        match came {
            Came::Done => self.done = self.done.saturating_add(1),
            Came::Denied => {}
            came => self.difference = Some(difference_at(alloc, line, came)?),
        }
        Ok(())
    }

    // Names the handle of a map, if this is its answer.
    fn name(&mut self, step: &ScriptStep<'a>, answer: &Answer) -> Result<(), Stop> {
        let call = call_of(step)?;
        if let (Some(label), Answer::Mapped(handle)) = (label_given(call), answer) {
            self.labels.name(step.dom, label, *handle)?;
        }
        Ok(())
    }

    // Adds the answer of a line.
    fn add(
        &mut self,
        alloc: Global,
        names: &[Text<'_>],
        step: &ScriptStep<'a>,
        answer: &Answer,
    ) -> Result<(), Stop> {
        self.name(step, answer)?;
        push_answer_line(alloc, &mut self.lines, names, step.line, step.dom, answer)?;
        Ok(())
    }
}

// Makes the call of a line on both, adds its answer, and compares what both then show.
fn call_made<'a, R: Wait, D: Calls + Drop>(
    both: &mut Both<D>,
    rt: &R,
    scarce: &mut Scarce,
    told: &mut Told<'a>,
    names: &[Text<'_>],
    step: &ScriptStep<'a>,
) -> Result<Came, Stop> {
    let answer = match line_answered(both, rt, scarce, &told.labels, step)? {
        Ok(answer) => answer,
        Err(came) => return Ok(came),
    };
    told.add(both.alloc, names, step, &answer)?;
    Ok(match both.shown_by_all(rt)? {
        Some(shows) => Came::Differs(shows),
        None if matches!(answer, Answer::Denied(_)) => Came::Denied,
        None => Came::Done,
    })
}

// Returns what differs at a line.
fn difference_at(alloc: Global, line: usize, came: Came) -> Result<String, AllocError> {
    match came {
        Came::Differs(Shows::Frame(dom, frame)) => {
            format!(in alloc; "line {line}: frame {frame} of domain {dom} differs")
        }
        Came::Differs(Shows::Entry(dom, gref)) => {
            format!(in alloc; "line {line}: entry {gref} of domain {dom} differs")
        }
        _ => format!(in alloc; "line {line}: other answers"),
    }
}

// Compares the lines of a script on both, up to the first that differs.
fn lines_compared<'a, R: Wait, D: Calls + Drop>(
    both: &mut Both<D>,
    rt: &R,
    scarce: &mut Scarce,
    told: &mut Told<'a>,
    steps: &[ScriptStep<'a>],
    names: &[Text<'_>],
) -> Result<(), Stop> {
    for step in steps {
        let came = call_made(both, rt, scarce, told, names, step)?;
        told.note(both.alloc, step.line, came)?;
        if told.difference.is_some() {
            break;
        }
    }
    scarce.open();
    Ok(())
}

// Compares a script on both, and then the text of its play.
fn tell_script<'a, R: Wait, D: Calls + Drop>(
    both: &mut Both<D>,
    rt: &R,
    scarce: &mut Scarce,
    told: &mut Told<'a>,
    script: &Script<'a>,
    text: &str,
) -> Result<(), Stop> {
    let names = script.head().type_names(both.alloc)?;
    lines_compared(both, rt, scarce, told, script.steps(), names.as_slice())?;
    if told.difference.is_none() {
        told.difference = text_difference(both, text, told.lines.as_slice(), names.as_slice())?;
    }
    Ok(())
}

// Compares a script on both, and adds which calls failed.
fn script_compared<R: Wait, D: Calls + Drop>(
    both: &mut Both<D>,
    rt: &R,
    script: &Script<'_>,
    text: &str,
    is_refusing: bool,
) -> Result<Compared, Stop> {
    let mut scarce = Scarce::new(both.alloc, is_refusing)?;
    let mut told = Told::nothing(both.alloc);
    tell_script(both, rt, &mut scarce, &mut told, script, text)?;
    let refused = scarce.said(both.alloc)?;
    Ok(Compared {
        calls: told.calls,
        done: told.done,
        refused,
        difference: told.difference,
    })
}

// Makes a core with the script's configuration, next to these running domains.
fn both_of<D: Calls + Drop>(
    alloc: Global,
    script: &Script<'_>,
    domains: Vec<D>,
) -> Result<Both<D>, Stop> {
    let configured = Vec::from_slice(alloc, script.head().domains())?;
    Ok(Both {
        alloc,
        configured,
        core: core_of(alloc, script)?,
        domains,
        refused: 0,
    })
}

// Compares a script on these running domains and a core.
fn domains_compared<R: Wait, D: Calls + Drop>(
    rt: &R,
    alloc: Global,
    script: &Script<'_>,
    domains: Vec<D>,
    text: &str,
    is_refusing: bool,
) -> Result<Compared, Stop> {
    let mut both = both_of(alloc, script, domains)?;
    script_compared(&mut both, rt, script, text, is_refusing)
}

// Compares a parsed script on both.
fn compare_script<R: Wait>(
    rt: &R,
    alloc: Global,
    script: &Script<'_>,
    text: &str,
    is_refusing: bool,
) -> Result<Compared, Stop> {
    let (config, allowed) = settings(alloc, script)?;
    let Ok((monitor, domains)) = start_run(alloc, config, allowed) else {
        return Err(Stop::NotStarted);
    };
    let domains = all_running(alloc, &monitor, domains)?;
    domains_compared(rt, alloc, script, domains, text, is_refusing)
}

/// Plays a script on both. With `is_refusing` each allocation of each call fails once.
pub fn compare<R: Wait>(
    rt: &R,
    alloc: Global,
    text: &str,
    is_refusing: bool,
) -> Result<Compared, Stop> {
    match parse(alloc, text.as_bytes()) {
        Ok(script) => compare_script(rt, alloc, &script, text, is_refusing),
        Err(_) => Err(Stop::Fault),
    }
}
