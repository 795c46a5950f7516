//! Runs the lines of a script on the core, one after the other.
ghost use Rattle.std.specs.Prelude.{◌≡◌, ◌≢◌, ◌++◌, List, None, OnOk, IfOk, IfErr, IsTrue};
ghost use Rattle.std.specs.Option.{option_map};
ghost use Rattle.gt_types.specs.Names.{domain_of};
ghost use Rattle.gt_types.specs.declared.DomId.{DomId};
ghost use Rattle.gt_model.specs.History.{History};
ghost use Rattle.gt_core.specs.Standing.{CoreStands, setting_in};
ghost use Rattle.gt_script_runs.specs.Printing.{answer_line};
ghost use Rattle.gt_script_runs.specs.Runs.{call_bytes as bytes_in_call, label_said, DoLine, BeginLine, TickLine, RunsLine};
ghost use Rattle.gt_script_runs.specs.Naming.{NamesMapping};
ghost use Rattle.gt_host.specs.Ticking.{IsReadyToCall, HasCalled, TicksTo, Leads};
ghost use Rattle.gt_host.specs.declared.fault.StepsFault.TheVariants as steps_faults;

use crate::fault::StepsFault;
use crate::kept::PlayState;
use crate::showing::push_show_line;
use gt_calls::MAX_STEPS;
use gt_core::{Answer, Begun, Core, Request, Ticked};
use gt_script::{ScriptAction, ScriptStep};
use gt_script_lines::{ScriptCall, Text};
use gt_script_runs::{
    Labels, call_bytes, label_given, name_mapping, push_answer_line, push_busy_line,
    push_idle_line, request_of,
};
use gt_types::{Allows, DomId, Memory};
use std::alloc::{AllocError, Global};

// Returns the label to which the call of a step gives its handle.
fn label_in<'a>(action: &ScriptAction<'a>) -> Option<&'a [u8]>
    ensures { option_map (λ l. l.now) result ≡ label_said action.now }
{
    match action {
        ScriptAction::Do(call) | ScriptAction::Begin(call) => label_given(call),
        ScriptAction::Tick(_) | ScriptAction::Show(_) => None,
    }
}

// A domain's call that has its answer, and the step that began it.
#[derive(Drop)]
struct AnsweredStep<'b, 'a> {
    dom: DomId,
    step: &'b ScriptStep<'a>,
    answer: &'b Answer,
}

// Names the mapping of an answered call, and appends the line.
fn answer_call<'b, 'a>(
    alloc: Global,
    labels: &mut Labels<'a>,
    types: &[Text<'a>],
    at: AnsweredStep<'b, 'a>,
    out: &mut Vec<u8>,
) -> Result<(), AllocError>
    ensures named { OnOk result (NamesMapping labels.old labels.new at.entry.dom at.entry.step.now at.entry.answer.now) }
    ensures line { OnOk result (out.new.items
        ≡ out.old.items ++ answer_line types.now at.entry.step.now.line at.entry.dom at.entry.answer.now) }
{
    name_mapping(labels, at.dom, label_in(&at.step.action), at.answer)?;
    push_answer_line(alloc, out, types, at.step.line, at.dom, at.answer)
}

// Ticks a domain at most `most` times, up to the answer of its call.
fn tick_up_to<P: Allows>(
    core: &mut Core<P>,
    dom: DomId,
    most: u32,
) -> Result<Option<Answer>, Memory>
    ensures ticks { (h : History) → CoreStands (setting_in P.may core.old) h core.old.state →
        IfOk result (TicksTo (setting_in P.may core.old) h dom most core.new.state) }
    ensures config { core.new.config ≡ core.old.config }
    ensures rights { core.new.rights ≡ core.old.rights }
{
    'ticks: for _ in 0..most {
        if let Ticked::Done(_, _, answer) = core.tick(dom)? {
            return Ok(Some(answer));
        }
    }
    Ok(None)
}

// Runs a call from its beginning to its answer; None if the domain has another call open.
fn run_call<P: Allows>(
    core: &mut Core<P>,
    dom: DomId,
    request: Request<'_>,
) -> Result<Option<Answer>, Memory>
    requires { IsReadyToCall (setting_in P.may core.old) dom core.old.state }
    ensures calls { (h : History) → CoreStands (setting_in P.may core.old) h core.old.state →
        IfOk result (HasCalled (setting_in P.may core.old) h dom request.entry core.new.state) }
    ensures config { core.new.config ≡ core.old.config }
    ensures rights { core.new.rights ≡ core.old.rights }
{
    match core.begin(dom, request)? {
        Begun::Done(answer) => Ok(Some(answer)),
        Begun::Busy => Ok(None),
        Begun::Open | Begun::NoDomain => match tick_up_to(core, dom, MAX_STEPS)? {
            Some(answer) => Ok(Some(answer)),
            None => unreachable!(),
        },
    }
}

// The call of a line, and the bytes that it gives.
#[derive(Drop)]
struct GivenCall<'b, 'a> {
    call: &'b ScriptCall<'a>,
    bytes: &'b [u8],
}

// Runs a line `do ID CALL`.
fn run_do<'b, 'a, P: Allows>(
    core: &mut Core<P>,
    kept: &mut PlayState<'b, 'a>,
    types: &[Text<'a>],
    step: &ScriptStep<'a>,
    given: GivenCall<'_, 'a>,
    out: &mut Vec<u8>,
) -> Result<(), StepsFault>
    requires ready { IsReadyToCall (setting_in P.may core.old) step.now.dom core.old.state }
    requires said { given.bytes.now ≡ bytes_in_call given.call.now }
    ensures leads { OnOk result (Leads (setting_in P.may core.old) (DoLine types.now step.now given.entry.call.now)
        core.old.state core.new.state kept.old kept.new out.old.items out.new.items) }
    ensures config { core.new.config ≡ core.old.config }
    ensures rights { core.new.rights ≡ core.old.rights }
    ensures errors { IfErr result (λ e. e ≡ steps_faults.Memory) }
{
    let dom = step.dom;
    let request = request_of(&kept.labels, dom, given.bytes, given.call);
    let hypercall = kept.audit.about(core, dom, request);
    match run_call(core, dom, request)? {
        Some(answer) => {
            kept.audit.record(dom, hypercall, &answer)?;
            let at = AnsweredStep {
                dom,
                step,
                answer: &answer,
            };
            let alloc = kept.alloc;
            answer_call(alloc, &mut kept.labels, types, at, out)?;
        }
        None => push_busy_line(out, step.line, dom)?,
    }
    Ok(())
}

// Runs a line `begin ID CALL`.
fn run_begin<'b, 'a, P: Allows>(
    core: &mut Core<P>,
    kept: &mut PlayState<'b, 'a>,
    types: &[Text<'a>],
    step: &'b ScriptStep<'a>,
    given: GivenCall<'_, 'a>,
    out: &mut Vec<u8>,
) -> Result<(), StepsFault>
    requires known { domain_of core.old.config.domains.items step.now.dom ≢ None }
    requires said { given.bytes.now ≡ bytes_in_call given.call.now }
    ensures leads { OnOk result (Leads (setting_in P.may core.old) (BeginLine types.now step.now given.entry.call.now)
        core.old.state core.new.state kept.old kept.new out.old.items out.new.items) }
    ensures config { core.new.config ≡ core.old.config }
    ensures rights { core.new.rights ≡ core.old.rights }
    ensures errors { IfErr result (λ e. e ≡ steps_faults.Memory) }
{
    let dom = step.dom;
    let request = request_of(&kept.labels, dom, given.bytes, given.call);
    let hypercall = kept.audit.about(core, dom, request);
    match core.begin(dom, request)? {
        Begun::Done(answer) => {
            kept.audit.record(dom, hypercall, &answer)?;
            let at = AnsweredStep {
                dom,
                step,
                answer: &answer,
            };
            let alloc = kept.alloc;
            answer_call(alloc, &mut kept.labels, types, at, out)?;
        }
        Begun::Busy => push_busy_line(out, step.line, dom)?,
        Begun::Open | Begun::NoDomain => kept.calls.begin_call(dom, step, hypercall)?,
    }
    Ok(())
}

// Runs a line `tick ID N`.
fn run_ticks<'b, 'a, P: Allows>(
    core: &mut Core<P>,
    kept: &mut PlayState<'b, 'a>,
    types: &[Text<'a>],
    step: &ScriptStep<'a>,
    most: u32,
    out: &mut Vec<u8>,
) -> Result<(), StepsFault>
    requires { domain_of core.old.config.domains.items step.now.dom ≢ None }
    ensures leads { OnOk result (Leads (setting_in P.may core.old)
        (λ p q. TickLine types.now step.now most (p.open_steps step.now.dom.0) p q)
        core.old.state core.new.state kept.old kept.new out.old.items out.new.items) }
    ensures config { core.new.config ≡ core.old.config }
    ensures rights { core.new.rights ≡ core.old.rights }
    ensures errors { IfErr result (λ e. e ≡ steps_faults.Memory) }
{
    let Some(begun) = kept.calls.of(step.dom) else {
        push_idle_line(out, step.line, step.dom)?;
        return Ok(());
    };
    if let Some(answer) = tick_up_to(core, step.dom, most)? {
        kept.calls.end(step.dom);
        kept.audit.record(step.dom, begun.hypercall, &answer)?;
        let at = AnsweredStep {
            dom: step.dom,
            step: begun.step,
            answer: &answer,
        };
        answer_call(kept.alloc, &mut kept.labels, types, at, out)?;
    }
    Ok(())
}

/// Runs a step of a script on the core, and appends its line if it has one. The only Err is a failed allocation; part
/// of the line may have been appended then.
pub fn run_step<'b, 'a, P: Allows>(
    core: &mut Core<P>,
    kept: &mut PlayState<'b, 'a>,
    types: &[Text<'a>],
    step: &'b ScriptStep<'a>,
    out: &mut Vec<u8>,
) -> Result<(), StepsFault>
    requires { IsReadyToCall (setting_in P.may core.old) step.now.dom core.old.state }
    ensures leads { OnOk result (Leads (setting_in P.may core.old)
        (λ p q. RunsLine (setting_in P.may core.old) types.now step.now step.now.action p q)
        core.old.state core.new.state kept.old kept.new out.old.items out.new.items) }
    ensures config { core.new.config ≡ core.old.config }
    ensures rights { core.new.rights ≡ core.old.rights }
    ensures errors { IfErr result (λ e. e ≡ steps_faults.Memory) }
{
    match &step.action {
        ScriptAction::Do(call) => {
            let bytes = call_bytes(kept.alloc, call)?;
            let given = GivenCall {
                call,
                bytes: bytes.as_slice(),
            };
            run_do(core, kept, types, step, given, out)
        }
        ScriptAction::Begin(call) => {
            let bytes = call_bytes(kept.alloc, call)?;
            let given = GivenCall {
                call,
                bytes: bytes.as_slice(),
            };
            run_begin(core, kept, types, step, given, out)
        }
        ScriptAction::Tick(most) => run_ticks(core, kept, types, step, *most, out),
        ScriptAction::Show(gref) => {
            let shown = core.show(step.dom, *gref);
            push_show_line(kept.alloc, out, step.line, step.dom, *gref, shown)?;
            Ok(())
        }
    }
}
