//! Threads for all domains of a run, from their start to their last line.
ghost use Rattle.std.specs.Prelude.{◌≡◌, ◌≤◌, ◌++◌, ◌⊎◌, All, length, map, is_some};
ghost use Rattle.std.specs.Prelude.{Err, IfOk, IfErr, IsOk, None, OnOk};
ghost use Rattle.std.specs.Io.KnownBytes.{Appends};
ghost use Rattle.gt_types.specs.Config.{AreFaultless};
ghost use Rattle.gt_types.specs.declared.limits.TheConstants.{LAST_GENERATION};
ghost use Rattle.gt_audit.specs.Lines.{lost_text};
ghost use Rattle.gt_live.specs.Domains.{BelongsTo};
ghost use Rattle.gt_live.specs.Parts.{words_of};
ghost use Rattle.gt_text.specs.Streams.{AppendsBeginning};
ghost use Rattle.gt_run.specs.Faults.{run_out_of_memory};
ghost use Rattle.gt_run.specs.Joining.{AreGathered, AreOfThisRun, AreOnRun, BeginsFirst, IsLate, IsTakenIn};
ghost use Rattle.gt_run.specs.Joining.{JoinsWhere, MayTakeIn, ShowTogether, WritesNext, WroteStarted};
ghost use Rattle.gt_run.specs.Joining.{run_fault_of, views_in};
ghost use Rattle.gt_run.specs.declared.threads.ThreadRefusal.TheVariants as refusals;
ghost use Rattle.gt_run.specs.Printing.{AreAtGate, AreJobsOf, IsOutputOf, promised};
ghost use Rattle.gt_run.specs.Runs.{AreUnder, Wrote};
ghost use Rattle.gt_run.specs.Serving.{counted, AreReady, IsReady};

use crate::fault::RunFault;
use crate::gate::Gate;
use crate::lists::{DomainPart, JobAtGate, RunContext, ThreadJob};
use crate::running::RunningDomain;
use crate::serving::{Output, work};
use gt_audit::push_lost;
use gt_live::{Departed, Domain, Monitor};
use gt_text::{finish, write_text};
use gt_types::{Allows, Config, Memory, StartFault};
use gt_words::Gathered;
use std::alloc::{AllocFailed, Global};
use std::io::Write;
use std::sync::{OnceLock, Wait};
use std::thread;
use std::thread::{PromisedHandle, Scope, SpawnError, Threads};

// Finishes domains that get no thread.
fn finish_all<P: Allows>(monitor: &Monitor<P>, domains: Vec<Domain>)
    requires { All (λ d. BelongsTo P.may monitor.now d) domains.items }
{
    let mut rest = domains.into_iter();
    'rest: while let Some(domain) = rest.next() {
        domain.finish(monitor);
    }
    rest.destroy_empty();
}

/// Pairs each domain with its monitor. If the allocation fails, each domain is finished.
pub fn all_running<'m, P: Allows>(
    alloc: Global,
    monitor: &'m Monitor<P>,
    domains: Vec<Domain>,
) -> Result<Vec<RunningDomain<'m, P>>, Memory>
    requires { All (λ d. BelongsTo P.may monitor.now d) domains.items }
    ensures { IfOk result (λ all. all.items ≡ map (λ d. record { monitor = monitor.now; domain = d }) domains.items) }
{
    let Ok(room) = Vec::with_capacity(alloc, domains.len()) else {
        finish_all(monitor, domains);
        return Err(Memory);
    };
    let mut all: Vec<RunningDomain<'m, P>> = room;
    let mut rest = domains.into_iter();
    'rest: while let Some(domain) = rest.next() {
        all.push_reserved(RunningDomain::new(monitor, domain));
    }
    rest.destroy_empty();
    Ok(all)
}

// The reason that some domain has no thread: a thread, or memory for the list of threads, was refused.
#[derive(Clone, Copy)]
enum ThreadRefusal {
    Thread,
    Memory,
}

impl From<ThreadRefusal> for RunFault {
    ghost from_gives = { λ refusal fault. fault ≡ run_fault_of refusal };

    fn from(refusal: ThreadRefusal) -> RunFault {
        match refusal {
            ThreadRefusal::Thread => RunFault::Thread,
            ThreadRefusal::Memory => RunFault::from(Memory),
        }
    }
}

impl<F: Drop> From<SpawnError<F>> for ThreadRefusal {
    ghost from_gives = { λ _ refusal. refusal ≡ refusals.Thread };

    fn from(_error: SpawnError<F>) -> ThreadRefusal {
        ThreadRefusal::Thread
    }
}

impl<T: Drop> From<AllocFailed<T>> for ThreadRefusal {
    ghost from_gives = { λ _ refusal. refusal ≡ refusals.Memory };

    fn from(_error: AllocFailed<T>) -> ThreadRefusal {
        ThreadRefusal::Memory
    }
}

// The threads that were started, in the order of their domains, and the refusal, if some domain has none.
#[derive(Drop)]
struct Started<'s, 'a, P: Allows, G: Gate> {
    handles: Vec<PromisedHandle<Output, JobAtGate<'s, 'a, P, G>>>,
    refused: Option<ThreadRefusal>,
}

// Starts a thread for each domain, with its part. Each thread waits for `start` before it does anything. After a
// refusal no further thread is started, and the remaining domains are finished.
fn start_each<'s, 'a, E, R: Wait + Sync, P: Allows + Sync, G: Gate + Sync>(
    scope: &'s Scope<'s, E>,
    context: &RunContext<'s, R, G>,
    monitor: &'s Monitor<P>,
    domains: Vec<RunningDomain<'s, P>>,
    parts: &'s [DomainPart<'s, 'a>],
    start: &'s OnceLock<bool>,
) -> Started<'s, 'a, P, G>
    requires { AreReady P.may monitor.now domains.items parts.now }
    ensures jobs { (result.refused ≡ None) →
        AreJobsOf monitor.now (is_some context.now.log) parts.entry.now (promised result.handles.items) }
    ensures gate { (result.refused ≡ None) → AreAtGate context.now.gate.now result.handles.items }
{
    let (rt, alloc, gate, log) = (context.rt, context.alloc, context.gate, context.log);
    let mut handles = Vec::new(alloc);
    let mut rest = domains.into_iter();
    'parts: for part in parts {
        let part = *part;
        let Some(domain) = rest.next() else {
            unreachable!()
        };
        let job = ThreadJob {
            alloc,
            part,
            monitor,
            log,
        };
        match scope.spawn_with(
            JobAtGate {
                job: ThreadJob {
                    alloc,
                    part,
                    monitor,
                    log,
                },
                gate,
            },
            move || -> Output
                requires { IsReady P.may job.monitor.now job.part.dom domain }
                ensures { IsOutputOf P.may (G.refuses gate.entry.now) job.entry result }
            { work(rt, domain, job, gate, start) },
        ) {
            Ok(handle) => {
                if let Err(error) = handles.push(handle) {
                    let refused = Some(ThreadRefusal::from(error));
                    return Started { handles, refused };
                }
            }
            Err(error) => {
                let refused = Some(ThreadRefusal::from(error));
                return Started { handles, refused };
            }
        }
    }
    Started {
        handles,
        refused: None,
    }
}

// The result of joining: the outcome, the audit lines of the domains, the number of lost records, and what the domains
// left behind.
#[derive(Drop)]
struct Joined {
    outcome: Result<(), RunFault>,
    audit: Vec<u8>,
    lost: u64,
    gathered: Option<Gathered>,
}

// Writes the text of a domain's list, whole or a prefix of it, if all went well before.
fn write_next<W: Write>(
    outcome: Result<(), RunFault>,
    writer: &mut W,
    output: &Output,
) -> Result<(), RunFault>
    ensures { WritesNext outcome output.now.whole output.now.text.items
        (W.contents writer.old) (W.contents writer.new) result }
{
    outcome?;
    write_text(writer, output.text.as_slice())?;
    if output.whole {
        Ok(())
    } else {
        Err(RunFault::from(Memory))
    }
}

// Appends the audit lines of a domain, if all went well before.
fn keep_audit(
    outcome: Result<(), RunFault>,
    all: &mut Vec<u8>,
    audit: Result<Vec<u8>, Memory>,
) -> Result<(), RunFault>
    ensures ok { OnOk result (IsOk outcome × IfOk audit (λ more. all.new.items ≡ all.old.items ++ more.items)
        × IsOk audit) }
    ensures err { IfErr result (λ e. (outcome ≡ Err e) ⊎ (e ≡ run_out_of_memory)) }
{
    outcome?;
    let more = audit?;
    all.extend_from_slice(more.as_slice())?;
    Ok(())
}

// Adds what a domain left behind to what was gathered. The first domain's comes first.
fn take_in<P: Allows>(monitor: &Monitor<P>, gathered: Option<Gathered>, left: Departed) -> Gathered
    requires { MayTakeIn (words_of monitor.now) gathered left }
    ensures { IsTakenIn (words_of monitor.now) gathered left result }
{
    match gathered {
        Some(mut all) => {
            monitor.gather_more(&mut all, left);
            all
        }
        None => monitor.gather(left),
    }
}

// Joins all threads of this gate in their order. Writes the lines of each domain as it is joined, unless something
// failed before. Gathers what the domains left behind.
fn join_each<'s, 'a, R: Threads, P: Allows, G: Gate, W: Write>(
    rt: &R,
    alloc: Global,
    gate: &G,
    monitor: &Monitor<P>,
    handles: Vec<PromisedHandle<Output, JobAtGate<'s, 'a, P, G>>>,
    writer: &mut W,
) -> Joined
    requires run { AreOnRun monitor.now (promised handles.items) }
    requires gate { AreAtGate gate.now handles.items }
    ensures joins { JoinsWhere (AreGathered (views_in result.gathered)) P.may (G.refuses gate.now)
        (promised handles.entry.items)
        result.audit.items result.lost (W.contents writer.old) (W.contents writer.new) result.outcome }
    ensures run { AreOfThisRun (words_of monitor.now) result.gathered }
{
    let mut outcome = Ok(());
    let mut audit = Vec::new(alloc);
    let mut lost: u64 = 0;
    let mut gathered = None;
    'joins: for handle in handles {
        let output = handle.join(rt);
        outcome = write_next(outcome, writer, &output);
        lost = lost.saturating_add(output.lost);
        let Output {
            audit: lines,
            left,
            ..
        } = output;
        outcome = keep_audit(outcome, &mut audit, lines);
        gathered = Some(take_in(monitor, gathered, left));
    }
    Joined {
        outcome,
        audit,
        lost,
        gathered,
    }
}

// Loads one word with all gathered seats, if there are any: then words and views show one state of all domains.
fn learn_of_all<P: Allows>(monitor: &Monitor<P>, gathered: Option<Gathered>)
    requires { AreOfThisRun (words_of monitor.now) gathered }
    ensures { ShowTogether (words_of monitor.now).layout (views_in gathered) }
{
    if let Some(mut all) = gathered {
        monitor.learn_of_all(&mut all);
    }
}

// Joins threads that ran no list.
fn join_idle<'s, 'a, R: Threads, P: Allows, G: Gate>(
    rt: &R,
    handles: Vec<PromisedHandle<Output, JobAtGate<'s, 'a, P, G>>>,
) {
    'joins: for handle in handles {
        let _ = handle.join(rt);
    }
}

// Writes the audit lines of all domains, and the number of lost records.
fn write_audit<W: Write>(
    alloc: Global,
    writer: &mut W,
    audit: &[u8],
    lost: u64,
) -> Result<(), RunFault>
    ensures whole { OnOk result
        (Appends (W.contents writer.old) (W.contents writer.new) (audit.now ++ lost_text lost)) }
    ensures beginning { AppendsBeginning (W.contents writer.old) (W.contents writer.new) (audit.now ++ lost_text lost) }
    ensures late { IfErr result IsLate }
{
    let mut last = Vec::from_slice(alloc, audit)?;
    push_lost(&mut last, lost)?;
    finish(writer, last.as_slice())?;
    Ok(())
}

// A writer that a scope returns, with the outcome of the writes.
#[derive(Drop)]
struct ReturnedWriter<'w, W> {
    writer: &'w mut W,
    outcome: Result<(), RunFault>,
}

// Ends the loan of a writer.
fn take_back<W>(writer: &mut W)
    ensures { writer.new ≡ writer.old }
{}

// Writes what the threads of this gate print, if each domain has one.
fn write_each<'s, 'a, R: Threads, P: Allows, G: Gate, W: Write>(
    rt: &R,
    alloc: Global,
    gate: &G,
    monitor: &Monitor<P>,
    started: Started<'s, 'a, P, G>,
    writer: &mut W,
) -> Result<(), RunFault>
    requires run { (started.refused ≡ None) → AreOnRun monitor.now (promised started.handles.items) }
    requires gate { (started.refused ≡ None) → AreAtGate gate.now started.handles.items }
    ensures { WroteStarted P.may (G.refuses gate.now) started.entry.refused
        (promised started.entry.handles.items) (W.contents writer.old) (W.contents writer.new) result }
{
    let Started { handles, refused } = started;
    if let Some(refusal) = refused {
        join_idle(rt, handles);
        return Err(RunFault::from(refusal));
    }
    let Joined {
        outcome,
        audit,
        lost,
        gathered,
    } = join_each(rt, alloc, gate, monitor, handles, writer);
    learn_of_all(monitor, gathered);
    outcome?;
    write_audit(alloc, writer, audit.as_slice(), lost)
}

/// Gives each domain its own thread, with its part, and writes what they print: the lines of each domain as it is
/// joined, in their order, and then their audit lines. No list begins before all threads are started. If a thread, or
/// memory for the list of threads, is refused, no list runs.
pub fn run_each<'a, R: Threads + Wait + Sync, P: Allows + Sync, G: Gate + Sync, W: Write>(
    context: &RunContext<'_, R, G>,
    monitor: &Monitor<P>,
    domains: Vec<RunningDomain<'_, P>>,
    parts: &[DomainPart<'_, 'a>],
    writer: &mut W,
) -> Result<(), RunFault>
    requires ready { AreReady P.may monitor.now domains.items parts.now }
    requires first { BeginsFirst (words_of monitor.now) parts.now }
    ensures { Wrote P.may (G.refuses context.now.gate.now) (AreJobsOf monitor.now (is_some context.now.log) parts.now)
        (W.contents writer.old) (W.contents writer.new) result }
{
    let start = OnceLock::new();
    let start = &start;
    let ReturnedWriter { writer, outcome } = thread::scope(
        thread::scope_env(),
        context.rt,
        move |scope| -> ReturnedWriter<'_, W>
            requires ready { AreReady P.may monitor.now domains.items parts.now }
            requires first { BeginsFirst (words_of monitor.now) parts.now }
            ensures same { result.writer.ghost_name ≡ writer.entry.ghost_name }
            ensures text { Wrote P.may (G.refuses context.entry.now.gate.now)
                (AreJobsOf monitor.entry.now (is_some context.entry.now.log) parts.entry.now)
                (W.contents writer.entry.now) (W.contents result.writer.now) result.outcome }
        {
            let started = start_each(scope, context, monitor, domains, parts, start);
            let _ = start.try_set(started.refused.is_none());
            let (rt, alloc, gate) = (context.rt, context.alloc, context.gate);
            let outcome = write_each(rt, alloc, gate, monitor, started, writer);
            ReturnedWriter { writer, outcome }
        },
    );
    take_back(writer);
    outcome
}

/// Runs the parts over a new monitor with this configuration, these rights and this number of flags, each domain in its
/// own thread, and writes what they print: the lines of each domain, in the order of the parts, and then their audit
/// lines.
///
/// # Errors
/// A thread that could not be started, and then no list ran and nothing was written; or an allocation or a write that
/// failed, and then a prefix of a text of the lists was written.
pub fn run_lists<'a, R: Threads + Wait + Sync, P: Allows + Drop + Sync, G: Gate + Sync, W: Write>(
    context: &RunContext<'_, R, G>,
    config: Config,
    rights: P,
    flags: u32,
    parts: &[DomainPart<'_, 'a>],
    writer: &mut W,
) -> Result<(), RunFault>
    requires faultless { AreFaultless config.domains.items }
    requires some { 1 ≤ length config.domains.items }
    requires generation { config.first_gen ≤ LAST_GENERATION }
    requires each { map (λ p. p.dom) parts.now ≡ map (λ d. d.id) config.domains.items }
    ensures { Wrote P.may (G.refuses context.now.gate.now)
        (AreUnder config rights flags (is_some context.now.log) parts.now)
        (W.contents writer.old) (W.contents writer.new) result }
{
    match Monitor::with_flags(context.alloc, config, rights, flags) {
        Ok((monitor, domains)) => {
            let domains = all_running(context.alloc, &monitor, domains)?;
            run_each(context, &monitor, domains, parts, writer)
        }
        Err(StartFault::Memory) => Err(RunFault::from(Memory)),
        Err(StartFault::Config(_)) => unreachable!(),
    }
}
