//! A script for `play` that makes the moves of an order.
ghost use Rattle.gt_script.specs.Contents.{contents_of};
ghost use Rattle.gt_script.specs.RunScripts.{CanConfigure};

use crate::naming::WitnessNames;
use gt_explore_faults::TextsFault;
use gt_explore_replay::{Replay, Walker};
use gt_explore_search::Turn;
use gt_handles::Handle;
use gt_script::{RunAction, RunScript, RunTask};
use gt_script_lines::{line_words, text_lines};
use gt_script_runs::ScriptPolicy;
use gt_text::{push_number, push_text};
use gt_types::{Allows, DomId, DomainConfig, Perms, TypeId};
use std::alloc::{AllocError, Global};

// The position of the label among the words of a line that has one: `do ID CALL LABEL ..`.
const LABEL: usize = 3;

// Returns the number of the first line of the body.
fn body_of(tasks: &[RunTask]) -> usize {
    match tasks.first() {
        Some(task) => task.line,
        None => usize::MAX,
    }
}

fn push_line(out: &mut Vec<u8>, line: &str) -> Result<(), AllocError> {
    push_text(out, line)?;
    push_text(out, "\n")
}

// Appends the lines before the body.
fn push_head(out: &mut Vec<u8>, lines: &[&str], body: usize) -> Result<(), AllocError> {
    for line in lines.iter().take(body.saturating_sub(1)) {
        push_line(out, line)?;
    }
    Ok(())
}

// Appends a word after a blank.
fn push_word(out: &mut Vec<u8>, word: &[u8]) -> Result<(), AllocError> {
    push_text(out, " ")?;
    out.extend_from_slice(word)
}

// Appends the words of a call as a line that only begins it, with this name for its label.
fn push_words(out: &mut Vec<u8>, words: &[&[u8]], name: Option<&[u8]>) -> Result<(), AllocError> {
    push_text(out, "begin")?;
    for (at, word) in words.iter().enumerate().skip(1) {
        let shown = if at == LABEL { name } else { None };
        push_word(out, shown.unwrap_or(word))?;
    }
    Ok(())
}

// Appends the end of the line of a call: the number of its line in the script, as a comment.
fn push_origin(out: &mut Vec<u8>, number: usize) -> Result<(), AllocError> {
    push_text(out, "  # line ")?;
    push_number(out, number)?;
    push_text(out, "\n")
}

// Appends the line of a call, as a line that only begins it, with this name for its label.
fn push_begin(
    alloc: Global,
    out: &mut Vec<u8>,
    lines: &[&str],
    number: usize,
    name: Option<&[u8]>,
) -> Result<(), AllocError> {
    let Some(line) = lines.get(number.saturating_sub(1)) else {
        return Ok(());
    };
    let words = line_words(alloc, line)?;
    push_words(out, words.as_slice(), name)?;
    push_origin(out, number)
}

// Appends the line that begins to unmap a mapping of this name at the end of a list.
fn push_give_back(out: &mut Vec<u8>, dom: DomId, name: &[u8]) -> Result<(), AllocError> {
    push_text(out, "begin ")?;
    push_number(out, dom.0)?;
    push_text(out, " unmap ")?;
    out.extend_from_slice(name)?;
    push_text(out, "  # the end of its list\n")
}

fn push_tick(out: &mut Vec<u8>, dom: DomId) -> Result<(), AllocError> {
    push_text(out, "tick ")?;
    push_number(out, dom.0)?;
    push_text(out, " 1\n")
}

// Appends a comment on a mapping of this name that a domain releases when it leaves.
fn push_left(out: &mut Vec<u8>, dom: DomId, name: &[u8]) -> Result<(), AllocError> {
    push_text(out, "# domain ")?;
    push_number(out, dom.0)?;
    push_text(out, " leaves and releases ")?;
    out.extend_from_slice(name)?;
    push_text(out, ", which it may not unmap\n")
}

// Returns the type of a domain.
fn type_of(domains: &[DomainConfig], dom: DomId) -> Option<TypeId> {
    for domain in domains {
        if domain.id.0 == dom.0 {
            return Some(domain.label);
        }
    }
    None
}

// The sources of the lines of a witness: the lines of its script, its domains, and what the policy lets these do.
#[derive(Clone, Copy)]
struct WitnessSource<'w> {
    lines: &'w [&'w str],
    domains: &'w [DomainConfig],
    rights: &'w ScriptPolicy,
}

impl WitnessSource<'_> {
    // Returns whether the policy lets a domain unmap an entry of this owner.
    fn may_unmap(&self, dom: DomId, owner: DomId) -> bool {
        let Some(source) = type_of(self.domains, dom) else {
            return false;
        };
        let Some(target) = type_of(self.domains, owner) else {
            return false;
        };
        self.rights.allows(source, target, Perms::UNMAP)
    }

    // Returns whether a domain may unmap its mapping at this index of those that it has.
    fn may_give_back(&self, run: &Replay, walker: &Walker, choice: usize) -> bool {
        let Some(handle) = walker.held().get(choice) else {
            return false;
        };
        match run.core().subject(walker.dom(), *handle) {
            Some((owner, _)) => self.may_unmap(walker.dom(), owner),
            None => false,
        }
    }
}

// A script for `play` under way.
#[derive(Drop)]
struct WitnessScript {
    alloc: Global,
    out: Vec<u8>,
    names: WitnessNames,
    // For each domain, whether the release that it has open has no line.
    skips: Vec<bool>,
    // The first domain that releases a mapping without a line.
    keeps: Option<DomId>,
}

impl WitnessScript {
    ghost use Rattle.gt_script.specs.Contents.{contents_of};
    ghost use Rattle.gt_script.specs.RunScripts.{CanConfigure};

    // Begins a script for this number of domains.
    fn new(alloc: Global, domains: usize) -> Result<WitnessScript, AllocError> {
        let skips = vec![in alloc; false; domains]?;
        Ok(WitnessScript {
            alloc,
            out: Vec::new(alloc),
            names: WitnessNames::new(alloc),
            skips,
            keeps: None,
        })
    }

    // Appends the line by which a domain with these mappings, which is at the end of its list, begins to unmap one of
    // them, or a comment if it may not.
    fn push_end(
        &mut self,
        dom: DomId,
        held: &[Handle],
        turn: Turn,
        may_unmap: bool,
    ) -> Result<(), AllocError> {
        if let Some(skips) = self.skips.get_mut(turn.place) {
            *skips = !may_unmap;
        }
        let Some(name) = self.names.held(turn.place, held, turn.choice) else {
            return Ok(());
        };
        if may_unmap {
            return push_give_back(&mut self.out, dom, name);
        }
        if self.keeps.is_none() {
            self.keeps = Some(dom);
        }
        push_left(&mut self.out, dom, name)
    }

    // Appends the line of a step of what a domain has open, a call or a release, unless that has no lines.
    fn push_step(&mut self, dom: DomId, place: usize, is_call: bool) -> Result<(), AllocError> {
        let is_skipped = match self.skips.get(place) {
            Some(skips) => *skips,
            None => false,
        };
        if is_skipped && !is_call {
            return Ok(());
        }
        push_tick(&mut self.out, dom)
    }

    // Appends the line of a task of a domain with these mappings, if it is a call.
    fn push_task(
        &mut self,
        lines: &[&str],
        place: usize,
        held: &[Handle],
        task: &RunTask,
    ) -> Result<(), AllocError> {
        match &task.run_action {
            RunAction::Do(call) => {
                let name = self.names.begin_call(place, held, task.line, call)?;
                push_begin(self.alloc, &mut self.out, lines, task.line, shown(&name))
            }
            RunAction::Tell(_) | RunAction::Await(_) => Ok(()),
        }
    }

    // Appends the line that makes this turn of a domain.
    fn push_move(
        &mut self,
        from: &WitnessSource,
        run: &Replay,
        walker: &Walker,
        turn: Turn,
    ) -> Result<(), AllocError> {
        if walker.is_calling() {
            return self.push_step(walker.dom(), turn.place, walker.call().is_some());
        }
        match walker.task() {
            Some(task) => self.push_task(from.lines, turn.place, walker.held(), task),
            None => {
                let may_unmap = from.may_give_back(run, walker, turn.choice);
                self.push_end(walker.dom(), walker.held(), turn, may_unmap)
            }
        }
    }

    // Appends the line that makes this turn.
    fn push_turn(
        &mut self,
        from: &WitnessSource,
        run: &Replay,
        turn: Turn,
    ) -> Result<(), AllocError> {
        match run.walkers().get(turn.place) {
            Some(walker) => self.push_move(from, run, walker, turn),
            None => Ok(()),
        }
    }

    // Makes a turn, after its line, and names the mapping that the domain gets.
    fn make_turn(
        &mut self,
        from: &WitnessSource,
        run: &mut Replay,
        turn: Turn,
    ) -> Result<(), TextsFault> {
        self.push_turn(from, run, turn)?;
        let before = held_at(run, turn.place).len();
        let _ = run.advance(turn)?;
        self.names
            .note(turn.place, held_at(run, turn.place), before)?;
        Ok(())
    }

    // Makes these turns.
    fn make_turns(
        &mut self,
        from: &WitnessSource,
        run: &mut Replay,
        turns: &[Turn],
    ) -> Result<(), TextsFault> {
        for turn in turns {
            self.make_turn(from, run, *turn)?;
        }
        Ok(())
    }

    // Makes these turns of the script.
    fn replay(
        &mut self,
        from: &WitnessSource,
        script: &RunScript,
        turns: &[Turn],
    ) -> Result<(), TextsFault>
        requires { CanConfigure (contents_of script.now.head) }
    {
        let mut run = Replay::new(self.alloc, script)?;
        self.make_turns(from, &mut run, turns)
    }
}

// Returns the bytes of a name, if there is one.
fn shown(name: &Option<Vec<u8>>) -> Option<&[u8]> {
    match name {
        Some(name) => Some(name.as_slice()),
        None => None,
    }
}

// Returns the handles of the mappings of the domain at this position.
fn held_at<'r>(run: &'r Replay, place: usize) -> &'r [Handle] {
    match run.walkers().get(place) {
        Some(walker) => walker.held(),
        None => &[],
    }
}

/// The lines of a script for `play`, and the first domain that leaves in it with a mapping which the policy does not
/// let it unmap, if there is one. `play` has no line for that, so that domain keeps the mapping there.
#[derive(Drop)]
pub struct PlayScript {
    pub lines: Vec<u8>,
    pub keeps: Option<DomId>,
}

// Makes the lines before the body, and those of these turns.
fn witness_from(
    alloc: Global,
    from: &WitnessSource,
    script: &RunScript,
    turns: &[Turn],
) -> Result<PlayScript, TextsFault>
    requires { CanConfigure (contents_of script.now.head) }
{
    let mut witness = WitnessScript::new(alloc, from.domains.len())?;
    push_head(&mut witness.out, from.lines, body_of(script.tasks()))?;
    witness.replay(from, script, turns)?;
    Ok(PlayScript {
        lines: witness.out,
        keeps: witness.keeps,
    })
}

/// Returns the lines of a script for `play` whose domains make the moves of these turns of the script in `source`. A
/// domain that has mappings at the end of its list unmaps them by further lines, if the policy lets it.
///
/// # Errors
/// `Memory` if an allocation fails.
pub fn witness_of(
    alloc: Global,
    source: &str,
    script: &RunScript,
    turns: &[Turn],
) -> Result<PlayScript, TextsFault>
    requires { CanConfigure (contents_of script.now.head) }
{
    let head = script.head();
    let lines = text_lines(alloc, source)?;
    let rights = ScriptPolicy::of(alloc, head)?;
    let from = WitnessSource {
        lines: lines.as_slice(),
        domains: head.domains(),
        rights: &rights,
    };
    witness_from(alloc, &from, script, turns)
}
