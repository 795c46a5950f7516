//! A script: the contents of its lines, in order.
ghost use Rattle.std.specs.Prelude.{◌≡◌, ◌≤◌, ◌<◌, ◌+◌, ◌^◌, length, map, IfOk};
ghost use Rattle.gt_types.specs.Config.{is_taken};
ghost use Rattle.gt_script.specs.Script.{domain_written, configured};
ghost use Rattle.gt_script.specs.Contents.{contents_of};

use crate::actions::{ScriptAction, play_action_in, run_action_in};
use crate::command::ScriptCommand;
use crate::faults::{AddError, ScriptError, ScriptFault, ScriptFaultKind};
use crate::flags::FlagNames;
use crate::head::ScriptHead;
use crate::tasks::RunTask;
use gt_policy::Policy;
use gt_script_lines::{
    BodyLine, DomainLine, Number, ScriptLine, Text, TripleLine, line_words, read_line,
};
use gt_types::{DomId, DomainConfig, Triple, TypeId};
use std::alloc::{AllocError, Global};
use std::marker::Model;

/// A line of the body for `play`, with its number and its domain.
#[derive(Drop)]
pub struct ScriptStep<'a> {
    pub line: usize,
    pub dom: DomId,
    pub action: ScriptAction<'a>,
}

/// A script without fault: its head, and its body. The lines of the body are steps for `play`, and tasks for `run`.
#[derive(Drop)]
pub struct Script<'a> {
    pub(crate) head: ScriptHead<'a>,
    steps: Vec<ScriptStep<'a>>,
    pub(crate) tasks: Vec<RunTask<'a>>,
    pub(crate) flags: FlagNames<'a>,
}

impl<'a> Model for Script<'a> {
    ghost use Rattle.gt_script.specs.Contents.{KeptContents};

    ghost Value = { KeptContents };

    ghost view = { λ s. record s.head {
      steps = s.steps.items;
      tasks = s.tasks.items;
      flags = s.flags;
    } };
}

fn is_domain(domains: &[DomainConfig], id: DomId) -> bool
    ensures { result ≡ is_taken domains.now id }
{
    domains.iter().any(|d| d.id == id)
}

// Finds the domain with this number, if it is configured.
#[tactic(auto, unfolding(crate::specs::Script::configured))]
fn configured(domains: &[DomainConfig], number: Number) -> Option<DomId>
    ensures { result ≡ configured domains.now number }
{
    let dom = DomId(number.below(1 << 16)? as u16);
    if is_domain(domains, dom) {
        Some(dom)
    } else {
        None
    }
}

// Makes the domain of a line, if its numbers fit.
#[tactic(auto, unfolding(crate::specs::Script::domain_written))]
fn domain_written(line: &DomainLine, label: TypeId) -> Option<DomainConfig>
    ensures { result ≡ domain_written line.now label }
{
    Some(DomainConfig {
        id: DomId(line.id.below(1 << 16)? as u16),
        label,
        frames: line.frames.below(1 << 32)? as u32,
        table_frames: line.table_frames.below(1 << 32)? as u32,
        version: line.version.below(1 << 32)? as u32,
    })
}

impl<'a> Script<'a> {
    ghost use Rattle.std.specs.Prelude.{◌≡◌, map, ◌<◌, ◌≤◌, ◌+◌, ◌-◌, ◌^◌, length};
    ghost use Rattle.gt_script_lines.specs.Words.{words as words_in};
    ghost use Rattle.std.specs.Option.{option_map};
    ghost use Rattle.gt_policy.specs.Kept.{allowed_of};
    ghost use Rattle.gt_script.specs.Contents.{contents_of, kept_head_in, starting};
    ghost use Rattle.gt_script.specs.Script.{with_triple, GivesTypeNumber, with_domain, with_domain_line, with_task};
    ghost use Rattle.gt_script.specs.Script.{with_body_line, with_script_line, with_words};
    ghost use Rattle.gt_script.specs.Script.{completed, whole_script};
    ghost use Rattle.gt_script.specs.Script.{has_no_rights, has_body, is_misplaced};
    ghost use Rattle.gt_script.specs.Outcomes.{AddsLine, AddsLines, GivesScript};

    // Makes a script without lines, with the policy of its block if it has one.
    pub(crate) fn new(alloc: Global, command: ScriptCommand, policy: Option<Policy>) -> Script<'a>
        ensures { contents_of result ≡ starting command (option_map allowed_of policy) }
    {
        Script {
            head: ScriptHead::new(alloc, command, policy),
            steps: Vec::new(alloc),
            tasks: Vec::new(alloc),
            flags: FlagNames::new(alloc),
        }
    }

    /// Returns what precedes the body.
    pub fn head(&self) -> &ScriptHead<'a>
        ensures { result.now ≡ kept_head_in self.now }
    {
        // A field is looked at, so that the head is known to have no lines of a body.
        let head = &self.head;
        let _domains = &head.domains;
        head
    }

    /// Returns the steps of the body, in order.
    pub fn steps(&self) -> &[ScriptStep<'a>]
        ensures { result.now ≡ self.now.steps }
    {
        self.steps.as_slice()
    }

    #[tactic(auto, unfolding(crate::specs::Script::with_triple))]
    fn add_triple(&mut self, triple: &TripleLine<'a>) -> Result<(), AddError>
        ensures { AddsLine result (contents_of self.new) (with_triple (contents_of self.old) triple.now) }
    {
        let source = self.head.types.number(triple.source.as_bytes())?;
        let target = self.head.types.number(triple.target.as_bytes())?;
        let perm = triple.perm;
        self.head.triples.push(Triple {
            source,
            target,
            perm,
        })?;
        Ok(())
    }

    // Returns the number of a domain's type, which a policy has to declare. Without a policy any name is a type.
    fn type_number(&mut self, name: &'a [u8]) -> Result<TypeId, AddError>
        ensures { GivesTypeNumber (contents_of self.old) (contents_of self.new) name.entry.now result }
    {
        match &self.head.policy {
            Some(policy) => policy
                .type_spelled(name)
                .ok_or(AddError::Fault(ScriptFaultKind::Config)),
            None => self.head.types.number(name),
        }
    }

    #[tactic(auto, unfolding(crate::specs::Script::with_domain))]
    fn add_domain(&mut self, line: &DomainLine<'a>) -> Result<(), AddError>
        ensures { AddsLine result (contents_of self.new) (with_domain (contents_of self.old) line.now) }
    {
        let label = self.type_number(line.type_name.as_bytes())?;
        let Some(domain) = domain_written(line, label) else {
            return Err(AddError::Fault(ScriptFaultKind::Config));
        };
        if domain.fault(&self.head.domains).is_some() {
            return Err(AddError::Fault(ScriptFaultKind::Config));
        }
        self.head.domains.push(domain)?;
        Ok(())
    }

    #[tactic(auto, unfolding(crate::specs::Script::with_domain_line))]
    fn add_step(&mut self, line: usize, dom: DomId, asks: BodyLine<'a>) -> Result<(), AddError>
        ensures { AddsLine result (contents_of self.new)
            (with_domain_line (contents_of self.old) line dom asks.entry) }
    {
        let Some(action) = play_action_in(asks) else {
            return Err(AddError::Fault(ScriptFaultKind::Mode));
        };
        self.steps.push(ScriptStep { line, dom, action })?;
        Ok(())
    }

    #[tactic(auto, unfolding(crate::specs::Script::with_task))]
    fn add_task(&mut self, line: usize, dom: DomId, asks: BodyLine<'a>) -> Result<(), AddError>
        ensures { AddsLine result (contents_of self.new)
            (with_task (contents_of self.old) line dom asks.entry) }
    {
        let Some(run_action) = run_action_in(&mut self.flags, asks)? else {
            return Err(AddError::Fault(ScriptFaultKind::Mode));
        };
        self.tasks.push(RunTask {
            line,
            dom,
            run_action,
        })?;
        Ok(())
    }

    #[tactic(auto, unfolding(crate::specs::Script::with_body_line))]
    fn add_body(&mut self, line: usize, id: Number, asks: BodyLine<'a>) -> Result<(), AddError>
        ensures { AddsLine result (contents_of self.new)
            (with_body_line (contents_of self.old) line id asks.entry) }
    {
        let Some(dom) = configured(&self.head.domains, id) else {
            return Err(AddError::Fault(ScriptFaultKind::Config));
        };
        match self.head.command {
            ScriptCommand::Play => self.add_step(line, dom, asks),
            ScriptCommand::Run => self.add_task(line, dom, asks),
        }
    }

    #[tactic(auto, unfolding(crate::specs::Script::has_no_rights))]
    fn has_no_rights(&self) -> bool
        ensures { result ≡ has_no_rights (contents_of self.now) }
    {
        self.head.policy.is_none() && self.head.triples.is_empty()
    }

    #[tactic(auto, unfolding(crate::specs::Script::has_body))]
    fn has_body(&self) -> bool
        ensures { result ≡ has_body (contents_of self.now) }
    {
        !self.steps.is_empty() || !self.tasks.is_empty()
    }

    #[tactic(auto, unfolding(crate::specs::Script::is_misplaced))]
    fn is_misplaced(&self, line: &ScriptLine<'a>) -> bool
        ensures { result ≡ is_misplaced (contents_of self.now) line.now }
    {
        let head = &self.head;
        match line {
            ScriptLine::Triple(_) => {
                head.policy.is_some() || head.wear.is_some() || !head.domains.is_empty()
            }
            ScriptLine::Wear(_) => {
                self.has_no_rights() || head.wear.is_some() || !head.domains.is_empty()
            }
            ScriptLine::Domain(_) => self.has_no_rights() || self.has_body(),
            ScriptLine::Body { .. } => head.domains.is_empty(),
        }
    }

    #[tactic(auto, unfolding(crate::specs::Script::with_script_line))]
    fn add_line(&mut self, number: usize, line: ScriptLine<'a>) -> Result<(), AddError>
        ensures { AddsLine result (contents_of self.new)
            (with_script_line (contents_of self.old) number line.entry) }
    {
        if self.is_misplaced(&line) {
            return Err(AddError::Fault(ScriptFaultKind::Syntax));
        }
        match line {
            ScriptLine::Triple(triple) => self.add_triple(&triple),
            ScriptLine::Wear(first) => {
                let head = &mut self.head;
                head.wear = Some(first);
                Ok(())
            }
            ScriptLine::Domain(domain) => self.add_domain(&domain),
            ScriptLine::Body { id, asks } => self.add_body(number, id, asks),
        }
    }

    #[tactic(auto, unfolding(crate::specs::Script::with_words))]
    fn add_text_line(&mut self, alloc: Global, number: usize, line: &'a str) -> Result<(), AddError>
        ensures { AddsLine result (contents_of self.new)
            (with_words (contents_of self.old) number (words_in line.entry.now)) }
    {
        let words = line_words(alloc, line)?;
        if words.is_empty() {
            return Ok(());
        }
        match read_line(words.as_slice()) {
            Some(line) => self.add_line(number, line),
            None => Err(AddError::Fault(ScriptFaultKind::Syntax)),
        }
    }

    // Checks at the end of the script that there is a policy or a triple, and then that there is a domain.
    #[tactic(auto, unfolding(crate::specs::Script::completed))]
    fn check_complete(&self, count: usize) -> Result<(), ScriptError>
        requires { count < 2 ^ 64 - 1 }
        ensures { AddsLines result (contents_of self.now) (completed count (contents_of self.now)) }
    {
        let kind = if self.has_no_rights() {
            ScriptFaultKind::Syntax
        } else if self.head.domains.is_empty() {
            ScriptFaultKind::Config
        } else {
            return Ok(());
        };
        let line = count + 1;
        Err(ScriptError::Fault(ScriptFault { line, kind }))
    }

    fn add_rest(
        &mut self,
        alloc: Global,
        before: usize,
        count: usize,
        lines: &[&'a str],
    ) -> Result<(), ScriptError>
        requires { (before + length lines.now ≤ count) × (count < 2 ^ 64 - 1) }
        ensures { AddsLines result (contents_of self.new) (whole_script count (contents_of self.old) (before + 1)
            (map (λ line. line.now) lines.now)) }
    {
        for (i, line) in lines.iter().enumerate() {
            let number = before + i + 1;
            if let Err(e) = self.add_text_line(alloc, number, line) {
                return Err(e.on_line(number));
            }
        }
        self.check_complete(count)
    }

    // Adds the lines after `before` others, up to the end of a script of `count` lines.
    pub(crate) fn with_rest(
        mut self,
        alloc: Global,
        before: usize,
        count: usize,
        lines: &[&'a str],
    ) -> Result<Script<'a>, ScriptError>
        requires { (before + length lines.now ≤ count) × (count < 2 ^ 64 - 1) }
        ensures { GivesScript result (whole_script count (contents_of self.entry) (before + 1)
            (map (λ line. line.now) lines.now)) }
    {
        match self.add_rest(alloc, before, count, lines) {
            Ok(()) => Ok(self),
            Err(error) => Err(error),
        }
    }
}
