//! The commands for the parser of command lines.
ghost use Rattle.std.specs.Prelude.{◌≡◌, IfOk, false};
ghost use Rattle.clap.specs.Words.{app_of, new_app, rule_of};
ghost use Rattle.gt_command_line.specs.Rules.{IsCommand, flag_rule, free_option, free_word, needed_option, part_rule, with_part_rules};
ghost use Rattle.gt_command_line.specs.Commands.{bare_app, gthost_app, mode_app};
ghost use Rattle.gt_command_line.specs.declared.invocation.Mode.TheVariants as modes;

use crate::help::{CHECK, ENTRIES, EXPLORE, FLOW, HELP, PLAY, POLICY, RULES, RUN, WHY};
use crate::invocation::{MODES, Mode};
use clap::{Arg, ArgAction, Command};
use std::alloc::{AllocError, Global};

const VERSION: &str = "2.0.0
for rattle-kit-13f logic dac8208d650f15bf
What a script may say:
  domains of a run          1 to 64
  ID of a domain            0 to 32751, each once
  frames of a domain        1 to 64, of 4096 bytes each
  table frames of a domain  1 to 16, each of 512 entries in version 1, 256 in 2
  version of a table        1 or 2
  first generation          0 to 1048575
  bytes of a script         at most 1048576
A policy has at most 1048576 bytes, 256 types, 256 attributes and 65536 allow
statements.";

/// A word, a flag or an option of a command, with the name that messages give its value.
#[derive(Clone, Copy)]
pub(crate) enum Part {
    /// A word that may be left out.
    Word(&'static str, &'static str),
    Flag(&'static str),
    /// An option that may be left out.
    Free(&'static str, &'static str),
    /// An option that must be given.
    Needed(&'static str, &'static str),
}

const FILE: Part = Part::Word("file", "FILE");

const VERBOSE: Part = Part::Flag("verbose");

const FORMAT: Part = Part::Free("format", "text|json");

// The parts of `play` and of `run`.
static RUNNER_PARTS: [Part; 4] = [FILE, Part::Flag("audit"), VERBOSE, FORMAT];

static EXPLORE_PARTS: [Part; 15] = [
    FILE,
    Part::Flag("summary"),
    Part::Flag("races"),
    VERBOSE,
    Part::Free("find", "EXPR"),
    Part::Free("never", "EXPR"),
    Part::Free("always", "EXPR"),
    Part::Free("claims", "CLAIMS"),
    Part::Free("has", "TEXT"),
    Part::Free("witness", "N|all"),
    Part::Free("trace", "N"),
    Part::Free("diff", "K,L"),
    Part::Free("never-state", "S"),
    Part::Free("states", "N"),
    Part::Free("format", "FORM"),
];

static POLICY_PARTS: [Part; 3] = [FILE, VERBOSE, FORMAT];

static RULES_PARTS: [Part; 2] = [Part::Word("file", "RULE"), VERBOSE];

static CHECK_PARTS: [Part; 12] = [
    FILE,
    Part::Word("file2", "FILE"),
    Part::Word("file3", "FILE"),
    Part::Word("file4", "FILE"),
    Part::Word("file5", "FILE"),
    Part::Word("file6", "FILE"),
    Part::Word("file7", "FILE"),
    Part::Word("file8", "FILE"),
    Part::Flag("script"),
    VERBOSE,
    Part::Free("never", "NEVER"),
    FORMAT,
];

static WHY_PARTS: [Part; 6] = [
    Part::Word("source", "SOURCE"),
    Part::Word("target", "TARGET"),
    Part::Word("permission", "PERMISSION"),
    FILE,
    Part::Flag("each"),
    VERBOSE,
];

static FLOW_PARTS: [Part; 7] = [
    Part::Word("source", "SOURCE"),
    Part::Word("target", "TARGET"),
    FILE,
    Part::Flag("script"),
    VERBOSE,
    Part::Free("trust", "TYPES"),
    FORMAT,
];

static ENTRIES_PARTS: [Part; 7] = [
    FILE,
    Part::Flag("hex"),
    Part::Flag("all"),
    VERBOSE,
    Part::Needed("version", "1|2"),
    Part::Free("script", "DOM"),
    FORMAT,
];

/// Returns the parts of a command.
pub(crate) fn parts_of(mode: Mode) -> &'static [Part] {
    match mode {
        Mode::Play | Mode::Run => &RUNNER_PARTS,
        Mode::Explore => &EXPLORE_PARTS,
        Mode::Policy => &POLICY_PARTS,
        Mode::Rules => &RULES_PARTS,
        Mode::Check => &CHECK_PARTS,
        Mode::Why => &WHY_PARTS,
        Mode::Flow => &FLOW_PARTS,
        Mode::Entries => &ENTRIES_PARTS,
    }
}

// Makes a word that may be left out.
fn free_word<'a>(alloc: Global, id: &'a str, name: &'a str) -> Arg<'a>
    ensures rule { rule_of result ≡ free_word id.entry.now }
    ensures local { result.global ≡ false }
{
    Arg::new(alloc, id).value_name(name)
}

fn flag<'a>(alloc: Global, name: &'a str) -> Arg<'a>
    ensures rule { rule_of result ≡ flag_rule name.entry.now }
    ensures local { result.global ≡ false }
{
    Arg::new(alloc, name).long(name).action(ArgAction::SetTrue)
}

// Makes an option that may be left out.
fn free_option<'a>(alloc: Global, id: &'a str, name: &'a str) -> Arg<'a>
    ensures rule { rule_of result ≡ free_option id.entry.now }
    ensures local { result.global ≡ false }
{
    Arg::new(alloc, id).long(id).value_name(name)
}

// Makes an option that must be given.
fn needed_option<'a>(alloc: Global, id: &'a str, name: &'a str) -> Arg<'a>
    ensures rule { rule_of result ≡ needed_option id.entry.now }
    ensures local { result.global ≡ false }
{
    free_option(alloc, id, name).required(true)
}

// Makes a part of a command.
fn arg_of<'a>(alloc: Global, part: Part) -> Arg<'a>
    ensures rule { rule_of result ≡ part_rule part }
    ensures local { result.global ≡ false }
{
    match part {
        Part::Word(id, name) => free_word(alloc, id, name),
        Part::Flag(name) => flag(alloc, name),
        Part::Free(id, name) => free_option(alloc, id, name),
        Part::Needed(id, name) => needed_option(alloc, id, name),
    }
}

// Makes a command with these parts.
fn command_with<'a>(
    alloc: Global,
    name: &'a str,
    help: &'a str,
    parts: &[Part],
) -> Result<Command<'a>, AllocError>
    ensures { IfOk result (λ c. IsCommand c (with_part_rules (new_app name.entry.now) parts.now)) }
{
    let mut command = Command::new(alloc, name).override_help(help);
    'parts: for part in parts {
        command = command.arg(arg_of(alloc, *part))?;
    }
    Ok(command)
}

#[tactic(auto, unfolding(crate::specs::Rules::with_part_rules))]
fn check_command<'a>(alloc: Global) -> Result<Command<'a>, AllocError>
    ensures { IfOk result (λ c. IsCommand c (mode_app modes.Check)) }
{
    let command = command_with(alloc, "check", CHECK, &CHECK_PARTS)?;
    Ok(command.override_usage("gthost check [OPTIONS] [FILE]..."))
}

// Makes a command of the program.
#[tactic(auto, unfolding(crate::specs::Rules::with_part_rules))]
fn mode_command<'a>(alloc: Global, mode: Mode) -> Result<Command<'a>, AllocError>
    ensures { IfOk result (λ c. IsCommand c (mode_app mode)) }
{
    match mode {
        Mode::Play => command_with(alloc, "play", PLAY, &RUNNER_PARTS),
        Mode::Run => command_with(alloc, "run", RUN, &RUNNER_PARTS),
        Mode::Explore => command_with(alloc, "explore", EXPLORE, &EXPLORE_PARTS),
        Mode::Policy => command_with(alloc, "policy", POLICY, &POLICY_PARTS),
        Mode::Rules => command_with(alloc, "rules", RULES, &RULES_PARTS),
        Mode::Check => check_command(alloc),
        Mode::Why => command_with(alloc, "why", WHY, &WHY_PARTS),
        Mode::Flow => command_with(alloc, "flow", FLOW, &FLOW_PARTS),
        Mode::Entries => command_with(alloc, "entries", ENTRIES, &ENTRIES_PARTS),
    }
}

// Makes the program without its commands.
fn bare_command<'a>(alloc: Global) -> Command<'a>
    ensures { IsCommand result bare_app }
{
    Command::new(alloc, "gthost")
        .override_help(HELP)
        .version(VERSION)
        .subcommand_required(true)
        .disable_help_subcommand(true)
}

/// Makes the program with its commands.
pub(crate) fn gthost_command<'a>(alloc: Global) -> Result<Command<'a>, AllocError>
    ensures { IfOk result (λ c. app_of c ≡ gthost_app) }
{
    let mut command = bare_command(alloc);
    'modes: for mode in &MODES {
        command = command.subcommand(mode_command(alloc, *mode)?)?;
    }
    Ok(command)
}
