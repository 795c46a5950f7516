//! From the words of a command line to a plan.
ghost use Rattle.std.specs.Prelude.{◌≡◌, IfOk, IfErr, map, drop, find, string_bytes};
ghost use Rattle.std.specs.Str.{bytes_eq};
ghost use Rattle.std.specs.Option.{option_map};
ghost use Rattle.clap.specs.Words.{subcommand_of, rows_of, found_of, first_of, kind_of};
ghost use Rattle.clap.specs.declared.error.kind.ErrorKind.TheVariants.{InvalidValue, OutOfMemory};
ghost use Rattle.gt_command_line.specs.Files.{file_names_of};
ghost use Rattle.gt_command_line.specs.Usage.{is_true};
ghost use Rattle.gt_command_line.specs.Commands.{request_in_words, asked_by_some, asked_named, command_name};
ghost use Rattle.gt_command_line.specs.Commands.{IsInvocationOf, IsPlanOf, gthost_app, mode_of, more_files, read};
ghost use Rattle.gt_command_line.specs.declared.invocation.Mode.TheVariants as modes;

use crate::commands::{
    check_with, entries_with, flow_with, list_with, play_with, run_with, why_with,
};
use crate::exploring::{explore_with, formed_of, one_sought};
use crate::invocation::{Invocation, MODES, Mode, MoreFiles};
use crate::line::gthost_command;
use crate::values::{
    claim_of, claims_of, diff_of, form_of, format_of, script_of, sought_too, state_claim_of,
    states_of, summary_of, trace_of, version_of, with_races, witness_of,
};
use clap::error::ErrorKind;
use clap::{ArgMatches, Error};
use std::alloc::{AllocError, Global};

// Returns the first of these commands that has this name.
fn named_among(modes: &[Mode], name: &str) -> Option<Mode>
    ensures { result ≡ find (λ mode. bytes_eq (command_name mode) name.now) modes.now }
{
    'modes: for mode in modes {
        if mode.name() == name {
            return Some(*mode);
        }
    }
    None
}

/// Returns the command of this name, if there is one.
pub fn mode_of(name: &str) -> Option<Mode>
    ensures { result ≡ mode_of name.now }
{
    named_among(&MODES, name)
}

// Returns the value that was given under a name.
fn value_of<'a>(matches: &ArgMatches<'a>, id: &str) -> Option<&'a str>
    ensures { option_map (λ v. v.now) result ≡ first_of id.now (rows_of (found_of matches.now)) }
{
    matches.get_str(id)
}

// Returns whether a flag was given.
fn is_set(matches: &ArgMatches<'_>, id: &str) -> bool
    ensures { result ≡ is_true (first_of id.now (rows_of (found_of matches.now))) }
{
    match value_of(matches, id) {
        Some(text) => text == "true",
        None => false,
    }
}

// Returns the FILEs of `check` after the first.
fn more_files<'a>(matches: &ArgMatches<'a>) -> MoreFiles<'a>
    ensures { file_names_of result ≡ map (λ id. first_of id (rows_of (found_of matches.now))) more_files }
{
    MoreFiles {
        second: value_of(matches, "file2"),
        third: value_of(matches, "file3"),
        fourth: value_of(matches, "file4"),
        fifth: value_of(matches, "file5"),
        sixth: value_of(matches, "file6"),
        seventh: value_of(matches, "file7"),
        eighth: value_of(matches, "file8"),
    }
}

// Returns what the values of `explore` ask for, or None if it doesn't take one of them.
fn read_explore<'a>(matches: &ArgMatches<'a>) -> Option<Invocation<'a>>
    ensures { asked_by_some result ≡ read modes.Explore (λ id. first_of id (rows_of (found_of matches.now))) }
{
    let one = claim_of(
        value_of(matches, "find"),
        value_of(matches, "never"),
        value_of(matches, "always"),
    );
    let claim = claims_of(one, value_of(matches, "claims"));
    let witness = witness_of(value_of(matches, "witness"));
    let trace = trace_of(value_of(matches, "trace"));
    let summary = summary_of(is_set(matches, "summary"));
    let diff = diff_of(value_of(matches, "diff"));
    let state = state_claim_of(value_of(matches, "never-state"));
    let texts = sought_too(sought_too(one_sought(claim, witness, trace), summary), diff);
    let sought = with_races(is_set(matches, "races"), sought_too(texts, state));
    let form = form_of(value_of(matches, "format"));
    explore_with(
        formed_of(sought, form),
        value_of(matches, "has"),
        states_of(value_of(matches, "states")),
        value_of(matches, "file"),
    )
}

// Returns what the values of `why` ask for, or None if it doesn't take one of them.
fn read_why<'a>(matches: &ArgMatches<'a>) -> Option<Invocation<'a>>
    ensures { asked_by_some result ≡ read modes.Why (λ id. first_of id (rows_of (found_of matches.now))) }
{
    let each = is_set(matches, "each");
    why_with(
        value_of(matches, "source"),
        value_of(matches, "target"),
        value_of(matches, "permission"),
        each,
        value_of(matches, "file"),
    )
}

// Returns what the values of `flow` ask for, or None if it doesn't take one of them.
fn read_flow<'a>(matches: &ArgMatches<'a>) -> Option<Invocation<'a>>
    ensures { asked_by_some result ≡ read modes.Flow (λ id. first_of id (rows_of (found_of matches.now))) }
{
    let format = format_of(value_of(matches, "format"));
    let script = is_set(matches, "script");
    flow_with(
        format,
        script,
        value_of(matches, "source"),
        value_of(matches, "target"),
        value_of(matches, "trust"),
        value_of(matches, "file"),
    )
}

// Returns what the values of a command ask for, or None if the command doesn't take one of them.
fn read<'a>(mode: Mode, matches: &ArgMatches<'a>) -> Option<Invocation<'a>>
    ensures { asked_by_some result ≡ read mode (λ id. first_of id (rows_of (found_of matches.now))) }
{
    let file = value_of(matches, "file");
    let format = format_of(value_of(matches, "format"));
    match mode {
        Mode::Play => play_with(
            format,
            is_set(matches, "audit"),
            is_set(matches, "verbose"),
            file,
        ),
        Mode::Run => run_with(
            format,
            is_set(matches, "audit"),
            is_set(matches, "verbose"),
            file,
        ),
        Mode::Explore => read_explore(matches),
        Mode::Policy => list_with(format, is_set(matches, "verbose"), file),
        Mode::Rules => Some(Invocation::Rules { rule: file }),
        Mode::Check => check_with(
            format,
            is_set(matches, "script"),
            value_of(matches, "never"),
            file,
            more_files(matches),
        ),
        Mode::Why => read_why(matches),
        Mode::Flow => read_flow(matches),
        Mode::Entries => entries_with(
            version_of(value_of(matches, "version")),
            script_of(value_of(matches, "script")),
            format,
            is_set(matches, "hex"),
            is_set(matches, "all"),
            file,
        ),
    }
}

// Returns what the command of this name asks for.
fn named<'a>(name: &str, matches: &ArgMatches<'a>) -> Option<Invocation<'a>>
    ensures { asked_by_some result ≡ asked_named name.now (rows_of (found_of matches.now)) }
{
    match mode_of(name) {
        Some(mode) => read(mode, matches),
        None => None,
    }
}

// Makes the error for a value that an option does not take.
fn value_error(alloc: Global, usage: &str, message: &str) -> Result<Error, Error>
    ensures ok { IfOk result (λ e. kind_of e ≡ InvalidValue) }
    ensures memory { IfErr result (λ e. kind_of e ≡ OutOfMemory) }
{
    let mut command = gthost_command(alloc)?.override_usage(usage);
    let error = command.error(ErrorKind::InvalidValue, message)?;
    Ok(error)
}

/// Returns the usage of a command, or of the program.
pub(crate) fn usage_text(mode: Option<Mode>) -> &'static str {
    match mode {
        Some(Mode::Play) => "gthost play [OPTIONS] [FILE]",
        Some(Mode::Run) => "gthost run [OPTIONS] [FILE]",
        Some(Mode::Explore) => "gthost explore [OPTIONS] [FILE]",
        Some(Mode::Policy) => "gthost policy [OPTIONS] [FILE]",
        Some(Mode::Rules) => "gthost rules [OPTIONS] [RULE]",
        Some(Mode::Check) => "gthost check [OPTIONS] [FILE]...",
        Some(Mode::Why) => "gthost why [OPTIONS] [SOURCE] [TARGET] [PERMISSION] [FILE]",
        Some(Mode::Flow) => "gthost flow [OPTIONS] [SOURCE] [TARGET] [FILE]",
        Some(Mode::Entries) => "gthost entries [OPTIONS] --version <1|2> [FILE]",
        None => "gthost <COMMAND>",
    }
}

// The refusal of options that don't go together.
const ONE_ALONE: &str =
    "only claims (--find, --never, --always), or one of --claims, --never-state, --races, --has, \
    --witness, --trace, --summary and --diff can be given, or --races with --witness";

// Returns what the option of `explore` takes whose value is refused, and the value.
fn refused_by_explore<'a>(matches: &ArgMatches<'a>) -> (&'static str, Option<&'a str>) {
    let witness = value_of(matches, "witness");
    let trace = value_of(matches, "trace");
    let diff = value_of(matches, "diff");
    let states = value_of(matches, "states");
    let format = value_of(matches, "format");
    if witness_of(witness).is_none() {
        ("--witness takes a number or all", witness)
    } else if trace_of(trace).is_none() {
        ("--trace takes a number", trace)
    } else if diff_of(diff).is_none() {
        ("--diff takes two numbers, such as 1,2", diff)
    } else if states_of(states).is_none() {
        ("--states takes a number in digits, such as 1000000", states)
    } else if form_of(format).is_none() {
        ("--format takes text, json or mermaid", format)
    } else if format == Some("mermaid") && trace.is_none() {
        ("--format mermaid is only for --trace", None)
    } else if format == Some("json") && value_of(matches, "never-state").is_some() {
        ("--format json is not for --never-state", None)
    } else if format == Some("json") && is_set(matches, "races") {
        ("--format json is not for --races", None)
    } else if is_set(matches, "races") && witness == Some("all") {
        ("--witness takes a number with --races", witness)
    } else {
        (ONE_ALONE, None)
    }
}

// Returns what `--format` takes, and its value.
fn refused_format<'a>(matches: &ArgMatches<'a>) -> (&'static str, Option<&'a str>) {
    ("--format takes text or json", value_of(matches, "format"))
}

// Returns what the option of `check` takes whose value is refused, and the value.
fn refused_by_check<'a>(matches: &ArgMatches<'a>) -> (&'static str, Option<&'a str>) {
    if is_set(matches, "script") && value_of(matches, "never").is_some() {
        ("only one of --script and --never can be given", None)
    } else {
        refused_format(matches)
    }
}

// Returns what the option of `entries` takes whose value is refused, and the value.
fn refused_by_entries<'a>(matches: &ArgMatches<'a>) -> (&'static str, Option<&'a str>) {
    let version = value_of(matches, "version");
    let script = value_of(matches, "script");
    if version_of(version).is_none() {
        ("--version takes 1 or 2", version)
    } else if script_of(script).is_none() {
        (
            "--script takes the number of a domain, at most 32751",
            script,
        )
    } else if script.is_some() && value_of(matches, "format") == Some("json") {
        ("only one of --script and --format json can be given", None)
    } else {
        refused_format(matches)
    }
}

// Returns what the words of `flow` are, or what its option takes whose value is refused, and the value.
fn refused_by_flow<'a>(matches: &ArgMatches<'a>) -> (&'static str, Option<&'a str>) {
    if value_of(matches, "target").is_none() {
        (
            "flow takes SOURCE and TARGET, each a type, an attribute or -",
            None,
        )
    } else {
        refused_format(matches)
    }
}

// Returns what the option takes whose value a command refuses, and the value.
fn refused_value<'a>(
    mode: Option<Mode>,
    matches: &ArgMatches<'a>,
) -> (&'static str, Option<&'a str>) {
    match mode {
        Some(Mode::Explore) => refused_by_explore(matches),
        Some(Mode::Check) => refused_by_check(matches),
        Some(Mode::Entries) => refused_by_entries(matches),
        Some(Mode::Why) => (
            "why takes SOURCE, TARGET and PERMISSION, or one FILE and questions on standard input",
            None,
        ),
        Some(Mode::Flow) => refused_by_flow(matches),
        _ => refused_format(matches),
    }
}

// Makes the message for a value that a command refuses.
fn value_message(
    alloc: Global,
    mode: Option<Mode>,
    matches: &ArgMatches<'_>,
) -> Result<String, AllocError> {
    let (takes, value) = refused_value(mode, matches);
    match value {
        Some(value) => format!(in alloc; "{takes}, not '{value}'"),
        None => String::from_str(alloc, takes),
    }
}

// Makes the error for a value that a command refuses.
fn refusal(alloc: Global, mode: Option<Mode>, matches: &ArgMatches<'_>) -> Result<Error, Error>
    ensures ok { IfOk result (λ e. kind_of e ≡ InvalidValue) }
    ensures memory { IfErr result (λ e. kind_of e ≡ OutOfMemory) }
{
    let message = value_message(alloc, mode, matches)?;
    value_error(alloc, usage_text(mode), message.as_str())
}

// Returns what the command of this name asks for, or the error for a value that it does not take.
#[tactic(auto, using(crate::proofs::Planned::planned_some, crate::proofs::Planned::planned_none))]
fn planned<'a>(alloc: Global, name: &str, matches: &ArgMatches<'a>) -> Result<Invocation<'a>, Error>
    ensures { IsInvocationOf (asked_named name.now (rows_of (found_of matches.now))) result }
{
    match named(name, matches) {
        Some(invocation) => Ok(invocation),
        None => match refusal(alloc, mode_of(name), matches) {
            Ok(error) => Err(error),
            Err(error) => Err(error),
        },
    }
}

/// Returns what the words of a command line, the program's name first, ask for.
///
/// # Errors
/// A line that asks for a command is refused only if an allocation fails. Any other error prints as the help that was
/// asked for, or as the text for standard error.
pub fn plan<'a>(alloc: Global, words: &'a [String]) -> Result<Invocation<'a>, Error>
    ensures answers { IsInvocationOf (request_in_words (drop 1 (map string_bytes words.entry.now))) result }
    ensures matches { IfOk result (λ p. IsPlanOf p (subcommand_of gthost_app (map string_bytes words.entry.now))) }
{
    let command = gthost_command(alloc)?;
    let matches = command.try_get_matches_from(words)?;
    match matches.subcommand() {
        Some((name, matches)) => planned(alloc, name, matches),
        None => unreachable!(),
    }
}
