//! Plans of each command but `explore`, by the values of its options.
ghost use Rattle.std.specs.Prelude.{◌≡◌};
ghost use Rattle.std.specs.Option.{option_map};
ghost use Rattle.gt_command_line.specs.Files.{file_names_of};
ghost use Rattle.gt_command_line.specs.Commands.{asked_by_some, check_with, entries_with, flow_with, list_with};
ghost use Rattle.gt_command_line.specs.Commands.{play_with, run_with, why_with};

use crate::invocation::{
    CheckedFiles, EntriesOptions, FlowOptions, Format, Invocation, MoreFiles, ScriptOptions,
};
use crate::values::type_of;

/// Plans `play`. Returns None if the option for the format does not take its value.
pub(crate) fn play_with<'a>(
    format: Option<Format>,
    audit: bool,
    verbose: bool,
    file: Option<&'a str>,
) -> Option<Invocation<'a>>
    ensures { asked_by_some result ≡ play_with format audit verbose (option_map (λ v. v.now) file.entry) }
{
    match format {
        Some(format) => Some(Invocation::Play(ScriptOptions {
            audit,
            verbose,
            format,
            file,
        })),
        None => None,
    }
}

/// Plans `run`. Returns None if the option for the format does not take its value.
pub(crate) fn run_with<'a>(
    format: Option<Format>,
    audit: bool,
    verbose: bool,
    file: Option<&'a str>,
) -> Option<Invocation<'a>>
    ensures { asked_by_some result ≡ run_with format audit verbose (option_map (λ v. v.now) file.entry) }
{
    match format {
        Some(format) => Some(Invocation::Run(ScriptOptions {
            audit,
            verbose,
            format,
            file,
        })),
        None => None,
    }
}

/// Plans `policy`. Returns None if the option for the format does not take its value.
pub(crate) fn list_with<'a>(
    format: Option<Format>,
    verbose: bool,
    file: Option<&'a str>,
) -> Option<Invocation<'a>>
    ensures { asked_by_some result ≡ list_with format verbose (option_map (λ v. v.now) file.entry) }
{
    match format {
        Some(format) => Some(Invocation::Policy {
            verbose,
            format,
            file,
        }),
        None => None,
    }
}

/// Plans `check`. Returns None if an option does not take its value, or if `--script` and `--never` are given together.
pub(crate) fn check_with<'a>(
    format: Option<Format>,
    script: bool,
    never: Option<&'a str>,
    file: Option<&'a str>,
    more: MoreFiles<'a>,
) -> Option<Invocation<'a>>
    ensures { asked_by_some result ≡ check_with format script (option_map (λ v. v.now) never.entry)
        (option_map (λ v. v.now) file.entry) (file_names_of more.entry) }
{
    match (format, never, script) {
        (Some(format), None, script) => Some(Invocation::Check {
            script,
            files: CheckedFiles { format, file, more },
        }),
        (Some(format), Some(never), false) => Some(Invocation::CheckNever {
            never,
            files: CheckedFiles { format, file, more },
        }),
        _ => None,
    }
}

/// Plans `why`, by a question or by lines of a file. Returns None if words of the question are missing.
pub(crate) fn why_with<'a>(
    source: Option<&'a str>,
    target: Option<&'a str>,
    permission: Option<&'a str>,
    each: bool,
    file: Option<&'a str>,
) -> Option<Invocation<'a>>
    ensures { asked_by_some result ≡ why_with (option_map (λ v. v.now) source.entry)
        (option_map (λ v. v.now) target.entry) (option_map (λ v. v.now) permission.entry) each
        (option_map (λ v. v.now) file.entry) }
{
    match (source, target, permission, file) {
        (Some(source), Some(target), Some(permission), file) => Some(Invocation::Why {
            source: type_of(Some(source)),
            target: type_of(Some(target)),
            permission: type_of(Some(permission)),
            each,
            file,
        }),
        (Some(file), None, None, None) => Some(Invocation::WhyLines { each, file }),
        _ => None,
    }
}

/// Plans `flow`. Returns None if the option for the format does not take its value, or if a type is missing.
pub(crate) fn flow_with<'a>(
    format: Option<Format>,
    script: bool,
    source: Option<&'a str>,
    target: Option<&'a str>,
    trusted: Option<&'a str>,
    file: Option<&'a str>,
) -> Option<Invocation<'a>>
    ensures { asked_by_some result ≡ flow_with format script (option_map (λ v. v.now) source.entry)
        (option_map (λ v. v.now) target.entry) (option_map (λ v. v.now) trusted.entry)
        (option_map (λ v. v.now) file.entry) }
{
    match (format, source, target) {
        (Some(format), Some(source), Some(target)) => Some(Invocation::Flow {
            source: type_of(Some(source)),
            target: type_of(Some(target)),
            options: FlowOptions {
                script,
                trusted,
                format,
            },
            file,
        }),
        _ => None,
    }
}

/// Plans `entries`. Returns None if an option does not take its value, or if a script is asked for as JSON.
pub(crate) fn entries_with<'a>(
    version: Option<u8>,
    script: Option<Option<u16>>,
    format: Option<Format>,
    hex: bool,
    all: bool,
    file: Option<&'a str>,
) -> Option<Invocation<'a>>
    ensures { asked_by_some result ≡ entries_with version script format hex all
        (option_map (λ v. v.now) file.entry) }
{
    match (version, script, format) {
        (Some(_), Some(Some(_)), Some(Format::Json)) => None,
        (Some(version), Some(script), Some(format)) => Some(Invocation::Entries {
            dump: EntriesOptions {
                version,
                hex,
                all,
                script,
            },
            format,
            file,
        }),
        _ => None,
    }
}
