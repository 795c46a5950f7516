//! Command lines, and their plans.
use crate::words::words_of;
use gt_command_line::{
    CheckedFiles, EntriesOptions, Exploration, Format, Invocation, MoreFiles, ScriptOptions,
    SearchOptions, plan,
};
use gt_explore_verdict::Claim;
use std::test::Fail;

// No further FILEs.
const NO_MORE: MoreFiles<'static> = MoreFiles {
    second: None,
    third: None,
    fourth: None,
    fifth: None,
    sixth: None,
    seventh: None,
    eighth: None,
};

// The options without flags, for the standard input.
const PLAIN: ScriptOptions<'static> = ScriptOptions {
    audit: false,
    verbose: false,
    format: Format::Text,
    file: None,
};

const SEARCH: SearchOptions<'static> = SearchOptions {
    states: 1_000_000,
    format: Format::Text,
    file: None,
};

const FILES: CheckedFiles<'static> = CheckedFiles {
    format: Format::Text,
    file: None,
    more: NO_MORE,
};

const DUMP: EntriesOptions = EntriesOptions {
    version: 1,
    hex: false,
    all: false,
    script: None,
};

static PLANS: [(&str, Invocation<'static>); 48] = [
    ("gthost play", Invocation::Play(PLAIN)),
    (
        "gthost play first.gt",
        Invocation::Play(ScriptOptions {
            file: Some("first.gt"),
            ..PLAIN
        }),
    ),
    (
        "gthost play -",
        Invocation::Play(ScriptOptions {
            file: Some("-"),
            ..PLAIN
        }),
    ),
    (
        "gthost play -- --help",
        Invocation::Play(ScriptOptions {
            file: Some("--help"),
            ..PLAIN
        }),
    ),
    (
        "gthost play first.gt --",
        Invocation::Play(ScriptOptions {
            file: Some("first.gt"),
            ..PLAIN
        }),
    ),
    (
        "gthost policy",
        Invocation::Policy {
            verbose: false,
            format: Format::Text,
            file: None,
        },
    ),
    (
        "gthost check a.te b.te --format json c.te",
        Invocation::Check {
            script: false,
            files: CheckedFiles {
                format: Format::Json,
                file: Some("a.te"),
                more: MoreFiles {
                    second: Some("b.te"),
                    third: Some("c.te"),
                    ..NO_MORE
                },
            },
        },
    ),
    (
        "gthost why a.te",
        Invocation::WhyLines {
            each: false,
            file: "a.te",
        },
    ),
    (
        "gthost why a_t - - a.te",
        Invocation::Why {
            source: Some("a_t"),
            target: None,
            permission: None,
            each: false,
            file: Some("a.te"),
        },
    ),
    (
        "gthost policy --verbose a.te",
        Invocation::Policy {
            verbose: true,
            format: Format::Text,
            file: Some("a.te"),
        },
    ),
    (
        "gthost policy play",
        Invocation::Policy {
            verbose: false,
            format: Format::Text,
            file: Some("play"),
        },
    ),
    (
        "gthost play policy",
        Invocation::Play(ScriptOptions {
            file: Some("policy"),
            ..PLAIN
        }),
    ),
    (
        "gthost play --audit",
        Invocation::Play(ScriptOptions {
            audit: true,
            ..PLAIN
        }),
    ),
    (
        "gthost play --audit a.gt",
        Invocation::Play(ScriptOptions {
            audit: true,
            file: Some("a.gt"),
            ..PLAIN
        }),
    ),
    (
        "gthost play a.gt --audit",
        Invocation::Play(ScriptOptions {
            audit: true,
            file: Some("a.gt"),
            ..PLAIN
        }),
    ),
    (
        "gthost run a.gt",
        Invocation::Run(ScriptOptions {
            file: Some("a.gt"),
            ..PLAIN
        }),
    ),
    ("gthost rules N19", Invocation::Rules { rule: Some("N19") }),
    (
        "gthost check",
        Invocation::Check {
            script: false,
            files: FILES,
        },
    ),
    (
        "gthost check --format json a.te",
        Invocation::Check {
            script: false,
            files: CheckedFiles {
                format: Format::Json,
                file: Some("a.te"),
                ..FILES
            },
        },
    ),
    (
        "gthost check a.te --format=text",
        Invocation::Check {
            script: false,
            files: CheckedFiles {
                file: Some("a.te"),
                ..FILES
            },
        },
    ),
    (
        "gthost why driver_t - map_read",
        Invocation::Why {
            source: Some("driver_t"),
            target: None,
            permission: Some("map_read"),
            each: false,
            file: None,
        },
    ),
    (
        "gthost why - guest_t copy a.te",
        Invocation::Why {
            source: None,
            target: Some("guest_t"),
            permission: Some("copy"),
            each: false,
            file: Some("a.te"),
        },
    ),
    (
        "gthost why --each driver_t guest copy a.te",
        Invocation::Why {
            source: Some("driver_t"),
            target: Some("guest"),
            permission: Some("copy"),
            each: true,
            file: Some("a.te"),
        },
    ),
    (
        "gthost entries --version 1",
        Invocation::Entries {
            dump: DUMP,
            format: Format::Text,
            file: None,
        },
    ),
    (
        "gthost entries --hex --version=2 a.hex --all",
        Invocation::Entries {
            dump: EntriesOptions {
                version: 2,
                hex: true,
                all: true,
                ..DUMP
            },
            format: Format::Text,
            file: Some("a.hex"),
        },
    ),
    (
        "gthost entries --script 7 --version 1 -- --all",
        Invocation::Entries {
            dump: EntriesOptions {
                script: Some(7),
                ..DUMP
            },
            format: Format::Text,
            file: Some("--all"),
        },
    ),
    (
        "gthost entries --version 1 --script 32751",
        Invocation::Entries {
            dump: EntriesOptions {
                script: Some(32_751),
                ..DUMP
            },
            format: Format::Text,
            file: None,
        },
    ),
    (
        "gthost entries --version 1 --script=0 -",
        Invocation::Entries {
            dump: EntriesOptions {
                script: Some(0),
                ..DUMP
            },
            format: Format::Text,
            file: Some("-"),
        },
    ),
    (
        "gthost play --format json --audit a.gt",
        Invocation::Play(ScriptOptions {
            audit: true,
            format: Format::Json,
            file: Some("a.gt"),
            ..PLAIN
        }),
    ),
    (
        "gthost run a.gt --format=json",
        Invocation::Run(ScriptOptions {
            format: Format::Json,
            file: Some("a.gt"),
            ..PLAIN
        }),
    ),
    (
        "gthost policy --format json",
        Invocation::Policy {
            verbose: false,
            format: Format::Json,
            file: None,
        },
    ),
    (
        "gthost check --script a.gt",
        Invocation::Check {
            script: true,
            files: CheckedFiles {
                file: Some("a.gt"),
                ..FILES
            },
        },
    ),
    (
        "gthost entries --version 2 --format json",
        Invocation::Entries {
            dump: EntriesOptions { version: 2, ..DUMP },
            format: Format::Json,
            file: None,
        },
    ),
    (
        "gthost play --verbose a.gt --audit",
        Invocation::Play(ScriptOptions {
            audit: true,
            verbose: true,
            file: Some("a.gt"),
            ..PLAIN
        }),
    ),
    (
        "gthost run --format json --verbose",
        Invocation::Run(ScriptOptions {
            verbose: true,
            format: Format::Json,
            ..PLAIN
        }),
    ),
    (
        "gthost explore",
        Invocation::Explore {
            asked: Exploration::Texts,
            options: SEARCH,
        },
    ),
    (
        "gthost explore --find N18 --states 500 a.gt",
        Invocation::Explore {
            asked: Exploration::Decide {
                claim: Claim::Find,
                expression: "N18",
            },
            options: SearchOptions {
                states: 500,
                file: Some("a.gt"),
                ..SEARCH
            },
        },
    ),
    (
        "gthost explore --never 12=N19 a.gt",
        Invocation::Explore {
            asked: Exploration::Decide {
                claim: Claim::Never,
                expression: "12=N19",
            },
            options: SearchOptions {
                file: Some("a.gt"),
                ..SEARCH
            },
        },
    ),
    (
        "gthost explore --claims=never~12=N19 a.gt",
        Invocation::Explore {
            asked: Exploration::Claims("never~12=N19"),
            options: SearchOptions {
                file: Some("a.gt"),
                ..SEARCH
            },
        },
    ),
    (
        "gthost explore --has seen.text --states 9",
        Invocation::ExploreHas {
            given: "seen.text",
            options: SearchOptions {
                states: 9,
                ..SEARCH
            },
        },
    ),
    (
        "gthost check --never never.te a.te",
        Invocation::CheckNever {
            never: "never.te",
            files: CheckedFiles {
                file: Some("a.te"),
                ..FILES
            },
        },
    ),
    (
        "gthost explore a.gt --witness=3",
        Invocation::Explore {
            asked: Exploration::Witness(3),
            options: SearchOptions {
                file: Some("a.gt"),
                ..SEARCH
            },
        },
    ),
    (
        "gthost explore --states=18446744073709551615 --witness +0",
        Invocation::Explore {
            asked: Exploration::Witness(0),
            options: SearchOptions {
                states: usize::MAX,
                ..SEARCH
            },
        },
    ),
    (
        "gthost explore --trace 2 --format json a.gt",
        Invocation::Explore {
            asked: Exploration::Trace(2),
            options: SearchOptions {
                format: Format::Json,
                file: Some("a.gt"),
                ..SEARCH
            },
        },
    ),
    (
        "gthost explore --format=mermaid --trace=1",
        Invocation::Explore {
            asked: Exploration::Diagram(1),
            options: SEARCH,
        },
    ),
    (
        "gthost explore --summary",
        Invocation::Explore {
            asked: Exploration::Summary,
            options: SEARCH,
        },
    ),
    (
        "gthost explore --diff 2,13",
        Invocation::Explore {
            asked: Exploration::Difference(2, 13),
            options: SEARCH,
        },
    ),
    (
        "gthost explore --never-state 1.0:rw --states=9",
        Invocation::Explore {
            asked: Exploration::NeverState("1.0:rw"),
            options: SearchOptions {
                states: 9,
                ..SEARCH
            },
        },
    ),
];

#[test]
fn a_line_is_planned_as_it_asks(rt: HostRuntime) -> Result<(), Fail> {
    let alloc = rt.alloc();
    for (line, wanted) in PLANS.iter() {
        let words = words_of(alloc, line)?;
        match plan(alloc, words.as_slice()) {
            Ok(invocation) => assert!(rt; invocation == *wanted),
            Err(_) => assert!(rt; false),
        }
    }
    Ok(())
}

// Lines without a plan, and whether they are faults.
static REFUSED: [(&str, bool); 63] = [
    ("gthost --help", false),
    ("gthost --version", false),
    ("gthost -h", false),
    ("gthost -V", false),
    ("gthost play --version", true),
    ("gthost play -h", false),
    ("gthost policy --help", false),
    ("gthost policy a.te b.te", true),
    ("gthost policy --audit", true),
    ("gthost", true),
    ("gthost help", true),
    ("gthost play first.gt second.gt", true),
    ("gthost play --audit --audit", true),
    ("gthost play --audit=yes", true),
    ("gthost -- play", true),
    ("gthost check --format", true),
    ("gthost check --format xml", true),
    ("gthost check --format text --format text", true),
    ("gthost check --format xml --help", false),
    ("gthost check --format --help", true),
    ("gthost check --format -- a.te", true),
    ("gthost play --format yaml", true),
    ("gthost policy --format json --format json", true),
    ("gthost rules --format json", true),
    ("gthost why --format json driver_t - copy", true),
    ("gthost check --script --script", true),
    ("gthost why driver_t guest_t", true),
    ("gthost why driver_t guest_t copy a.te b.te", true),
    ("gthost why --help", false),
    ("gthost entries", true),
    ("gthost entries --version", true),
    ("gthost entries --version 3", true),
    ("gthost entries --version 01", true),
    ("gthost entries --version 1 --version 2", true),
    ("gthost entries --version 1 --hex --hex", true),
    ("gthost entries --version 1 --script self", true),
    ("gthost entries --version 1 --script 32752", true),
    ("gthost entries --version 1 --script 65536", true),
    ("gthost entries --version 1 --script 1 --format json", true),
    ("gthost entries --version 1 --script=-1", true),
    ("gthost entries --version 1 -V", true),
    ("gthost entries -h", false),
    ("gthost play --verbose --verbose", true),
    ("gthost run --verbose=yes", true),
    ("gthost policy --verbose --verbose", true),
    ("gthost explore -h", false),
    ("gthost explore a.gt b.gt", true),
    ("gthost explore --audit", true),
    ("gthost explore --find", true),
    ("gthost explore --find N19 --find N18", true),
    ("gthost explore --find N19 --witness 1", true),
    ("gthost explore --witness one", true),
    ("gthost explore --witness=-1", true),
    ("gthost explore --trace one", true),
    ("gthost explore --trace 1 --witness 1", true),
    ("gthost explore --trace 1 --format xml", true),
    ("gthost explore --summary --diff 1,2", true),
    ("gthost explore --diff 1", true),
    ("gthost explore --summary --never N19", true),
    ("gthost explore --witness 1 --format mermaid", true),
    ("gthost explore --states", true),
    ("gthost explore --states 1e5", true),
    ("gthost explore --states 18446744073709551616", true),
];

#[test]
fn help_is_no_fault(rt: HostRuntime) -> Result<(), Fail> {
    let alloc = rt.alloc();
    for (line, is_fault) in REFUSED.iter() {
        let words = words_of(alloc, line)?;
        match plan(alloc, words.as_slice()) {
            Ok(_) => assert!(rt; false),
            Err(error) => assert_eq!(rt; error.use_stderr(), *is_fault),
        }
    }
    Ok(())
}
