//! Parsed command lines.
use gt_explore_verdict::Claim;

/// A command of the program.
#[derive(Clone, Copy)]
pub enum Mode {
    /// Run a script on the core.
    Play,
    /// Run a script's domains in threads.
    Run,
    /// Find the texts that a script may give.
    Explore,
    /// List what a policy allows.
    Policy,
    /// List the rules by which calls are refused.
    Rules,
    /// Report what is wrong or useless in a policy or a script.
    Check,
    /// Print the statements by which a policy allows something.
    Why,
    /// Print a path by which bytes of a type reach another one.
    Flow,
    /// Print the entries of a dump of a grant table.
    Entries,
}

/// The commands, in the order of the program's help.
pub(crate) static MODES: [Mode; 9] = [
    Mode::Play,
    Mode::Run,
    Mode::Explore,
    Mode::Policy,
    Mode::Rules,
    Mode::Check,
    Mode::Why,
    Mode::Flow,
    Mode::Entries,
];

impl Mode {
    ghost use Rattle.std.specs.Prelude.{◌≡◌};
    ghost use Rattle.gt_command_line.specs.Commands.{command_name};

    /// Returns the name of the command.
    pub(crate) fn name(self) -> &'static str
        ensures { result.now ≡ command_name self }
    {
        match self {
            Mode::Play => "play",
            Mode::Run => "run",
            Mode::Explore => "explore",
            Mode::Policy => "policy",
            Mode::Rules => "rules",
            Mode::Check => "check",
            Mode::Why => "why",
            Mode::Flow => "flow",
            Mode::Entries => "entries",
        }
    }
}

/// The format of the output of a command.
#[derive(Clone, Copy, PartialEq, Eq)]
pub enum Format {
    /// As lines to read. Findings are printed as compilers print them.
    Text,
    /// As JSON, with an object on each line.
    Json,
}

/// A request to `explore`.
#[derive(Clone, Copy, PartialEq, Eq)]
pub enum Exploration<'a> {
    /// All texts.
    Texts,
    /// The verdict on a claim about the conditions of this expression.
    Decide { claim: Claim, expression: &'a str },
    /// The verdicts on the claims of this text, one in each line: `find`, `never` or `always`, and an expression.
    Claims(&'a str),
    /// A script for the text of this number.
    Witness(usize),
    /// A script for each text.
    Witnesses,
    /// The moves that lead to the text of this number.
    Trace(usize),
    /// These moves as a sequence diagram.
    Diagram(usize),
    /// The lines whose answers vary, and how many texts have each answer.
    Summary,
    /// The lines in which the texts of these numbers differ.
    Difference(usize, usize),
    /// The verdict on the claim that entries show this at no moment.
    NeverState(&'a str),
    /// The pairs of lines that race.
    Races,
    /// A script that shows the race of this number.
    RaceWitness(usize),
}

/// The options of `explore` beside what it is asked for.
#[derive(Clone, Copy, PartialEq, Eq)]
pub struct SearchOptions<'a> {
    /// The maximum number of states.
    pub states: usize,
    pub format: Format,
    /// The script, or None for the standard input.
    pub file: Option<&'a str>,
}

/// The FILEs of `check` after the first.
#[derive(Clone, Copy, PartialEq, Eq)]
pub struct MoreFiles<'a> {
    pub second: Option<&'a str>,
    pub third: Option<&'a str>,
    pub fourth: Option<&'a str>,
    pub fifth: Option<&'a str>,
    pub sixth: Option<&'a str>,
    pub seventh: Option<&'a str>,
    pub eighth: Option<&'a str>,
}

impl<'a> MoreFiles<'a> {
    ghost use Rattle.std.specs.Prelude.{◌≡◌, map};
    ghost use Rattle.std.specs.Option.{option_map};
    ghost use Rattle.gt_command_line.specs.Files.{file_names_of};

    /// Returns their names.
    pub fn names(&self) -> [Option<&'a str>; 7]
        ensures { map (option_map (λ v. v.now)) result ≡ file_names_of self.now }
    {
        [
            self.second,
            self.third,
            self.fourth,
            self.fifth,
            self.sixth,
            self.seventh,
            self.eighth,
        ]
    }
}

/// The options of `play` and of `run`.
#[derive(Clone, Copy, PartialEq, Eq)]
pub struct ScriptOptions<'a> {
    /// Print the audit lines too.
    pub audit: bool,
    /// Print the reasons of faults and refusals.
    pub verbose: bool,
    pub format: Format,
    /// The script, or None for the standard input.
    pub file: Option<&'a str>,
}

/// The FILEs of `check`, and the format of its findings.
#[derive(Clone, Copy, PartialEq, Eq)]
pub struct CheckedFiles<'a> {
    pub format: Format,
    /// The first FILE, or None for the standard input.
    pub file: Option<&'a str>,
    /// Further FILEs.
    pub more: MoreFiles<'a>,
}

/// The options of `entries`: how a dump is read, and what is printed of it.
#[derive(Clone, Copy, PartialEq, Eq)]
pub struct EntriesOptions {
    /// The version of the table, 1 or 2.
    pub version: u8,
    /// Whether the dump is hexadecimal text.
    pub hex: bool,
    /// Print entries of zeros too.
    pub all: bool,
    /// Print the lines of a script in which this domain makes the calls.
    pub script: Option<u16>,
}

/// The options of `flow`.
#[derive(Clone, Copy, PartialEq, Eq)]
pub struct FlowOptions<'a> {
    /// The text is a script, whose policy block is asked.
    pub script: bool,
    /// The names of trusted types, joined by commas.
    pub trusted: Option<&'a str>,
    pub format: Format,
}

/// A command with its options. `file` is the FILE, or None for the standard input. A command without `verbose` explains
/// its faults in any case.
#[derive(PartialEq, Eq, Drop)]
pub enum Invocation<'a> {
    /// Run a script on the core.
    Play(ScriptOptions<'a>),
    /// Run a script's domains in threads.
    Run(ScriptOptions<'a>),
    /// Find the texts that a script may give.
    Explore {
        asked: Exploration<'a>,
        options: SearchOptions<'a>,
    },
    /// Whether the text of the file `given` is one of those of the script.
    ExploreHas {
        given: &'a str,
        options: SearchOptions<'a>,
    },
    /// `verbose`: print the reason of a fault.
    Policy {
        verbose: bool,
        format: Format,
        file: Option<&'a str>,
    },
    /// Only the rule of this name, or all rules if there is none.
    Rules {
        rule: Option<&'a str>,
    },
    /// `script`: the texts are scripts, not policies.
    Check {
        script: bool,
        files: CheckedFiles<'a>,
    },
    /// Check policies against the `neverallow` statements of the file `never`.
    CheckNever {
        never: &'a str,
        files: CheckedFiles<'a>,
    },
    /// `None` is any type or any permission. `each`: with an answer for each pair of types.
    Why {
        source: Option<&'a str>,
        target: Option<&'a str>,
        permission: Option<&'a str>,
        each: bool,
        file: Option<&'a str>,
    },
    /// Answer the questions of the standard input, a line each, about the policy of the file.
    WhyLines {
        each: bool,
        file: &'a str,
    },
    /// `None` is any type.
    Flow {
        source: Option<&'a str>,
        target: Option<&'a str>,
        options: FlowOptions<'a>,
        file: Option<&'a str>,
    },
    /// Print the entries of a dump.
    Entries {
        dump: EntriesOptions,
        format: Format,
        file: Option<&'a str>,
    },
}
