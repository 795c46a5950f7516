//! The reasons that are printed after the line of a fault, or as that line.
use crate::copying::KeptInput;
use crate::dumps::{dump_reason, look_said};
use crate::exploring::{choices_reason, claims_reason, race_reason, state_reason};
use crate::flows::flow_reason;
use crate::given::{
    bare_reason, given_reason, never_reason, nothing_reason, question_reason, text_reason,
};
use crate::names::shown_name;
use crate::scripts::{fault_reason, play_refusals, run_refusals};
use gt_command_line::Invocation;
use gt_entries::{DumpFault, DumpOptions};
use gt_explore_choices::ChoicesFault;
use gt_explore_faults::{ClaimsFault, ExploreFault};
use gt_fault_reasons::{
    push_permission_reason, push_read_reason, push_type_reason, push_utf8_reason,
};
use gt_policy_list::ListingFault;
use gt_policy_questions::FlowQuestion;
use gt_policy_reasons::{BreachFault, FlowFault, NeverText, WhyFault, push_policy_reason};
use gt_policy_statements::WhyQuestion;
use gt_script_runs::PlayFault;
use gt_state_claims::StateClaimFault;
use gt_text::ReadFault;
use std::alloc::{AllocError, Global};
use std::io;

/// The reasons of a command, collected only if it asks for them, or if its faults are explained in any case.
#[derive(Drop)]
pub struct Reasons<'a> {
    alloc: Global,
    // The name with which their lines begin, if they are asked for.
    file: Option<&'a str>,
    // Whether the reason of a fault is printed as the line of the fault, and not after it.
    is_line: bool,
    text: Vec<u8>,
}

// Returns the name with which reasons begin, if they are asked for.
fn named<'a>(verbose: bool, file: Option<&'a str>) -> Option<&'a str> {
    if verbose {
        Some(shown_name(file))
    } else {
        None
    }
}

/// Returns why a file was not read, from the words of the system.
pub(crate) fn read_words<'w>(said: &'w [u8]) -> &'w [u8] {
    if said.starts_with(b"No such file") {
        b"no such file"
    } else if said.starts_with(b"Permission denied") {
        b"permission denied"
    } else if said.starts_with(b"Is a directory") {
        b"is a directory"
    } else {
        said
    }
}

/// Appends why a file was not read: in the words of the system, or in fewer words if the reason is a separate line.
pub(crate) fn push_unread(
    out: &mut Vec<u8>,
    file: &str,
    is_line: bool,
    words: &[u8],
) -> Result<(), AllocError> {
    push_read_reason(out, file, if is_line { read_words(words) } else { words })
}

// Returns the reason for which a file was not opened.
fn unread(
    alloc: Global,
    file: &str,
    is_line: bool,
    error: &io::Error,
) -> Result<Vec<u8>, AllocError> {
    let mut said = Vec::new(alloc);
    let words = format!(in alloc; "{error}")?;
    push_unread(&mut said, file, is_line, words.as_bytes())?;
    Ok(said)
}

/// Returns the reason for which the text of a policy that was read was refused.
pub(crate) fn listing_reason(
    alloc: Global,
    file: &str,
    is_line: bool,
    input: &KeptInput,
    fault: &ListingFault,
) -> Result<Vec<u8>, AllocError> {
    let mut said = Vec::new(alloc);
    let Some(bytes) = input.bytes() else {
        return Ok(said);
    };
    match fault {
        ListingFault::Utf8 { line } => push_utf8_reason(alloc, &mut said, file, bytes, *line)?,
        ListingFault::Policy(fault) => push_policy_reason(alloc, &mut said, file, bytes, fault)?,
        ListingFault::Read => push_unread(&mut said, file, is_line, input.fault())?,
        ListingFault::Memory | ListingFault::Write => {}
    }
    Ok(said)
}

/// Appends that a name is not a type of the policy that was read, or that it has no types.
pub(crate) fn push_no_type(
    alloc: Global,
    out: &mut Vec<u8>,
    file: &str,
    policy: &[u8],
    name: Option<&str>,
) -> Result<(), AllocError> {
    match name {
        Some(name) => push_type_reason(alloc, out, file, policy, name),
        None => push_read_reason(out, file, b"the policy has no types"),
    }
}

// Returns the reason for which a question was not answered.
fn why_reason(
    alloc: Global,
    file: &str,
    input: &KeptInput,
    question: &WhyQuestion,
    fault: &WhyFault,
) -> Result<Vec<u8>, AllocError> {
    let mut said = Vec::new(alloc);
    let bytes = input.bytes().unwrap_or(&[]);
    match fault {
        WhyFault::Text(fault) => return listing_reason(alloc, file, true, input, fault),
        WhyFault::NoSource => push_no_type(alloc, &mut said, file, bytes, question.source)?,
        WhyFault::NoTarget => push_no_type(alloc, &mut said, file, bytes, question.target)?,
        WhyFault::NoPermission => {
            let word = question.perm.unwrap_or("-");
            push_permission_reason(alloc, &mut said, file, word)?;
        }
    }
    Ok(said)
}

impl<'a> Reasons<'a> {
    /// Makes an empty collection of the reasons of this command.
    pub fn of(alloc: Global, invocation: &Invocation<'a>) -> Reasons<'a> {
        let (is_line, file) = match invocation {
            Invocation::Play(options) => (false, named(options.verbose, options.file)),
            Invocation::Run(options) => (false, named(options.verbose, options.file)),
            Invocation::Policy { verbose, file, .. } => (false, named(*verbose, *file)),
            Invocation::Explore { options, .. } => (true, named(true, options.file)),
            Invocation::ExploreHas { options, .. } => (true, named(true, options.file)),
            Invocation::Check { files, .. } => (true, named(true, files.file)),
            Invocation::CheckNever { files, .. } => (true, named(true, files.file)),
            Invocation::Why { file, .. } => (true, named(true, *file)),
            Invocation::Flow { file, .. } => (true, named(true, *file)),
            Invocation::Entries { file, .. } => (true, named(true, *file)),
            Invocation::WhyLines { file, .. } => (true, Some(*file)),
            Invocation::Rules { .. } => (false, None),
        };
        Reasons {
            alloc,
            file,
            is_line,
            text: Vec::new(alloc),
        }
    }

    /// Begins the reasons of a further file.
    pub fn begin_file(&mut self, file: Option<&'a str>) {
        self.file = Some(shown_name(file));
    }

    /// Returns whether reasons are asked for.
    pub fn are_asked(&self) -> bool {
        self.file.is_some()
    }

    // Adds lines, if they could be allocated.
    fn add(&mut self, said: Result<Vec<u8>, AllocError>) {
        if let Ok(said) = said {
            let _ = self.text.extend_from_slice(said.as_slice());
        }
    }

    /// Adds the reasons of a script that was read, and whose play had this result.
    pub fn add_play(&mut self, input: &KeptInput, ending: &Result<(), PlayFault>) {
        if let Some(file) = self.file {
            let said = match ending {
                Ok(()) => play_refusals(self.alloc, file, input),
                Err(fault) => fault_reason(self.alloc, file, self.is_line, input, fault),
            };
            self.add(said);
        }
    }

    /// Adds the near misses of what the policy refused when the script that was read was run, and wrote this text.
    pub fn add_refusals(&mut self, input: &KeptInput, text: &[u8]) {
        if let Some(file) = self.file {
            let said = run_refusals(self.alloc, file, input, text);
            self.add(said);
        }
    }

    /// Adds the reason for which the script that was read was refused.
    pub fn add_refused(&mut self, input: &KeptInput, fault: &PlayFault) {
        if let Some(file) = self.file {
            let said = fault_reason(self.alloc, file, self.is_line, input, fault);
            self.add(said);
        }
    }

    /// Adds the reason for which the file was not opened.
    pub fn add_unread(&mut self, error: &io::Error) {
        if let Some(file) = self.file {
            let said = unread(self.alloc, file, self.is_line, error);
            self.add(said);
        }
    }

    /// Adds the reason for which the policy or the script that was read was not listed or checked.
    pub fn add_listing(&mut self, input: &KeptInput, fault: &ListingFault) {
        if let Some(file) = self.file {
            let said = listing_reason(self.alloc, file, self.is_line, input, fault);
            self.add(said);
        }
    }

    /// Adds that the policy that was read and listed allows nothing, if it has no statement.
    pub fn add_bare(&mut self, input: &KeptInput) {
        if let (Some(file), Some(bytes)) = (self.file, input.bytes()) {
            let said = bare_reason(self.alloc, file, bytes);
            self.add(said);
        }
    }

    /// Adds the reason for which the policy that was read was not checked against these `neverallow`
    /// statements.
    pub fn add_breach(&mut self, input: &KeptInput, never: &NeverText, fault: &BreachFault) {
        let Some(file) = self.file else {
            return;
        };
        let said = match fault {
            BreachFault::Policy(fault) => {
                listing_reason(self.alloc, file, self.is_line, input, fault)
            }
            BreachFault::Statements(fault) => never_reason(self.alloc, never.file, fault),
            BreachFault::ForbidsNothing(line) => nothing_reason(self.alloc, never, *line),
        };
        self.add(said);
    }

    /// Adds the reason for which bytes are not a text, or not a policy.
    pub fn add_text(&mut self, bytes: &[u8], fault: &ListingFault) {
        if let Some(file) = self.file {
            let said = text_reason(self.alloc, file, bytes, fault);
            self.add(said);
        }
    }

    /// Adds that a line of this number of the standard input is not a question.
    pub fn add_no_question(&mut self, number: usize) {
        let said = question_reason(self.alloc, number);
        self.add(said);
    }

    /// Adds the reason for which a text to compare with was not read: the fault of a read, or that it is too long.
    pub fn add_given(&mut self, input: &KeptInput, fault: ReadFault) {
        if let Some(file) = self.file {
            let said = given_reason(self.alloc, file, input, fault);
            self.add(said);
        }
    }

    /// Adds the reason for which a question about the policy that was read was not answered.
    pub fn add_why(&mut self, input: &KeptInput, question: &WhyQuestion, fault: &WhyFault) {
        if let Some(file) = self.file {
            let said = why_reason(self.alloc, file, input, question, fault);
            self.add(said);
        }
    }

    /// Adds the reason for which a question about the flows of the policy that was read, or of that of the script, was
    /// not answered.
    pub fn add_flow(
        &mut self,
        script: bool,
        input: &KeptInput,
        question: &FlowQuestion,
        fault: &FlowFault,
    ) {
        if let Some(file) = self.file {
            let said = flow_reason(self.alloc, file, script, input, question, fault);
            self.add(said);
        }
    }

    /// Adds the reason for which the dump that was read was not printed.
    pub fn add_dump(&mut self, input: &KeptInput, fault: DumpFault) {
        if let Some(file) = self.file {
            let said = dump_reason(self.alloc, file, input, fault);
            self.add(said);
        }
    }

    /// Adds what the dump that was read and printed looks like, unless it looks like a table.
    pub fn add_look(&mut self, input: &KeptInput, asked: DumpOptions) {
        if let Some(file) = self.file {
            let said = look_said(self.alloc, file, input, asked);
            self.add(said);
        }
    }

    /// Adds the reason for which the script that was read was not explored.
    pub fn add_explore(&mut self, input: &KeptInput, fault: &ClaimsFault) {
        if let Some(file) = self.file {
            let said = claims_reason(self.alloc, file, self.is_line, input, fault);
            self.add(said);
        }
    }

    /// Adds the reason for which the races of the script that was read were not found, or no script shows one of them.
    pub fn add_race(&mut self, input: &KeptInput, fault: &ExploreFault) {
        if let Some(file) = self.file {
            let said = race_reason(self.alloc, file, self.is_line, input, fault);
            self.add(said);
        }
    }

    /// Adds the reason for which the choices of the script that was read were not explored.
    pub fn add_choices(&mut self, fault: ChoicesFault) {
        if let Some(file) = self.file {
            let said = choices_reason(self.alloc, file, fault);
            self.add(said);
        }
    }

    /// Adds the reason for which a claim about the states of the script that was read was not decided.
    pub fn add_state(&mut self, fault: StateClaimFault) {
        if let Some(file) = self.file {
            let said = state_reason(self.alloc, file, fault);
            self.add(said);
        }
    }

    /// Prints the reason of a fault as the line of the fault, if the command has its reasons there and there is one.
    /// Returns whether it printed one. Then none is left.
    pub fn print_line<E: Eprint>(&mut self, err: &E) -> bool {
        if !self.is_line || self.text.is_empty() {
            return false;
        }
        let Ok(text) = String::from_utf8_lossy(self.alloc, self.text.as_slice()) else {
            return false;
        };
        self.text.clear();
        let _ = err.eprint("gthost: ");
        let _ = err.eprint(text);
        true
    }

    /// Prints the reasons. A failed write or allocation is not reported.
    pub fn print_all<E: Eprint>(&self, err: &E) {
        if self.text.is_empty() {
            return;
        }
        if let Ok(text) = String::from_utf8_lossy(self.alloc, self.text.as_slice()) {
            let _ = err.eprint(text);
        }
    }
}
