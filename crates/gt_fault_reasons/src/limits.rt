//! The reasons for the faults `config` and `mode`.
ghost use Rattle.std.specs.Prelude.{◌≡◌};
ghost use Rattle.gt_fault_reasons.specs.Reasons.{limit_of};

use crate::blocks::block_text;
use crate::columns::column_of;
use crate::reason::{Reason, ReasonNote};
use crate::texts::push_word;
use gt_findings::push_hint;
use gt_policy::{LinedStatement, Statement, statements_of};
use gt_script_lines::{BodyLine, DomainLine, Number, ScriptLine, line_words, read_line};
use gt_text::{push_number, push_text, text_of};
use gt_types::{
    ConfigFault, DOMID_SELF, DomId, DomainConfig, LAST_VERSION, MAX_DOMAINS, MAX_FRAMES,
    MAX_TABLE_FRAMES, TypeId,
};
use std::alloc::{AllocError, Global};

/// Returns the limit that a fault of a domain is about: the maximum number of domains, the last number of a domain, the
/// maximum number of frames or table frames, the last version; 0 for a fault that is about none of them.
pub fn limit_of(fault: ConfigFault) -> u32
    ensures { result ≡ limit_of fault }
{
    match fault {
        ConfigFault::TooMany(_) => MAX_DOMAINS as u32,
        ConfigFault::Id(_) => u32::from(DOMID_SELF) - 1,
        ConfigFault::Frames(_) => MAX_FRAMES,
        ConfigFault::TableFrames(_) => MAX_TABLE_FRAMES,
        ConfigFault::Version(_) => LAST_VERSION,
        ConfigFault::NoDomains | ConfigFault::Repeated(_) | ConfigFault::Generation => 0,
    }
}

// Returns a number of a line, or the maximum if it has more than 32 bits.
fn bounded(number: Number) -> u32 {
    match number.below(1 << 32) {
        Some(small) => small as u32,
        None => u32::MAX,
    }
}

// Makes the domain of a line, with type 0. A number that does not fit becomes the maximum, which exceeds all limits.
fn domain_of(line: &DomainLine) -> DomainConfig {
    let id = match line.id.below(1 << 16) {
        Some(small) => small as u16,
        None => u16::MAX,
    };
    DomainConfig {
        id: DomId(id),
        label: TypeId(0),
        frames: bounded(line.frames),
        table_frames: bounded(line.table_frames),
        version: bounded(line.version),
    }
}

// A line `domain`: its number, the column of its ID, and its domain.
#[derive(Clone, Copy)]
struct Configured {
    number: usize,
    column: usize,
    domain: DomainConfig,
}

// Reads a line `domain`. Returns None for another line.
fn domain_in(alloc: Global, number: usize, line: &str) -> Result<Option<Configured>, AllocError> {
    let words = line_words(alloc, line)?;
    match read_line(words.as_slice()) {
        Some(ScriptLine::Domain(domain)) => Ok(Some(Configured {
            number,
            column: column_of(line.as_bytes(), 1),
            domain: domain_of(&domain),
        })),
        _ => Ok(None),
    }
}

// Finds the lines `domain` among these.
fn configured_in(alloc: Global, lines: &[&str]) -> Result<Vec<Configured>, AllocError> {
    let mut found = Vec::new(alloc);
    for (i, line) in lines.iter().enumerate() {
        if let Some(domain) = domain_in(alloc, i.saturating_add(1), line)? {
            found.push(domain)?;
        }
    }
    Ok(found)
}

fn domains_of(alloc: Global, lines: &[Configured]) -> Result<Vec<DomainConfig>, AllocError> {
    let mut domains = Vec::new(alloc);
    for line in lines {
        domains.push(line.domain)?;
    }
    Ok(domains)
}

// Makes the note at the line that configures a domain with this number, if there is one.
fn first_of(
    alloc: Global,
    lines: &[Configured],
    id: DomId,
) -> Result<Option<ReasonNote>, AllocError> {
    for line in lines {
        if line.domain.id == id {
            return Ok(Some(ReasonNote {
                line: line.number,
                column: line.column,
                message: Vec::from_slice(alloc, b"the earlier domain is here".as_slice())?,
            }));
        }
    }
    Ok(None)
}

// Appends the text of a limit, and returns the index of the word of a line `domain` that exceeds it.
fn push_limit(out: &mut Vec<u8>, fault: ConfigFault) -> Result<usize, AllocError> {
    let (word, before, after) = match fault {
        ConfigFault::TooMany(_) => (0, "a script has at most ", " domains"),
        ConfigFault::Id(_) => (1, "the number of a domain is 0 to ", ""),
        ConfigFault::Frames(_) => (3, "a domain has 1 to ", " frames"),
        ConfigFault::TableFrames(_) => (4, "a table has 1 to ", " frames"),
        ConfigFault::Version(_) => (5, "the version of a table is 1 to ", ""),
        ConfigFault::NoDomains | ConfigFault::Repeated(_) | ConfigFault::Generation => {
            push_text(out, "an earlier domain has the same number")?;
            return Ok(1);
        }
    };
    push_text(out, before)?;
    push_number(out, limit_of(fault))?;
    push_text(out, after)?;
    Ok(word)
}

const UNDECLARED: &str = " is not a type of the policy";

const MANY_TYPES: &str = " is the 257th type: a script has at most 256";

/// Appends that a name is not a type that these statements declare, and which type may be meant.
pub(crate) fn push_undeclared(
    alloc: Global,
    out: &mut Vec<u8>,
    statements: &[LinedStatement],
    name: &str,
) -> Result<(), AllocError> {
    let mut types: Vec<&str> = Vec::new(alloc);
    for stated in statements {
        match &stated.statement {
            Statement::DeclareType(declared, _) => types.push(declared.as_str())?,
            Statement::DeclareAttribute(declared) if declared.as_str() == name => {
                return push_text(out, " is an attribute of the policy, not a type");
            }
            _ => {}
        }
    }
    push_text(out, UNDECLARED)?;
    push_hint(alloc, out, name, types.as_slice())
}

// Appends that a name is not a type that a policy block declares, and which type may be meant.
fn push_undeclared_in(
    alloc: Global,
    out: &mut Vec<u8>,
    block: &str,
    name: &[u8],
) -> Result<(), AllocError> {
    let Ok(name) = text_of(name) else {
        return push_text(out, UNDECLARED);
    };
    match statements_of(alloc, block) {
        Ok(statements) => push_undeclared(alloc, out, statements.as_slice(), name),
        Err(_) => push_text(out, UNDECLARED),
    }
}

// Appends why a domain's type is refused, after the lines before it.
fn push_no_type(
    alloc: Global,
    out: &mut Vec<u8>,
    before: &[&str],
    name: &[u8],
) -> Result<(), AllocError> {
    push_word(out, name)?;
    match block_text(alloc, before)? {
        Some(block) => push_undeclared_in(alloc, out, block.as_str(), name),
        None => push_text(out, MANY_TYPES),
    }
}

// Returns the fault of a domain after these.
fn fault_among(
    alloc: Global,
    configured: &[Configured],
    domain: &DomainLine,
) -> Result<Option<ConfigFault>, AllocError> {
    let domains = domains_of(alloc, configured)?;
    Ok(domain_of(domain).fault(domains.as_slice()))
}

// Explains a fault of a domain, with a note at the earlier domain that has its number. Returns the index of the word.
fn explain_fault(
    alloc: Global,
    reason: &mut Reason,
    configured: &[Configured],
    fault: ConfigFault,
) -> Result<usize, AllocError> {
    if let ConfigFault::Repeated(id) = fault {
        reason.note = first_of(alloc, configured, id)?;
    }
    push_limit(&mut reason.message, fault)
}

// Explains why a line `domain` is refused, after the lines before it: a limit, or else its type.
fn domain_reason(
    alloc: Global,
    before: &[&str],
    line: &str,
    domain: &DomainLine,
) -> Result<Reason, AllocError> {
    let mut reason = Reason::at(1, Vec::new(alloc));
    let configured = configured_in(alloc, before)?;
    let word = match fault_among(alloc, configured.as_slice(), domain)? {
        Some(fault) => explain_fault(alloc, &mut reason, configured.as_slice(), fault)?,
        None => {
            push_no_type(
                alloc,
                &mut reason.message,
                before,
                domain.type_name.as_bytes(),
            )?;
            2
        }
    };
    reason.column = column_of(line.as_bytes(), word);
    Ok(reason)
}

// Appends the numbers of the domains of a script.
fn push_numbers(alloc: Global, out: &mut Vec<u8>, lines: &[&str]) -> Result<(), AllocError> {
    push_text(out, " is not a domain of this script, which has ")?;
    for (i, line) in configured_in(alloc, lines)?.iter().enumerate() {
        if i > 0 {
            push_text(out, ", ")?;
        }
        push_number(out, line.domain.id.0)?;
    }
    Ok(())
}

// Explains a word of a line: the word in quotes, and a text.
fn word_reason(
    alloc: Global,
    line: &str,
    number: usize,
    word: &[u8],
    text: &str,
) -> Result<Reason, AllocError> {
    let mut message = Vec::new(alloc);
    push_word(&mut message, word)?;
    push_text(&mut message, text)?;
    Ok(Reason::at(column_of(line.as_bytes(), number), message))
}

// Explains that this second word of a line is not a domain of the script.
fn no_domain_reason(
    alloc: Global,
    before: &[&str],
    line: &str,
    word: &[u8],
) -> Result<Reason, AllocError> {
    let mut message = Vec::new(alloc);
    push_word(&mut message, word)?;
    push_numbers(alloc, &mut message, before)?;
    Ok(Reason::at(column_of(line.as_bytes(), 1), message))
}

/// Returns the reason for the fault `config` of a line of a script, after the lines before it.
pub fn config_reason(alloc: Global, before: &[&str], line: &str) -> Result<Reason, AllocError> {
    let words = line_words(alloc, line)?;
    let word = words.get(1).copied().unwrap_or(&[]);
    match read_line(words.as_slice()) {
        Some(ScriptLine::Domain(domain)) => domain_reason(alloc, before, line, &domain),
        Some(ScriptLine::Triple(_)) => word_reason(alloc, line, 1, word, MANY_TYPES),
        _ => no_domain_reason(alloc, before, line, word),
    }
}

/// Returns the reason for the fault `mode` of a line of a script.
pub fn mode_reason(alloc: Global, line: &str) -> Result<Reason, AllocError> {
    let words = line_words(alloc, line)?;
    let text = match read_line(words.as_slice()) {
        Some(
            ScriptLine::Body {
                asks: BodyLine::Tell(_) | BodyLine::Await(_),
                ..
            },
        ) => " is a line for gthost run",
        _ => " is a line for gthost play",
    };
    let word = words.first().copied().unwrap_or(&[]);
    word_reason(alloc, line, 0, word, text)
}
