//! The domains of a script, as its lines configure them.
use gt_script_lines::{
    BodyLine, DomainLine, Number, ScriptCall, ScriptLine, line_words, read_line,
};
use gt_types::{DomId, ENTRIES_V1, ENTRIES_V2, GrantRef, MAX_TABLE_FRAMES};
use std::alloc::{AllocError, Global};

/// A domain of a script: its number, its frames, and the number of entries that its table can ever have.
#[derive(Clone, Copy)]
pub(crate) struct Configured {
    pub id: DomId,
    pub frames: u64,
    entries: u64,
}

/// The domains of a script.
#[derive(Drop)]
pub(crate) struct ScriptDomains {
    domains: Vec<Configured>,
}

// Returns the number of a domain, if it has at most 16 bits.
fn id_of(id: Number) -> Option<DomId> {
    match u16::try_from(id.below(1 << 16)?) {
        Ok(id) => Some(DomId(id)),
        Err(_) => None,
    }
}

// Returns what a line `domain` configures.
fn domain_of(line: &DomainLine) -> Option<Configured> {
    let in_a_frame = match line.version.below(3)? {
        1 => ENTRIES_V1 as u64,
        _ => ENTRIES_V2 as u64,
    };
    Some(Configured {
        id: id_of(line.id)?,
        frames: line.frames.below(1 << 16)?,
        entries: line.table_frames.below(1 << 16)?.saturating_mul(in_a_frame),
    })
}

// Returns whether a line changes the size of the table of its domain.
fn changes_table(asks: &BodyLine) -> bool {
    match asks {
        BodyLine::Do(call) | BodyLine::Begin(call) => matches!(
            call,
            ScriptCall::SetVersion { .. } | ScriptCall::SetupTable { .. }
        ),
        _ => false,
    }
}

impl Configured {
    /// Returns whether the table of the domain may have the reference.
    pub(crate) fn may_have(&self, gref: GrantRef) -> bool {
        (gref.0 as u64) < self.entries
    }
}

impl ScriptDomains {
    // Gives this domain the largest number of entries that any table has.
    fn grow(&mut self, id: DomId) {
        for domain in self.domains.iter_mut() {
            if domain.id.0 == id.0 {
                domain.entries = (MAX_TABLE_FRAMES as u64).saturating_mul(ENTRIES_V1 as u64);
            }
        }
    }

    /// Returns the domains of these lines.
    pub(crate) fn of(alloc: Global, lines: &[&str]) -> Result<ScriptDomains, AllocError> {
        let mut all = ScriptDomains {
            domains: Vec::new(alloc),
        };
        for line in lines {
            let words = line_words(alloc, *line)?;
            match read_line(words.as_slice()) {
                Some(ScriptLine::Domain(domain)) => {
                    if let Some(domain) = domain_of(&domain) {
                        all.domains.push(domain)?;
                    }
                }
                Some(ScriptLine::Body { id, asks }) => {
                    if let (true, Some(id)) = (changes_table(&asks), id_of(id)) {
                        all.grow(id);
                    }
                }
                _ => {}
            }
        }
        Ok(all)
    }

    /// Returns the domain of this number.
    pub(crate) fn find(&self, id: DomId) -> Option<&Configured> {
        self.domains.iter().find(|domain| domain.id.0 == id.0)
    }

    /// Returns the domain of this number, as a line has it.
    pub(crate) fn numbered(&self, id: Number) -> Option<&Configured> {
        self.find(id_of(id)?)
    }
}
