//! The text of a play compared with the lines of the answers and the records of the domains.
use crate::asking::Both;
use crate::stops::Stop;
use gt_audit::push_line;
use gt_host::play;
use gt_script::Text;
use std::alloc::{AllocError, Global};
use test_monitor::Calls;

// The records of all domains except the last, next to those of a text: the first domain whose records differ, the
// number of records with the lost ones, and the number of those in the text.
#[derive(Clone, Copy)]
struct Records {
    differs: Option<u16>,
    told: u64,
    wanted: u64,
}

// Returns the audit lines of this domain among those of a text.
fn lines_of(alloc: Global, text: &str, dom: u16) -> Result<String, AllocError> {
    let begins = format!(in alloc; "audit {dom} ")?;
    let mut out = String::new(alloc);
    for line in text.lines() {
        if line.starts_with(begins.as_str()) {
            out.push_str(line)?;
            out.push('\n')?;
        }
    }
    Ok(out)
}

// Returns the audit lines of a domain's records.
fn lines_told<D: Calls>(alloc: Global, domain: &D, names: &[Text<'_>]) -> Result<Vec<u8>, Stop> {
    let mut told = Vec::new(alloc);
    for record in &domain.told()? {
        push_line(&mut told, record, names)?;
    }
    Ok(told)
}

impl Records {
    // Adds the records of a domain, next to those of the text.
    fn add<D: Calls>(
        &mut self,
        alloc: Global,
        domain: &D,
        dom: u16,
        audited: &str,
        names: &[Text<'_>],
    ) -> Result<(), Stop> {
        let told = lines_told(alloc, domain, names)?;
        let wanted = lines_of(alloc, audited, dom)?;
        if self.differs.is_none() && told.as_slice() != wanted.as_bytes() {
            self.differs = Some(dom);
        }
        let kept = domain.told()?.len() as u64;
        self.told = self.told.saturating_add(kept).saturating_add(domain.lost());
        self.wanted = self.wanted.saturating_add(wanted.lines().count() as u64);
        Ok(())
    }
}

// Returns the records of all domains except the last, next to those of the text.
fn records_compared<D: Calls + Drop>(
    both: &Both<D>,
    audited: &str,
    names: &[Text<'_>],
) -> Result<Records, Stop> {
    let mut records = Records {
        differs: None,
        told: 0,
        wanted: 0,
    };
    let count = both.domains.len().saturating_sub(1);
    for (domain, named) in both.domains.iter().zip(both.configured.iter()).take(count) {
        records.add(both.alloc, domain, named.id.0, audited, names)?;
    }
    Ok(records)
}

// Returns the text of a play with its audit.
fn played(alloc: Global, script: &str) -> Result<Vec<u8>, Stop> {
    let mut reader = script.as_bytes();
    let mut played = Vec::new(alloc);
    match play(alloc, &mut reader, &mut played, true) {
        Ok(()) => Ok(played),
        Err(_) => Err(Stop::NotPlayed),
    }
}

// Returns whether a domain has lost a record.
fn has_lost<D: Calls>(domains: &[D]) -> bool {
    for domain in domains {
        if domain.lost() != 0 {
            return true;
        }
    }
    false
}

// Returns what differs in the records, if anything does.
fn difference_in<D: Calls + Drop>(
    both: &Both<D>,
    records: Records,
) -> Result<Option<String>, AllocError> {
    let alloc = both.alloc;
    if records.told != records.wanted.saturating_add(both.refused as u64) {
        return Ok(Some(String::from_str(alloc, "another number of records")?));
    }
    match records.differs {
        Some(dom) if both.refused == 0 && !has_lost(both.domains.as_slice()) => {
            Ok(Some(format!(in alloc; "other records of domain {dom}")?))
        }
        _ => Ok(None),
    }
}

/// Returns the first thing in which the text of `play` differs: the lines of the answers, or the records of a domain
/// except the last. If allocations failed, only records are counted: a failed call has one more, and a record that
/// could not be allocated counts as lost.
pub fn text_difference<D: Calls + Drop>(
    both: &Both<D>,
    script: &str,
    answers: &[u8],
    names: &[Text<'_>],
) -> Result<Option<String>, Stop> {
    let played = played(both.alloc, script)?;
    let Some(rest) = played.as_slice().strip_prefix(answers) else {
        return Ok(Some(String::from_str(both.alloc, "other lines")?));
    };
    let rest = str::from_utf8(rest).unwrap_or("");
    let records = records_compared(both, rest, names)?;
    Ok(difference_in(both, records)?)
}
