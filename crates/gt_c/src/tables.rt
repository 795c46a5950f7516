//! The exports for the version and the size of a table.
ghost use Rattle.std.specs.Prelude.{◌≡◌};
ghost use Rattle.gt_types.specs.declared.denial.Rule.TheVariants.{N1};
ghost use Rattle.gt_c.specs.Calling.{outcome_frames, Within16, outcome_size, outcome_version};
ghost use Rattle.gt_c.specs.Promises.{AsksSize, AsksVersion, SetsUp, SetsVersion};

use crate::calls::{MOST, done, refused_number, turned_away};
use crate::handle::DomainHandle;
use crate::lending::lent_mut;
use gt_attached::{AttachedOutcome, EncodedAnswer};
use gt_types::{Denial, DomId, Rule, Size};

fn frames_outcome(answer: Result<u32, Denial>) -> AttachedOutcome
    ensures { result ≡ outcome_frames answer }
{
    match answer {
        Ok(frames) => AttachedOutcome::Frames(frames),
        Err(denial) => AttachedOutcome::Denied(denial),
    }
}

fn version_outcome(answer: Result<u32, Denial>) -> AttachedOutcome
    ensures { result ≡ outcome_version answer }
{
    match answer {
        Ok(version) => AttachedOutcome::Version(version),
        Err(denial) => AttachedOutcome::Denied(denial),
    }
}

fn size_outcome(answer: Result<Size, Denial>) -> AttachedOutcome
    ensures { result ≡ outcome_size answer }
{
    match answer {
        Ok(size) => AttachedOutcome::Size(size),
        Err(denial) => AttachedOutcome::Denied(denial),
    }
}

/// Gives the caller's table this version, 1 or 2.
#[unsafe(no_mangle)]
pub extern "C" fn gthost_set_version_at(domain: &mut DomainHandle, version: u32) -> EncodedAnswer
    ensures { SetsVersion version result domain.old.held.value domain.new.held.value }
{
    if let Some(answer) = turned_away(domain) {
        return answer;
    }
    let lent = lent_mut(&mut domain.held);
    EncodedAnswer::of(done(lent.attached.set_version(version)))
}

/// Grows the caller's table to this many frames, if it has fewer.
#[unsafe(no_mangle)]
pub extern "C" fn gthost_setup_table_at(domain: &mut DomainHandle, frames: u32) -> EncodedAnswer
    ensures { SetsUp frames result domain.old.held.value domain.new.held.value }
{
    if let Some(answer) = turned_away(domain) {
        return answer;
    }
    let lent = lent_mut(&mut domain.held);
    EncodedAnswer::of(frames_outcome(lent.attached.setup_table(frames)))
}

// Returns the size of the table of a domain whose number fits.
fn size_of(domain: &mut DomainHandle, dom: u16) -> EncodedAnswer
    ensures { AsksSize dom result domain.old.held.value domain.new.held.value }
{
    if let Some(answer) = turned_away(domain) {
        return answer;
    }
    let lent = lent_mut(&mut domain.held);
    EncodedAnswer::of(size_outcome(lent.attached.query_size(DomId(dom))))
}

/// Returns the size of a domain's table.
#[unsafe(no_mangle)]
pub extern "C" fn gthost_query_size_at(domain: &mut DomainHandle, dom: u32) -> EncodedAnswer
    ensures { Within16 N1 dom result domain.old.held.value domain.new.held.value
        (AsksSize dom result domain.old.held.value domain.new.held.value) }
{
    if dom > MOST {
        return refused_number(domain, Rule::N1);
    }
    size_of(domain, dom as u16)
}

// Returns the version of the table of a domain whose number fits.
fn version_of(domain: &mut DomainHandle, dom: u16) -> EncodedAnswer
    ensures { AsksVersion dom result domain.old.held.value domain.new.held.value }
{
    if let Some(answer) = turned_away(domain) {
        return answer;
    }
    let lent = lent_mut(&mut domain.held);
    EncodedAnswer::of(version_outcome(lent.attached.get_version(DomId(dom))))
}

/// Returns the version of a domain's table.
#[unsafe(no_mangle)]
pub extern "C" fn gthost_get_version_at(domain: &mut DomainHandle, dom: u32) -> EncodedAnswer
    ensures { Within16 N1 dom result domain.old.held.value domain.new.held.value
        (AsksVersion dom result domain.old.held.value domain.new.held.value) }
{
    if dom > MOST {
        return refused_number(domain, Rule::N1);
    }
    version_of(domain, dom as u16)
}
