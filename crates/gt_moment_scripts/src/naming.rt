//! The entries that a claim names.
ghost use Rattle.std.specs.Prelude.{◌≡◌, IfOk, OnOk, is_some, map};
ghost use Rattle.std.specs.List.{list_any};
ghost use Rattle.gt_types.specs.Names.{domain_of};
ghost use Rattle.gt_state_claims.specs.Claims.{claim_asked};
ghost use Rattle.gt_moment_scripts.specs.Naming.{entries_added, entries_named, foreign_domain, is_same_entry};
ghost use Rattle.gt_moment_scripts.specs.Naming.{terms_added, with_entry};

use gt_state_claims::{StateClaim, StateTerm};
use gt_types::{DomId, DomainConfig, GrantRef};
use std::alloc::{AllocError, Global};

/// An entry, by its domain and its reference.
#[derive(Clone, Copy)]
pub struct NamedEntry {
    pub dom: DomId,
    pub gref: GrantRef,
}

/// Returns whether an entry has this domain and this reference.
pub fn is_same_entry(entry: NamedEntry, dom: DomId, gref: GrantRef) -> bool
    ensures { result ≡ is_same_entry entry dom gref.0 }
{
    entry.dom.0 == dom.0 && entry.gref.0 == gref.0
}

// Returns whether this is one of the entries.
fn is_among(entries: &[NamedEntry], dom: DomId, gref: GrantRef) -> bool
    ensures { result ≡ list_any (λ e. is_same_entry e dom gref.0) entries.now }
{
    'entries: for entry in entries {
        if is_same_entry(*entry, dom, gref) {
            return true;
        }
    }
    false
}

// Adds the entry of a term, unless it is one of these.
fn add_entry(entries: &mut Vec<NamedEntry>, term: StateTerm) -> Result<(), AllocError>
    ensures { OnOk result (entries.new.items ≡ with_entry entries.old.items term) }
{
    if is_among(entries.as_slice(), term.dom, term.gref) {
        return Ok(());
    }
    entries.push(NamedEntry {
        dom: term.dom,
        gref: term.gref,
    })?;
    Ok(())
}

// Adds the entries of these terms, each once.
fn add_terms(entries: &mut Vec<NamedEntry>, terms: &[StateTerm]) -> Result<(), AllocError>
    ensures { OnOk result (entries.new.items ≡ terms_added entries.old.items terms.now) }
{
    'terms: for term in terms {
        add_entry(entries, *term)?;
    }
    Ok(())
}

// Adds the entries of these choices, each once.
fn add_choices(entries: &mut Vec<NamedEntry>, choices: &[Vec<StateTerm>]) -> Result<(), AllocError>
    ensures { OnOk result (entries.new.items
        ≡ entries_added entries.old.items (map (λ terms. terms.items) choices.now)) }
{
    'choices: for terms in choices {
        add_terms(entries, terms.as_slice())?;
    }
    Ok(())
}

/// Returns the entries that a claim names, once each, in the order in which each comes first.
pub fn entries_named(alloc: Global, claim: &StateClaim) -> Result<Vec<NamedEntry>, AllocError>
    ensures { IfOk result (λ entries. entries.items ≡ entries_named (claim_asked claim.now)) }
{
    let mut entries = Vec::new(alloc);
    add_choices(&mut entries, claim.choices.as_slice())?;
    Ok(entries)
}

// Returns whether a script has a domain of this number.
fn has_domain(domains: &[DomainConfig], dom: DomId) -> bool
    ensures { result ≡ is_some (domain_of domains.now dom) }
{
    'domains: for domain in domains {
        if domain.id.0 == dom.0 {
            return true;
        }
    }
    false
}

/// Returns the first domain of these entries that a script with these domains does not have.
pub fn foreign_domain(domains: &[DomainConfig], entries: &[NamedEntry]) -> Option<DomId>
    ensures { result ≡ foreign_domain domains.now entries.now }
{
    'entries: for entry in entries {
        if !has_domain(domains, entry.dom) {
            return Some(entry.dom);
        }
    }
    None
}
