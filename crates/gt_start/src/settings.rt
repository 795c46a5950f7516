//! The settings of a run.
ghost use Rattle.std.specs.Prelude.{◌≡◌, min, position, map, MatchOption, None, IfOk};
ghost use Rattle.gt_start.specs.Beginning.{IsLabelFault, IsSetBy, domain_set, is_past};

use crate::faults::{EncodedFault, label_fault};
use gt_types::{Config, DomId, DomainConfig, TypeId};
use std::alloc::{AllocError, Global};

/// A domain of a run to start: its number, the number of its type in the policy, the number of its frames (from 1 on:
/// the caller keeps them), the number of its table's frames, and the version of its table. A number or a type above
/// 65,535 is refused, as one that is out of range.
#[repr(C)]
#[derive(Clone, Copy)]
pub struct DomainSettings {
    pub id: u32,
    pub label: u32,
    pub frames: u32,
    pub table_frames: u32,
    pub version: u32,
}

// Returns a number of 16 bits. For a larger one it returns the largest, which no domain and no type has.
fn narrowed(number: u32) -> u16
    ensures { result ≡ min number 65535 }
{
    if number < 65535 { number as u16 } else { 65535 }
}

fn domain_set(one: &DomainSettings) -> DomainConfig
    ensures { result ≡ domain_set one.now }
{
    DomainConfig {
        id: DomId(narrowed(one.id)),
        label: TypeId(narrowed(one.label)),
        frames: one.frames,
        table_frames: one.table_frames,
        version: one.version,
    }
}

// Makes the configuration of a run with these settings.
pub(crate) fn configured(
    alloc: Global,
    settings: &[DomainSettings],
    first_gen: u32,
) -> Result<Config, AllocError>
    ensures { IfOk result (IsSetBy settings.now first_gen) }
{
    let mut domains = Vec::new(alloc);
    for one in settings {
        domains.push(domain_set(one))?;
    }
    Ok(Config { domains, first_gen })
}

// Finds the index of the first domain whose label is not below the number of types.
fn first_past(settings: &[DomainSettings], types: u16) -> Option<usize>
    ensures { result ≡ position (is_past types) settings.now }
{
    settings
        .iter()
        .position(|one| one.label >= u32::from(types))
}

// Returns the fault of the first label that is not below the number of types, if there is one.
pub(crate) fn label_past(settings: &[DomainSettings], types: u16) -> Option<EncodedFault>
    ensures { MatchOption result (position (is_past types) settings.now ≡ None)
        (λ fault. IsLabelFault types settings.now fault) }
{
    match first_past(settings, types) {
        Some(place) => Some(label_fault(settings[place].id)),
        None => None,
    }
}
