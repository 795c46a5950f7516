//! The start of a run.
ghost use Rattle.std.specs.Prelude.{◌≡◌, length, IfOk, IfErr, OnErr, Some};
ghost use Rattle.gt_policy.specs.Allowing.{Meaning, type_named};
ghost use Rattle.gt_policy.specs.Kept.{PolicyShows};
ghost use Rattle.gt_start.specs.Beginning.{Begins, IsFaultOf, IsLabelNamed, IsNameFault, IsNoLabel, IsPolicyMeaning};
ghost use Rattle.gt_start.specs.Beginning.{IsTextFault, with_front};

use crate::faults::{EncodedFault, MEMORY, NO_TYPE, TEXT, config_fault, policy_fault};
use crate::settings::{DomainSettings, configured, label_past};
use gt_allow::AllowTable;
use gt_attached::{AttachedDomain, start};
use gt_policy::Policy;
use gt_types::TypeId;
use std::alloc::Global;

// Parses the text of a policy.
fn policy_of(alloc: Global, text: &[u8]) -> Result<Policy, EncodedFault>
    ensures policy { IfOk result (λ policy. (m : Meaning) × IsPolicyMeaning text.now m × PolicyShows policy m) }
    ensures fault { IfErr result (IsTextFault text.now) }
{
    let Ok(text) = str::from_utf8(text) else {
        return Err(TEXT);
    };
    match Policy::parse(alloc, text) {
        Ok(policy) => Ok(policy),
        Err(refused) => Err(policy_fault(refused)),
    }
}

/// Starts a run with these settings under a policy's text, and returns an attached domain for each domain, in order.
/// Each entry begins at the generation `first_gen`. The caller keeps the frames.
///
/// # Errors
/// The policy's text is tested first, then the labels, then the configuration. The first fault is returned. An
/// allocation that fails gives `memory`, at any time. No domain is left.
pub fn begin_run(
    alloc: Global,
    settings: &[DomainSettings],
    first_gen: u32,
    policy: &[u8],
) -> Result<Vec<AttachedDomain<AllowTable>>, EncodedFault>
    ensures begun { IfOk result (λ guests. Begins settings.now first_gen policy.now guests.items) }
    ensures count { IfOk result (λ guests. length guests.items ≡ length settings.now) }
    ensures fault { IfErr result (IsFaultOf settings.now first_gen policy.now) }
{
    let policy = match policy_of(alloc, policy) {
        Ok(policy) => policy,
        Err(fault) => return Err(fault),
    };
    if let Some(fault) = label_past(settings, policy.count()) {
        return Err(fault);
    }
    let Ok(rights) = AllowTable::compile(alloc, &policy) else {
        return Err(MEMORY);
    };
    let Ok(config) = configured(alloc, settings, first_gen) else {
        return Err(MEMORY);
    };
    match start(alloc, config, rights) {
        Ok(guests) => Ok(guests),
        Err(refused) => Err(config_fault(refused)),
    }
}

/// Returns the type of this name in a policy's text. Its number is the label of a domain of that type.
///
/// # Errors
/// The first fault of the text; or that it declares no type of this name; or `memory`.
pub fn type_of(alloc: Global, policy: &[u8], name: &[u8]) -> Result<TypeId, EncodedFault>
    ensures named { IfOk result (λ id.
        (m : Meaning) × IsPolicyMeaning policy.now m × (type_named m.types name.now ≡ Some id)) }
    ensures fault { IfErr result (IsNameFault policy.now name.now) }
{
    let policy = match policy_of(alloc, policy) {
        Ok(policy) => policy,
        Err(fault) => return Err(fault),
    };
    match policy.type_spelled(name) {
        Some(id) => Ok(id),
        None => Err(NO_TYPE),
    }
}

// Writes as much of a name as fits to the front of a buffer, and leaves the rest of the buffer as it is.
fn write_front(name: &[u8], buffer: &mut [u8])
    ensures { buffer.new ≡ with_front name.now buffer.old }
{
    let count = name.len().min(buffer.len());
    buffer[..count].copy_from_slice(&name[..count]);
}

/// Writes the name of the type with this number in a policy's text to the front of `buffer`, as much of it as fits, and
/// returns the length of the name. So a buffer that is longer than that has all of it.
///
/// # Errors
/// The first fault of the text; or that it declares no type of this number; or `memory`. The buffer is unchanged.
pub fn type_name(
    alloc: Global,
    policy: &[u8],
    label: u32,
    buffer: &mut [u8],
) -> Result<usize, EncodedFault>
    ensures named { IfOk result (λ len. IsLabelNamed policy.now label len buffer.old buffer.new) }
    ensures fault { IfErr result (IsNoLabel policy.now label) }
    ensures unchanged { OnErr result (buffer.new ≡ buffer.old) }
{
    let policy = match policy_of(alloc, policy) {
        Ok(policy) => policy,
        Err(fault) => return Err(fault),
    };
    if label >= u32::from(policy.count()) {
        return Err(NO_TYPE);
    }
    match policy.name(TypeId(label as u16)) {
        Some(name) => {
            write_front(name.as_bytes(), buffer);
            Ok(name.len())
        }
        None => Err(NO_TYPE),
    }
}
