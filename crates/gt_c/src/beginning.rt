//! The start of a run, and how a domain leaves it.
ghost use Rattle.std.specs.Prelude.{◌≡◌, All, length, map, IfOk, None};
ghost use Rattle.std.specs.List.{list_any};
ghost use Rattle.gt_c.specs.Calling.{Finishes, MakesReady, ResetsAttached};
ghost use Rattle.gt_attached.specs.Seated.{Settles};
ghost use Rattle.gt_c.specs.Starting.{StartsWith, ReportsName, ReportsType, domain_of_handle, c_domain_of};
ghost use Rattle.gt_c.specs.Starting.{filled_handle};

use crate::c_domain::CDomain;
use crate::grantees::Grantees;
use crate::handle::DomainHandle;
use crate::lending::lent_mut;
use gt_allow::AllowTable;
use gt_attached::{AttachedDomain, AttachedOutcome, EncodedAnswer};
use gt_start::{
    DomainSettings, EncodedFault, HANDLES, MEMORY, NONE, begin_run, type_name, type_of,
};
use std::alloc::{AllocError, Global};

// Puts each domain of the run with this number into a box, in order.
fn boxed(
    alloc: Global,
    run: u32,
    guests: Vec<AttachedDomain<AllowTable>>,
) -> Result<Vec<Box<CDomain>>, AllocError>
    ensures { IfOk result (λ v. map (λ b. b.value) v.items ≡ map (c_domain_of run) guests.items) }
{
    let mut all = Vec::new(alloc);
    for attached in guests {
        let granted = Grantees::new(alloc)?;
        let lent = Box::new(
            alloc,
            CDomain {
                attached,
                run,
                granted,
            },
        )?;
        all.push(lent)?;
    }
    Ok(all)
}

fn is_any_live(handles: &[DomainHandle]) -> bool
    ensures { result ≡ list_any (λ h. h.is_live) handles.now }
{
    handles.iter().any(|handle| handle.is_live)
}

// Puts a domain into each handle, in order.
fn hand_out(all: Vec<Box<CDomain>>, out: &mut [DomainHandle])
    requires idle { All (λ h. domain_of_handle h ≡ None) out.old }
    requires count { length all.items ≡ length out.old }
    ensures { map domain_of_handle out.new ≡ map (λ b. filled_handle b.value) all.items }
{
    let mut rest = all;
    'handles: for place in 0..out.len() {
        let lent = rest.remove(0);
        out[place].put(lent);
    }
}

/// Starts a run of these domains, in order, under a policy's text. Each handle of `out` must be without a domain, and
/// there must be one for each domain: the handle at each position gets the domain at that position. The names of the
/// run's mappings carry the number `run`. Returns no fault if the run started. Otherwise returns the reason, and `out`
/// is unchanged.
#[unsafe(no_mangle)]
pub extern "C" fn gthost_start_at(
    alloc: Global,
    settings: &[DomainSettings],
    first_gen: u32,
    run: u32,
    policy: &[u8],
    out: &mut [DomainHandle],
) -> EncodedFault
    ensures { StartsWith settings.now first_gen run policy.now result out.old out.new }
{
    if out.len() != settings.len() || is_any_live(out) {
        return HANDLES;
    }
    let guests = match begin_run(alloc, settings, first_gen, policy) {
        Ok(guests) => guests,
        Err(fault) => return fault,
    };
    let Ok(all) = boxed(alloc, run, guests) else {
        return MEMORY;
    };
    hand_out(all, out);
    NONE
}

// Ends the copy of a domain, if it is in one.
fn end_copy(attached: &mut AttachedDomain<AllowTable>)
    ensures settled { Settles attached.old attached.new }
    ensures idle { attached.new.copying ≡ None }
{
    if attached.is_copying() {
        attached.copy_end();
    }
}

/// Lets the domain leave its run: ends its copy, releases its mappings, withdraws its entries, and leaves the handle
/// without a domain. The last domain frees the monitor. Returns the number of records that were lost, and the number of
/// entries still in use.
#[unsafe(no_mangle)]
pub extern "C" fn gthost_finish_at(alloc: Global, domain: &mut DomainHandle) -> EncodedAnswer
    ensures { Finishes result domain.old.held.value domain.new.held.value }
{
    let Some(lent) = domain.take(alloc) else {
        return EncodedAnswer::of(AttachedOutcome::NoDomain);
    };
    let lent = Box::into_inner(lent);
    let gone = lent.attached.finish();
    EncodedAnswer::of(AttachedOutcome::Left(gone.remains))
}

// Makes a domain ready for the next guest in its place, after the end of its copy if it is in one.
fn made_ready(attached: &mut AttachedDomain<AllowTable>) -> EncodedAnswer
    ensures { MakesReady attached.old attached.new result }
{
    end_copy(attached);
    let remains = attached.reset();
    EncodedAnswer::of(AttachedOutcome::Left(remains))
}

/// Ends the domain's copy, releases its mappings and closes its table, for the next guest in its place. Returns the
/// number of records that were lost, and the number of entries still in use.
#[unsafe(no_mangle)]
pub extern "C" fn gthost_reset_at(domain: &mut DomainHandle) -> EncodedAnswer
    ensures { ResetsAttached result domain.old.held.value domain.new.held.value }
{
    if !domain.is_live {
        return EncodedAnswer::of(AttachedOutcome::NoDomain);
    }
    let lent = lent_mut(&mut domain.held);
    let answer = made_ready(&mut lent.attached);
    domain.is_ready = true;
    answer
}

/// The label of a type, or why it was not found.
#[repr(C)]
#[derive(Clone, Copy)]
pub struct TypeReport {
    pub fault: EncodedFault,
    pub label: u32,
}

/// Returns the label of the type of this name in a policy's text, or the fault and 0.
#[unsafe(no_mangle)]
pub extern "C" fn gthost_type_of_at(alloc: Global, policy: &[u8], name: &[u8]) -> TypeReport
    ensures { ReportsType policy.now name.now result }
{
    match type_of(alloc, policy, name) {
        Ok(id) => TypeReport {
            fault: NONE,
            label: u32::from(id.0),
        },
        Err(fault) => TypeReport { fault, label: 0 },
    }
}

/// The length of a type's name, or why it was not found.
#[repr(C)]
#[derive(Clone, Copy)]
pub struct NameReport {
    pub fault: EncodedFault,
    pub len: usize,
}

/// Writes the name of the type with this number in a policy's text to the front of `name`, as much of it as fits, and
/// returns the name's length; or the fault and 0, and `name` is unchanged.
#[unsafe(no_mangle)]
pub extern "C" fn gthost_type_name_at(
    alloc: Global,
    policy: &[u8],
    label: u32,
    name: &mut [u8],
) -> NameReport
    ensures { ReportsName policy.now label result name.old name.new }
{
    match type_name(alloc, policy, label, name) {
        Ok(len) => NameReport { fault: NONE, len },
        Err(fault) => NameReport { fault, len: 0 },
    }
}
