//! Two domains share a page, each in its own thread: a program to copy.
//!
//! The guest grants a page to its driver. While the guest writes to the start of the page, the driver maps it and
//! writes after that. The guest can't revoke the page while the driver maps it. At the end both leave the run.
//!
//! The output is the same in every schedule. The contracts promise only that the domains stay domains of this monitor:
//! what the calls do is promised by `gt_live`.
//!
//! It uses `gt_live` (the monitor and its domains), `gt_policy` and `gt_allow` (what is allowed), `gt_entry`,
//! `gt_frames`, `gt_handles` and `gt_types`.
#![tactic(auto)]

ghost use Rattle.gt_live.specs.Domains.{BelongsTo};

use anyhow::{Context, Result, anyhow};
use gt_allow::AllowTable;
use gt_entry::Entry;
use gt_frames::Read;
use gt_handles::Handle;
use gt_live::{Domain, Monitor};
use gt_policy::Policy;
use gt_types::{Allows, Config, Denial, DomId, DomainConfig, GrantRef};
use std::sync::Wait;
use std::thread::{Threads, join_mut};

const POLICY: &str =
    "type guest_t; type driver_t; allow driver_t guest_t:grant { map_read map_write unmap };";

const GUEST: DomId = DomId(1);

const DRIVER: DomId = DomId(2);

const PAGE: GrantRef = GrantRef(0);

const FRAME: u64 = 5;

const WRITABLE: u32 = 2; // GNTMAP_host_map

// Maps the page of the guest and writes to it.
fn drive<R: Wait, P: Allows>(
    rt: &R,
    monitor: &Monitor<P>,
    driver: &mut Domain,
) -> Result<Handle, Denial>
    requires { BelongsTo P.may monitor.now driver.old }
    ensures { BelongsTo P.may monitor.now driver.new }
{
    let handle = driver.map(monitor, GUEST, PAGE, WRITABLE)?;
    driver.store(rt, monitor, handle, 6, b"from the driver")?;
    Ok(handle)
}

// Shares the page. Returns what it has at the end, and the answer to a revocation while it is mapped.
fn share<R: Threads + Wait + Sync, P: Allows + Sync>(
    rt: &R,
    monitor: &Monitor<P>,
    guest: &mut Domain,
    driver: &mut Domain,
) -> Result<(Read, Result<(), Denial>), Denial>
    requires { BelongsTo P.may monitor.now guest.old × BelongsTo P.may monitor.now driver.old }
    ensures { BelongsTo P.may monitor.now guest.new × BelongsTo P.may monitor.now driver.new }
{
    let page = Entry::Page {
        dom: DRIVER,
        ro: false,
        frame: FRAME,
    };
    guest.grant(monitor, PAGE, &page)?;
    let (poked, mapped) = join_mut(
        rt,
        &mut || guest.poke(rt, monitor, FRAME, 0, b"hello "),
        &mut || drive(rt, monitor, driver),
    );
    poked?;
    let handle = mapped?;
    let early = guest.revoke(monitor, PAGE); // N19: the driver maps it
    driver.unmap(monitor, handle)?;
    guest.revoke(monitor, PAGE)?;
    Ok((guest.peek(rt, monitor, FRAME, 0, 21)?, early))
}

fn main(rt: HostRuntime) -> Result<()> {
    let alloc = rt.alloc();
    let policy = Policy::parse(alloc, POLICY)?;
    let guest = DomainConfig {
        id: GUEST,
        label: policy.type_of("guest_t").context("guest_t")?,
        frames: 8,
        table_frames: 1,
        version: 1,
    };
    let driver = DomainConfig {
        id: DRIVER,
        label: policy.type_of("driver_t").context("driver_t")?,
        ..guest
    };
    let config = Config {
        domains: vec![in alloc; guest, driver]?,
        first_gen: 0,
    };
    let rights = AllowTable::compile(alloc, &policy)?;
    let (monitor, mut domains) = Monitor::new(alloc, config, rights)?;
    let mut guest = domains.remove(0);
    let mut driver = domains.remove(0);
    domains.destroy_empty();
    let shared = share(&rt, &monitor, &mut guest, &mut driver);
    guest.finish(&monitor);
    driver.finish(&monitor);
    let (page, early) = shared.map_err(|denial| anyhow!("refused by {}", denial.rule))?;
    let bytes = page.into_bytes();
    println!(rt; "page: {}", str::from_utf8(bytes.as_slice())?)?;
    println!(rt;
        "revoked while it is mapped: {:?}",
        early.map_err(|denial| denial.rule)
    )?;
    Ok(())
}
