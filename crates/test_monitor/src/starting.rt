//! Runs of a few domains that may do everything to each other except transfer pages.
ghost use Rattle.std.specs.Prelude.{All, IfOk};
ghost use Rattle.gt_live.specs.Domains.{BelongsTo};

use gt_live::{Domain, Monitor};
use gt_types::{
    Allows, Config, DomId, DomainConfig, Memory, Perms, StartFault, Triple, Triples, TypeId,
};
use std::alloc::Global;

/// Allows the types 1 to 4 to do everything to each other except transfer.
pub fn rights(alloc: Global) -> Result<Triples, Memory> {
    let perms = [
        Perms::MAP_READ,
        Perms::MAP_WRITE,
        Perms::UNMAP,
        Perms::COPY,
        Perms::QUERY,
        Perms::SETUP,
    ];
    let mut allowed = Vec::new(alloc);
    for source in 1..5 {
        for target in 1..5 {
            for perm in perms {
                allowed.push(Triple {
                    source: TypeId(source),
                    target: TypeId(target),
                    perm,
                })?;
            }
        }
    }
    Ok(Triples { allowed })
}

/// Returns this number of domains, numbered from 1. Domain N has type N, 8 frames and a table of one frame in this
/// version.
pub fn numbered(alloc: Global, count: u16, version: u32) -> Result<Vec<DomainConfig>, Memory> {
    let mut domains = Vec::new(alloc);
    for before in 0..count {
        let number = before.saturating_add(1);
        domains.push(DomainConfig {
            id: DomId(number),
            label: TypeId(number),
            frames: 8,
            table_frames: 1,
            version,
        })?;
    }
    Ok(domains)
}

/// Starts a run of this number of domains, over tables of this version, whose entries begin at this generation.
pub fn start<P: Allows + Drop>(
    alloc: Global,
    rights: P,
    count: u16,
    version: u32,
    first_gen: u32,
) -> Result<(Monitor<P>, Vec<Domain>), StartFault>
    ensures { IfOk result (λ r. All (λ d. BelongsTo P.may r.0 d) r.1.items) }
{
    let domains = numbered(alloc, count, version)?;
    start_run(alloc, Config { domains, first_gen }, rights)
}

/// Starts a run of this configuration.
///
/// # Errors
///
/// The first fault of the configuration, or `Memory`.
pub fn start_run<P: Allows + Drop>(
    alloc: Global,
    config: Config,
    rights: P,
) -> Result<(Monitor<P>, Vec<Domain>), StartFault>
    ensures { IfOk result (λ r. All (λ d. BelongsTo P.may r.0 d) r.1.items) }
{
    Monitor::new(alloc, config, rights)
}
