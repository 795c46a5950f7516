//! A start of a core or a monitor.
use gt_core::Core;
use gt_types::{Config, DomainConfig, StartFault, Triples};
use gt_words::Words;
use std::alloc::{AllocError, Global};
use test_failing::Flood;
use test_monitor::{all_running, start_run};

/// The thing to start.
#[derive(Clone, Copy)]
pub enum Kind {
    Core,
    Monitor,
    Words,
}

/// The result of a start.
#[derive(Clone, Copy)]
pub enum Came {
    Started,
    Refused,
    Other,
}

/// Returns a configuration of these domains.
pub fn configured(alloc: Global, domains: &[DomainConfig]) -> Result<Config, AllocError> {
    Ok(Config {
        domains: Vec::from_slice(alloc, domains)?,
        first_gen: 0,
    })
}

fn refused(fault: StartFault) -> Came {
    match fault {
        StartFault::Memory => Came::Refused,
        StartFault::Config(_) => Came::Other,
    }
}

// Returns empty rights. Nothing that starts here asks them.
fn nobody(alloc: Global) -> Triples {
    Triples {
        allowed: Vec::new(alloc),
    }
}

// Starts a core.
fn start_core(alloc: Global, config: Config) -> Came {
    match Core::new(alloc, config, nobody(alloc)) {
        Ok(_) => Came::Started,
        Err(fault) => refused(fault),
    }
}

// Starts a monitor. Its domains leave in as much memory as they want.
fn start_monitor(alloc: Global, flood: Option<&mut Flood>, config: Config) -> Came {
    match start_run(alloc, config, nobody(alloc)) {
        Ok((monitor, domains)) => {
            if let Some(flood) = flood {
                flood.open();
            }
            let _ = all_running(alloc, &monitor, domains);
            Came::Started
        }
        Err(fault) => refused(fault),
    }
}

// Makes the words of a run.
fn start_words(alloc: Global, config: &Config) -> Came {
    match Words::new(alloc, config) {
        Ok(_) => Came::Started,
        Err(fault) => refused(fault),
    }
}

/// Starts with as much memory as the flood leaves, or without a flood in ample memory.
pub fn start(alloc: Global, flood: Option<&mut Flood>, kind: Kind, config: Config) -> Came {
    match kind {
        Kind::Core => start_core(alloc, config),
        Kind::Monitor => start_monitor(alloc, flood, config),
        Kind::Words => start_words(alloc, &config),
    }
}
