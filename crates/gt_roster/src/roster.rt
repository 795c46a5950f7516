//! A configuration whose domains are found in one look.
ghost use Rattle.std.specs.Prelude.{◌≡◌, ◌==◌, IfOk, IfErr, IsOk, position};
ghost use Rattle.gt_types.specs.Config.{IsWithinLimits};
ghost use Rattle.gt_types.specs.Names.{domain_of};
ghost use Rattle.gt_roster.specs.Frameless.{HasOneFrameEach};
ghost use Rattle.gt_roster.specs.Starting.{IsStartFault};

use crate::positions::Positions;
use gt_types::{Config, DomId, DomainConfig, StartFault};
use std::alloc::{AllocError, Global};
use std::marker::Model;

/// The configuration of a run, with the positions of its domains.
///
/// A contract sees it as the configuration.
#[derive(Drop)]
pub struct Roster {
    config: Config,
    positions: Positions,
}

impl Model for Roster {
    ghost use Rattle.std.specs.Prelude.{◌≡◌, map};
    ghost use Rattle.gt_types.specs.declared.config.Config.{Config as Configuration};

    ghost Value = { Configuration };

    ghost view = { λ r. r.config };

    ghost invariant = { λ r. map (λ d. d.id) r.config.domains.items ≡ r.positions };
}

impl Roster {
    /// Checks a configuration, and builds its table of positions.
    ///
    /// # Errors
    /// The first fault of the configuration, or `Memory` if it has none and an allocation fails.
    pub fn new(alloc: Global, config: Config) -> Result<Roster, StartFault>
        ensures ok { IfOk result (λ r. r ≡ config) }
        ensures fits { IsOk result → IsWithinLimits config }
        ensures err { IfErr result (IsStartFault config) }
    {
        if let Err(fault) = config.check() {
            return Err(StartFault::Config(fault));
        }
        match Positions::new(alloc, &config) {
            Ok(positions) => Ok(Roster { config, positions }),
            Err(AllocError) => Err(StartFault::Memory),
        }
    }

    /// Builds the table of positions of a configuration for a monitor that keeps no frames. `one_frame` is the same
    /// configuration with at most one frame a domain, and is within the limits.
    ///
    /// # Errors
    /// `AllocError`.
    pub fn of_runnable(
        alloc: Global,
        config: Config,
        one_frame: &Config,
    ) -> Result<Roster, AllocError>
        requires { HasOneFrameEach config one_frame.now × IsWithinLimits one_frame.now }
        ensures { IfOk result (λ r. r ≡ config) }
    {
        let positions = Positions::new(alloc, one_frame)?;
        Ok(Roster { config, positions })
    }

    /// Returns the configuration.
    pub fn config(&self) -> &Config
        ensures { result.now ≡ self.now }
    {
        &self.config
    }

    /// Returns the position of the first domain with this number, None if there is none.
    pub fn position(&self, dom: DomId) -> Option<usize>
        ensures { result ≡ position (λ d. d.id.0 == dom.0) self.now.domains.items }
    {
        self.positions.position(dom)
    }

    /// Returns the first domain with this number, None if there is none.
    pub fn domain(&self, dom: DomId) -> Option<DomainConfig>
        ensures { result ≡ domain_of self.now.domains.items dom }
    {
        match self.position(dom) {
            Some(at) => Some(self.config.domains[at]),
            None => None,
        }
    }
}
