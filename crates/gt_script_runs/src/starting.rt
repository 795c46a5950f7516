//! The core on which a script runs.
ghost use Rattle.std.specs.Prelude.{◌≢◌, AllPairs, IfOk, IsOk};
ghost use Rattle.gt_script.specs.Contents.{contents_of};
ghost use Rattle.gt_script.specs.RunScripts.{CanConfigure};
ghost use Rattle.gt_script_runs.specs.Playing.{StartsFor};

use crate::rights::ScriptPolicy;
use gt_core::Core;
use gt_script::ScriptHead;
use gt_types::{Config, Memory, StartFault};
use std::alloc::Global;

/// Makes a core with the domains and the rights of a script, on which nothing has happened. The only Err is a failed
/// allocation.
pub fn core_of(alloc: Global, head: &ScriptHead) -> Result<Core<ScriptPolicy>, Memory>
    requires { CanConfigure (contents_of head.now) }
    ensures starts { IfOk result (StartsFor (contents_of head.now)) }
    ensures apart { IsOk result → AllPairs (λ d e. d.id.0 ≢ e.id.0) (contents_of head.now).domains }
{
    let config = Config {
        domains: Vec::from_slice(alloc, head.domains())?,
        first_gen: head.first_gen(),
    };
    let rights = ScriptPolicy::of(alloc, head)?;
    match Core::new(alloc, config, rights) {
        Ok(core) => Ok(core),
        Err(StartFault::Memory) => Err(Memory),
        Err(StartFault::Config(_)) => unreachable!(),
    }
}
