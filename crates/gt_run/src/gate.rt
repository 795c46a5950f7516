//! Flags on which domains wait for one another.
ghost use Rattle.std.specs.Prelude.{◌≡◌, ℕ, Bool, IsTrue, false, true};

use gt_types::Memory;
use std::alloc::Global;
use std::sync::{Condvar, Mutex, Wait};

/// The place where domains wait for one another. It has flags, numbered from 0. A flag is never lowered.
///
/// The flags of a run are words of its table, which a gate neither raises nor passes. It keeps domains waiting, or
/// refuses them. It may let a domain continue before its flag is raised. The domain then asks again.
pub trait Gate {
    /// True if the gate may refuse a domain at this flag.
    ghost refuses: { Self → ℕ → Bool };

    /// Records that the flag is raised, and wakes the domains that wait for it. A domain calls this after it has raised
    /// the flag.
    fn tell(&self, flag: usize);

    /// Waits until some domain raises the flag, or returns at once. Returns true if the caller may continue. The caller
    /// then passes the flag if it is raised, and asks again if not. Returns false if the domain has to stop. The domain
    /// then prints its line `gate` and leaves the run. A gate returns false only at a flag that it may refuse.
    fn pass(&self, flag: usize) -> bool
        ensures { (result ≡ false) → IsTrue (refuses self.now flag) };
}

/// The number of flags of a [`FlagGate`]: more than a script can name, since each takes a line of at least eight bytes.
pub const FLAGS: usize = 131_072;

/// The gate of the program. It waits until the flag is raised, however long that takes, and then lets the caller
/// continue. It refuses no domain.
#[derive(Drop)]
pub struct FlagGate<'r, R: Wait> {
    rt: &'r R,
    told: Mutex<Vec<bool>>,
    more: Condvar,
}

impl<'r, R: Wait> FlagGate<'r, R> {
    /// Makes a gate of [`FLAGS`] flags, none of which is raised.
    ///
    /// # Errors
    /// The allocation failed. Nothing is allocated later.
    pub fn new(rt: &'r R, alloc: Global) -> Result<Self, Memory> {
        Ok(FlagGate {
            rt,
            told: Mutex::new(vec![in alloc; false; FLAGS]?),
            more: Condvar::new(),
        })
    }
}

// Returns whether the flag is raised. A flag beyond the room of the gate keeps no one waiting.
fn is_told(told: &Vec<bool>, flag: usize) -> bool {
    told.get(flag).copied().unwrap_or(true)
}

impl<'r, R: Wait> Gate for FlagGate<'r, R> {
    ghost refuses = { λ _ _. false };

    fn tell(&self, flag: usize) {
        let mut told = self.told.lock(self.rt);
        if let Some(it) = told.get_mut(flag) {
            *it = true;
        }
        drop(told);
        self.more.notify_all();
    }

    fn pass(&self, flag: usize) -> bool
        ensures passes { result ≡ true }
        ensures refused { (result ≡ false) → IsTrue false }
    {
        let told = self.told.lock(self.rt);
        let _told = self
            .more
            .wait_while(self.rt, told, |told| !is_told(told, flag));
        true
    }
}
