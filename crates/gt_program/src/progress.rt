//! The progress of a search, and its end before it has met all states.
use gt_explore_search::SearchWatch;
use gt_file_commands::{Context, TextSource};
use std::alloc::Global;
use std::time::{Clock, Duration, Instant};

// The time between two lines, in seconds.
const PERIOD: u64 = 2;

// The number of turns between two looks at the clock and at the file.
const STRIDE: u32 = 64;

/// Prints every two seconds how many states a search has met, on a standard error that is a terminal. It ends the
/// search once the file exists that the context names for that.
#[derive(Drop)]
pub(crate) struct Progress<'c, R, T, E> {
    alloc: Global,
    clock: &'c R,
    texts: &'c T,
    err: &'c E,
    // The name of the file that ends the search, if one does.
    stop: Option<&'c str>,
    is_stopped: bool,
    // When the search began, or None if nothing is to be shown.
    begun: Option<Instant>,
    // The seconds after which the next line is due.
    due: u64,
    // The number of turns before the next look.
    left: u32,
}

impl<'c, R: Clock, T: TextSource, E: Eprint> Progress<'c, R, T, E> {
    /// Begins to watch a search.
    pub(crate) fn begin_search(context: &Context<'c, R, T, E>) -> Progress<'c, R, T, E> {
        let begun = if context.style.shows_progress {
            Instant::now(context.rt).ok()
        } else {
            None
        };
        Progress {
            alloc: context.alloc,
            clock: context.rt,
            texts: context.texts,
            err: context.err,
            stop: context.stop,
            is_stopped: false,
            begun,
            due: PERIOD,
            left: STRIDE,
        }
    }

    // Prints the number of states, if a line is due.
    fn show(&mut self, begun: Instant, states: usize) {
        let Ok(elapsed) = begun.elapsed(self.clock) else {
            return;
        };
        let seconds = elapsed.as_secs();
        if seconds < self.due {
            return;
        }
        self.due = seconds.saturating_add(PERIOD);
        if let Ok(line) = format!(in self.alloc; "gthost: {states} states in {seconds} s\n") {
            let _ = self.err.eprint(line);
        }
    }

    // Shows how far the search is, and looks whether it is to end.
    fn look(&mut self, states: usize) {
        if let Some(begun) = self.begun {
            self.show(begun, states);
        }
        if let Some(name) = self.stop {
            self.is_stopped = self.texts.open(name).is_ok();
        }
    }
}

impl<R: Clock, T: TextSource, E: Eprint> SearchWatch for Progress<'_, R, T, E> {
    fn ends(&mut self, states: usize) -> bool {
        if self.is_stopped {
            return true;
        }
        match self.left.checked_sub(1) {
            Some(left) => self.left = left,
            None => {
                self.left = STRIDE;
                self.look(states);
            }
        }
        self.is_stopped
    }
}
