//! A line on standard error that shows how far a long command has come.
use std::sync::atomic::{AtomicU64, Ordering};
use std::time::{Clock, Instant};

/// The milliseconds in a tenth of a second.
const MILLISECONDS_A_TENTH: u128 = 100;

/// Shows how many of some things are done, on one line that it keeps overwriting: at most once in
/// each tenth of a second, and not in the first. Threads may share it.
#[derive(Drop)]
pub struct Progress {
    started: Instant,
    /// The name of what is counted, in the plural.
    things: &'static str,
    /// How many things there are.
    most: u32,
    /// How many are done, if they are counted here.
    done: AtomicU64,
    /// The last tenth of a second in which it showed something; 0 if it has shown nothing.
    said: AtomicU64,
}

impl Progress {
    /// The start, with none of the `most` things done; none if the clock cannot be read.
    pub fn begin<R: Clock>(rt: &R, things: &'static str, most: u32) -> Option<Progress> {
        let started = Instant::now(rt).ok()?;
        Some(Progress {
            started,
            things,
            most,
            done: AtomicU64::new(0),
            said: AtomicU64::new(0),
        })
    }

    /// Counts one more of them as done, and shows how many are.
    pub fn advance<R: Clock + Eprint>(&self, rt: &R) {
        let done = self.done.fetch_add(1, Ordering::SeqCst).wrapping_add(1);
        self.say(rt, done);
    }

    /// Shows that `done` of them are done, by the caller's count. If standard error fails, nothing
    /// is shown.
    pub fn say<R: Clock + Eprint>(&self, rt: &R, done: u64) {
        let Ok(elapsed) = self.started.elapsed(rt) else {
            return;
        };
        let Ok(tenth) = u64::try_from(elapsed.as_millis() / MILLISECONDS_A_TENTH) else {
            return;
        };
        if self.said.fetch_max(tenth, Ordering::SeqCst) < tenth {
            let _ = eprint!(rt; "\r{done} of {} {}", self.most, self.things);
        }
    }

    /// Removes the line, as all is done.
    pub fn end<R: Eprint>(&self, rt: &R) {
        if self.said.load(Ordering::SeqCst) > 0 {
            let _ = eprint!(rt; "\r\x1b[K");
        }
    }
}
