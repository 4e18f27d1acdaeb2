//! The progress of nodes on threads, shown on a terminal.
ghost use Rattle.std.specs.Prelude.{◌≡◌, None, false};

use super::together::Together;
use command_parts::Progress;
use std::time::Clock;
use thread_net::Gate;

/// Node 0 looks at the clock before each 64th of its turns.
const TURNS_A_LOOK: u32 = 64;

/// A gate at which nodes wait for one another. It may also show how many turns node 0 has done.
#[derive(Drop)]
pub struct ProgressGate<'a, R> {
    rt: &'a R,
    together: Together<'a, R>,
    /// None if nothing is reported.
    progress: Option<Progress>,
}

impl<'a, R: Eprint + Clock> ProgressGate<'a, R> {
    /// The watch of a run that starts now: each of `nodes` nodes does `turns` turns.
    pub fn start(rt: &'a R, nodes: u16, turns: u32, says: bool) -> ProgressGate<'a, R>
        ensures { says ≡ false → result.progress ≡ None }
    {
        let progress = if says {
            Progress::begin(rt, "turns of node 0", turns)
        } else {
            None
        };
        ProgressGate {
            rt,
            together: Together::new(rt, nodes),
            progress,
        }
    }

    /// Removes the line, if it was written.
    pub fn end(&self) {
        if let Some(progress) = &self.progress {
            progress.end(self.rt);
        }
    }
}

/// Only node 0 reports, so that no two threads write.
impl<R: Eprint + Clock + Sync> Gate for ProgressGate<'_, R> {
    fn before(&self, node: u16, turn: u32) {
        self.together.before(node, turn);
        if node == 0 && turn % TURNS_A_LOOK == 0 {
            if let Some(progress) = &self.progress {
                progress.say(self.rt, u64::from(turn));
            }
        }
    }

    fn after(&self, _node: u16, _turn: u32) {}
}
