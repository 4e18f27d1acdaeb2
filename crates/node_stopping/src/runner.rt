//! A warning if the node of a state file runs.
ghost use Rattle.std.specs.Prelude.{◌≡◌, IfOk, IfSome, Some};
ghost use Rattle.node_stopping.specs.Lines.{state_path, runner_line};

use crate::stopping::is_held;
use node_texts::NodePaths;
use std::alloc::{AllocError, Global};
use std::fmt;
use std::fs::File;
use std::rt::Files;

/// The most nodes that a network has.
const MOST_NODES: u16 = 64;

/// The line, without a newline, which says that a node runs and writes its state file again.
#[derive(Clone, Copy)]
pub struct RunnerLine<'a> {
    /// The state file of the node.
    pub path: &'a str,
    /// The node.
    pub id: u16,
}

impl fmt::Display for RunnerLine<'_> {
    ghost output = { λ line. Some (runner_line line.path.now line.id) };

    fn fmt<W: fmt::Write>(&self, f: &mut fmt::Formatter<W>) -> fmt::Result {
        let (path, id) = (self.path, self.id);
        write!(
            f,
            "tokentree: {path}: node {id} runs, and writes this file again within half a second; kill it before, \
            or stop it first"
        )
    }
}

/// Warns on standard error if a path is the state file of a node, `DIR/state-ID.tkt`, and that node runs:
/// its lock file is held.
pub fn warn_of_runner<R: Files<File = File> + Eprint + AllocGlobal>(rt: &R, path: &str) {
    for id in 0..MOST_NODES {
        if let Ok(true) = runs_by(rt, path, id) {
            let _ = rt.eprintln(RunnerLine { path, id });
        }
    }
}

/// Whether a path is the state file of node `id`, and that node runs.
fn runs_by<R: Files<File = File> + AllocGlobal>(
    rt: &R,
    path: &str,
    id: u16,
) -> Result<bool, AllocError> {
    let within = format!(in rt.alloc(); "./{path}")?;
    let path = if path.contains('/') {
        path
    } else {
        within.as_str()
    };
    match folder_of(rt.alloc(), path, id)? {
        Some(dir) => Ok(is_held(rt, NodePaths::new(rt.alloc(), dir, id)?.lock.as_str())),
        None => Ok(false),
    }
}

/// The folder in which a path is the state file of node `id`, if it is one.
fn folder_of<'a>(alloc: Global, path: &'a str, id: u16) -> Result<Option<&'a str>, AllocError>
    ensures { IfOk result (λ found. IfSome found (λ dir. path.now ≡ state_path dir.now id)) }
{
    let name = format!(in alloc; "/state-{id}.tkt")?;
    Ok(path.strip_suffix(name.as_str()))
}
