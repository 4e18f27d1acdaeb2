//! A fuse: which call of many is the one that fails.
ghost use Rattle.std.specs.Prelude.{◌≡◌, ◌↔◌, Some, is_none, IsErr};
ghost use Rattle.byte_streams.specs.Fuse.{failures_of, left_after};

use crate::streams::Failed;
use std::marker::Model;

/// Lets a chosen number of calls pass, fails the next one, and lets every other call pass. To test
/// what becomes of each call that fails, implement a trait for a type that holds a fuse, and passes
/// its calls on to another value; build it with 0, 1, 2.. calls until [`Fuse::has_failed`] says no.
#[derive(Debug, Drop)]
pub struct Fuse {
    /// How many calls pass before the one that fails; none once it has failed.
    left: Option<u64>,
}

impl Model for Fuse {
    ghost use Rattle.std.specs.Prelude.{ℕ, Option};

    ghost Value = { Option ℕ };

    ghost view = { λ fuse. fuse.left };
}

impl Fuse {
    /// A fuse that lets `calls` calls pass and fails the next one.
    pub fn new(calls: u64) -> Fuse
        ensures { result ≡ Some calls }
    {
        Fuse { left: Some(calls) }
    }

    /// Counts a call.
    ///
    /// # Errors
    /// [`Failed`] if this is the call that fails.
    pub fn pass(&mut self) -> Result<(), Failed>
        ensures fails { IsErr result ↔ (self.old ≡ Some 0) }
        ensures left { self.new ≡ left_after self.old }
    {
        match self.left {
            None => Ok(()),
            Some(0) => {
                self.left = None;
                Err(Failed)
            }
            Some(calls) => {
                self.left = Some(calls - 1);
                Ok(())
            }
        }
    }

    /// How many calls pass before the one that fails; none once it has failed.
    pub fn left(&self) -> Option<u64>
        ensures { result ≡ self.now }
    {
        self.left
    }

    /// Whether it has failed.
    pub fn has_failed(&self) -> bool
        ensures { result ≡ is_none self.now }
    {
        self.left.is_none()
    }

    /// How often it has failed: 1 if it has, else 0.
    pub fn failures(&self) -> u64
        ensures { result ≡ failures_of self.now }
    {
        u64::from(self.has_failed())
    }
}
