//! What a node's process asks of its doors, apart from what its turns ask.
//!
//! What runs a node is generic in its doors: a proof over sockets takes three times as long.

use crate::names::Whom;
use process_parts::{FileId, Listener};
use std::io;
use std::io::Input;
use std::net::Net;
use unix_doors::{ClientSight, Doors, UnixDoors};

/// The doors of a node's process.
pub trait ProcessDoors: Doors {
    /// How many clients are connected, and how many were closed since the last look.
    fn look_at_clients(&mut self) -> ClientSight;

    /// Whether somebody who looks may have come.
    fn may_be_looked_at(&self) -> bool;

    /// The next connection of somebody who looks, if one has come.
    fn looker(&mut self) -> Option<Self::P>;

    /// Whether standard input, if it is watched, is at its end.
    fn has_input_ended<R: Input>(&mut self, rt: &R) -> bool;

    /// Listens at this socket from now on, in place of the one before. Returns the file that its
    /// name leads to.
    ///
    /// # Errors
    /// If the system does not watch it; then nothing changes.
    fn listen(&mut self, whom: Whom, made: Listener) -> io::Result<FileId>;
}

impl<N: Net> ProcessDoors for UnixDoors<'_, N> {
    fn look_at_clients(&mut self) -> ClientSight {
        UnixDoors::look_at_clients(self)
    }

    fn may_be_looked_at(&self) -> bool {
        UnixDoors::may_be_looked_at(self)
    }

    fn looker(&mut self) -> Option<Self::P> {
        UnixDoors::looker(self)
    }

    fn has_input_ended<R: Input>(&mut self, rt: &R) -> bool {
        UnixDoors::has_input_ended(self, rt)
    }

    fn listen(&mut self, whom: Whom, made: Listener) -> io::Result<FileId> {
        let listens = match whom {
            Whom::Neighbours => self.listen_for_links(made.socket),
            Whom::Clients => self.listen_for_clients(made.socket),
            Whom::Lookers => self.listen_for_looks(made.socket),
        };
        match listens {
            Ok(()) => Ok(made.file),
            Err(error) => Err(error),
        }
    }
}
