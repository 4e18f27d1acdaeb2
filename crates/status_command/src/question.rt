//! What a node is asked.
ghost use Rattle.std.specs.Prelude.{◌≡◌, IfOk, string_bytes};
ghost use Rattle.status_command.specs.Asking.{question_path, AreWordsOf, most_bytes};

use desk_sockets::{desk_path, look_path};
use lock_client::spelled;
use lock_desk::ClientLine;
use node_texts::MOST_STATUS_BYTES;
use std::alloc::{AllocError, Global};

/// The most bytes of a line for lookers. Even with 63 neighbours and the greatest numbers it has
/// fewer.
pub const MOST_LOOK_BYTES: usize = 8192;

/// What a node is asked.
#[derive(Clone, Copy, Drop)]
pub enum Question {
    /// Its status line, at its desk.
    Status,
    /// Its line for lookers, at its window.
    Look,
}

impl Question {
    /// The path of the socket in a folder at which the node is asked.
    ///
    /// # Errors
    /// If memory runs out.
    pub fn path(&self, alloc: Global, folder: &str, node: u16) -> Result<String, AllocError>
        ensures { IfOk result (λ path. string_bytes path ≡ question_path self.now folder.now node) }
    {
        match self {
            Question::Status => desk_path(alloc, folder, node),
            Question::Look => look_path(alloc, folder, node),
        }
    }

    /// What to write to that socket.
    pub fn words(&self) -> &'static [u8]
        ensures { AreWordsOf self.now result.now }
    {
        match self {
            Question::Status => spelled(ClientLine::Status),
            Question::Look => b"",
        }
    }

    /// The most bytes that the answer's line may have.
    pub fn most(&self) -> usize
        ensures { result ≡ most_bytes self.now }
    {
        match self {
            Question::Status => MOST_STATUS_BYTES,
            Question::Look => MOST_LOOK_BYTES,
        }
    }
}
