//! Why bytes are not a state of a node.
ghost use Rattle.std.specs.Prelude.{◌≡◌};
ghost use Rattle.node_state_file.specs.declared.fault.FileFault.TheVariants.{Memory};

use std::alloc::AllocError;
use thiserror::Error;

/// The faults of a state file. [`decode`](crate::decode) says in which order they are checked.
#[derive(Clone, Copy, Debug, PartialEq, Eq, Drop, Error)]
pub enum FileFault {
    /// There are fewer bytes than the magic word, the header or the file's own degree requires.
    #[error("Short")]
    Short,
    /// The first four bytes are neither `TKT1` nor `TKT2`.
    #[error("Magic")]
    Magic,
    /// The file has another number of nodes, another capacity or another id than the node, it has a
    /// degree that no node may have, or its neighbours are not other nodes in ascending order.
    #[error("Shape")]
    Shape,
    /// A field is not in its range.
    #[error("Range")]
    Range,
    /// There are bytes after the last port.
    #[error("Long")]
    Long,
    /// Memory ran out.
    #[error("Memory")]
    Memory,
}

impl From<AllocError> for FileFault {
    ghost from_gives = { λ _ e. e ≡ Memory };

    fn from(_e: AllocError) -> FileFault {
        FileFault::Memory
    }
}
