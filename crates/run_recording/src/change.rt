//! At which ids the marks of a moment differ from those of the moment before.

/// At which ids the marks of a moment may differ from those of the moment before it.
#[derive(Clone, Copy)]
pub enum Change {
    /// At none.
    Nothing,
    /// At one at most.
    At {
        /// The id, below 64.
        node: usize,
    },
    /// At any.
    All,
}
