//! The laws of sources, each the contract of a function that does nothing.
ghost use Rattle.byte_streams.specs.Laws.{PiecesMakeTheText};

/// A text is read in pieces: what a read gives comes after what has been read, and at a read that
/// has room and gives nothing, all has been read. Code that reads to the end of a source relies on
/// it.
pub fn reading_in_pieces()
    ensures { PiecesMakeTheText }
{}
