//! What holds for numbers in a row: each law is the contract of a function that does nothing.
ghost use Rattle.leb128.specs.Laws.{AreReadAgain, CutAreShort, WhatIsReadIsSpelled};
ghost use Rattle.leb128.specs.Pieces.{AreReadInPieces};

/// Numbers that were written in a row are read again, whatever follows; if the bytes are cut before
/// their end, they are short; and what is read was spelled like this. Code that writes numbers and
/// reads them relies on it.
pub fn one_reading()
    ensures again { AreReadAgain }
    ensures cut { CutAreShort }
    ensures only { WhatIsReadIsSpelled }
{}

/// What is read from the front of some bytes is the same if more bytes follow; these make a difference
/// only if the first bytes were short. For one number, only fewer than ten bytes are short. Code that
/// holds a piece of the bytes at a time relies on it.
pub fn reading_in_pieces()
    ensures { AreReadInPieces }
{}
