//! What holds of records: each law is the contract of a function that does nothing.
ghost use Rattle.flight_records.specs.Laws.{WrittenIsRead, CutIsRead, WhatIsReadIsWritten};
ghost use Rattle.flight_records.specs.Laws.{PiecesAreRead, RecordsGrow, ShortFormsStand};

use leb128::laws as leb128_laws;

/// Every list of entries, each no earlier than the one before, is read back as it was written,
/// whatever follows. At whatever place the bytes are cut, the whole entries in front of the cut are
/// read, and then the bytes are short. What is read stands there as it is written. Code that keeps
/// a record in a file, of which a part may be missing, relies on this law.
pub fn one_reading()
    ensures again { WrittenIsRead }
    ensures cut { CutIsRead }
    ensures only { WhatIsReadIsWritten }
{
    leb128_laws::one_reading();
}

/// An entry at the front of a piece of a record is read in the same way if more bytes follow; what
/// is no entry does not become one; and a beginning of an entry is short. A piece of 121 bytes is
/// never short. Code that reads a record a page at a time relies on this law.
pub fn pieces_are_read()
    ensures { PiecesAreRead }
{
    leb128_laws::reading_in_pieces();
}

/// An entry that is written at the end of a record, after the instant of its last entry, makes a
/// record of one entry more. So code that writes entry by entry keeps a record.
pub fn records_grow()
    ensures { RecordsGrow }
{}

/// The short forms of entries that name their frames stand for those very entries. Code that notes
/// a frame that came again as the last one of its link, and code that reads the record, rely on
/// this law.
pub fn short_forms_stand()
    ensures { ShortFormsStand }
{}
