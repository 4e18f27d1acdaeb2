//! What holds of recorders: the law is the contract of a function that does nothing.
ghost use Rattle.flight_recorder.specs.Laws.{FilesAreRecords};

use flight_records::laws as flight_records_laws;

/// What is written to a file, page after page, is a record of all that was noted since the file began. It
/// begins with the start of a state. A file that is left is whole. Reading it gives what was noted, if each
/// note names its frame; an instant before that of the last entry counts as that one. A recorder that goes
/// on after the front of a file, whose rest is cut off, leaves a file that gives the entries of that front
/// and then, in the same way, what was noted. Whoever drives a recorder relies on this.
pub fn files_are_records()
    ensures { FilesAreRecords }
{
    flight_records_laws::records_grow();
    flight_records_laws::one_reading();
    flight_records_laws::pieces_are_read();
    flight_records_laws::short_forms_stand();
}
