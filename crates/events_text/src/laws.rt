//! Laws of the events text, each the contract of a function that does nothing.
ghost use Rattle.events_text.specs.EventLaws.{EventsHaveOneSpelling, EventsAreRead};

/// Each event whose numbers are below 65536 is read from one line and from no other: its words,
/// with a space between each two and each number in decimal. So an events text can be written again
/// from what was read, except for the lines that are passed over or unread; and a reader who doubts
/// the grammar may read these words in place of it.
pub fn one_spelling()
    ensures events_spelled { EventsHaveOneSpelling }
    ensures events_read { EventsAreRead }
{
    line_words::laws::one_spelling();
}
