//! The line in which a node reports its status.
ghost use Rattle.std.specs.Prelude.{◌≡◌, is_some, OnSome, Some};
ghost use Rattle.line_words.specs.Numbers.{number, number_or_none, yes_or_no};
ghost use Rattle.line_words.specs.Words.{other_words};
ghost use Rattle.node_texts.specs.StatusText.{line_status, first_is, value_after, short_line_status};
ghost use Rattle.node_texts.specs.StatusText.{or_word, status_text};

use byte_lines::LineReading;
use line_words::Words;
use std::fmt;

/// The most bytes of a line that is read as a status line. No status line has more than 73.
pub const MOST_STATUS_BYTES: usize = 96;

/// The status of a node, as its status line says. Printed, it is that line, without its newline.
#[derive(Clone, Copy, Drop)]
pub struct StatusLine {
    /// The node's id.
    pub node: u16,
    /// Its distance to the root, as it has it.
    pub distance: u16,
    /// Its parent in the tree, as it has it.
    pub parent: Option<u16>,
    /// Whether it is privileged.
    pub token: bool,
    /// The ticket that its desk lends the lock to.
    pub lent: Option<u16>,
    /// How many tickets wait at its desk.
    pub waiting: u16,
}

impl StatusLine {
    /// What a line says, if it is a status line: `node V distance D parent P token T lent L waiting
    /// W`, with one space between words and each number in decimal, at most 65535, without leading
    /// zeros. The line is without its newline.
    pub fn read(line: &[u8]) -> Option<StatusLine>
        ensures { result ≡ line_status line.now }
    {
        let mut words = Words::of(line);
        let node = number_after(&mut words, b"node")?;
        let distance = number_after(&mut words, b"distance")?;
        let parent = number_or_none_after(&mut words, b"parent")?;
        let token = yes_or_no_after(&mut words, b"token")?;
        let lent = number_or_none_after(&mut words, b"lent")?;
        let waiting = number_after(&mut words, b"waiting")?;
        words.end(StatusLine {
            node,
            distance,
            parent,
            token,
            lent,
            waiting,
        })
    }
}

/// Takes a name and the number after it; none if the next words are not these.
fn number_after(words: &mut Words, name: &[u8]) -> Option<u16>
    ensures value { result ≡ value_after name.now number words.old }
    ensures rest { OnSome result (words.new ≡ other_words (other_words words.old)) }
{
    expect(words, name)?;
    words.number()
}

/// Takes a name and the number, or `none`, after it; none if the next words are not these.
fn number_or_none_after(words: &mut Words, name: &[u8]) -> Option<Option<u16>>
    ensures value { result ≡ value_after name.now number_or_none words.old }
    ensures rest { OnSome result (words.new ≡ other_words (other_words words.old)) }
{
    expect(words, name)?;
    words.number_or_none()
}

/// Takes a name and the `yes` or `no` after it; none if the next words are not these.
fn yes_or_no_after(words: &mut Words, name: &[u8]) -> Option<bool>
    ensures value { result ≡ value_after name.now yes_or_no words.old }
    ensures rest { OnSome result (words.new ≡ other_words (other_words words.old)) }
{
    expect(words, name)?;
    words.yes_or_no()
}

/// Takes the next word; none if it is not this word, or there is none.
fn expect(words: &mut Words, name: &[u8]) -> Option<()>
    ensures is { is_some result ≡ first_is name.now words.old }
    ensures rest { words.new ≡ other_words words.old }
{
    if words.next()? == name {
        Some(())
    } else {
        None
    }
}

/// Reads lines as status lines, in whatever pieces they arrive.
pub struct StatusReading;

impl LineReading<MOST_STATUS_BYTES> for StatusReading {
    type Read = Option<StatusLine>;

    ghost reading = { λ _. short_line_status };

    fn read(&self, line: &[u8]) -> Option<StatusLine> {
        StatusLine::read(line)
    }

    fn read_long(&self, _: &[u8]) -> Option<StatusLine> {
        None
    }
}

/// A number, or this word if there is none.
#[derive(Drop)]
pub(crate) struct OrWord(pub Option<u64>, pub &'static str);

impl OrWord {
    /// An id or a ticket, or this word if there is none.
    pub fn small(number: Option<u16>, word: &'static str) -> OrWord
        ensures { (result.0 ≡ number) × (result.1.now ≡ word.entry.now) }
    {
        OrWord(number.map(u64::from), word)
    }
}

impl fmt::Display for OrWord {
    ghost output = { λ number. Some (or_word number.1.now number.0) };

    fn fmt<W: fmt::Write>(&self, f: &mut fmt::Formatter<W>) -> fmt::Result {
        match self.0 {
            Some(number) => write!(f, "{number}"),
            None => f.write_str(self.1),
        }
    }
}

impl fmt::Display for StatusLine {
    ghost output = { λ line. Some (status_text line) };

    fn fmt<W: fmt::Write>(&self, f: &mut fmt::Formatter<W>) -> fmt::Result {
        let token = if self.token { "yes" } else { "no" };
        write!(
            f,
            "node {} distance {} parent {} token {token} lent {} waiting {}",
            self.node,
            self.distance,
            OrWord::small(self.parent, "none"),
            OrWord::small(self.lent, "none"),
            self.waiting
        )
    }
}
