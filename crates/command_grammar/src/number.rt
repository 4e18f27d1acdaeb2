//! Numbers that a command line gives.
ghost use Rattle.std.specs.Prelude.{◌≡◌};
ghost use Rattle.command_grammar.specs.Numbers.{IsRead};

use line_words::decimal_number;

/// A number that a command takes: by which parameter, and in which range.
#[derive(Clone, Copy, Debug)]
pub struct Number<'a> {
    /// The id of its parameter.
    pub id: &'a str,
    /// The name of the parameter in messages.
    pub name: &'a str,
    /// The least that it may be.
    pub least: u64,
    /// The most that it may be.
    pub most: u64,
}

impl Number<'_> {
    /// The number that a word spells: decimal, with no sign and no leading zero, from `least` to
    /// `most`; none for any other word. (`clap`'s own numbers take `+1` and `01`.)
    pub fn read(&self, word: &str) -> Option<u64>
        ensures { IsRead self.now.least self.now.most word.now result }
    {
        match decimal_number(word, self.most) {
            Some(value) if value >= self.least => Some(value),
            _ => None,
        }
    }
}
