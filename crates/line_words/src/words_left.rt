//! The words of a line, one after the other.
ghost use Rattle.std.specs.Prelude.{◌≡◌, ◌≤◌, length};
ghost use Rattle.std.specs.Option.{option_and_then, option_copied};
ghost use Rattle.line_words.specs.Words.{words, word_len, first_word, other_words, ends};
ghost use Rattle.line_words.specs.Numbers.{number, number_or_none, yes_or_no};

use crate::numbers::{number, number_or_none, yes_or_no};
use std::marker::Model;

/// The words of a line that are still to be read, separated by single spaces.
#[derive(Drop)]
pub struct Words<'a> {
    /// The rest of the line from its next word on; none if no word is left.
    rest: Option<&'a [u8]>,
}

impl<'a> Model for Words<'a> {
    ghost use Rattle.std.specs.Prelude.{List, ℕ, []};
    ghost use Rattle.std.specs.Option.{option_map_or};
    ghost use Rattle.line_words.specs.Words.{words};

    ghost Value = { List (List ℕ) };

    ghost view = { λ w. option_map_or (λ line. words line.now) w.rest [] };
}

impl<'a> Words<'a> {
    /// All words of a line.
    pub fn of(line: &'a [u8]) -> Words<'a>
        ensures { result ≡ words line.now }
    {
        Words { rest: Some(line) }
    }

    /// The next word.
    pub fn next(&mut self) -> Option<&'a [u8]>
        ensures word { option_copied result ≡ first_word self.old }
        ensures rest { self.new ≡ other_words self.old }
    {
        let line = self.rest?;
        let len = word_len(line);
        self.rest = line.get(len + 1..);
        Some(&line[..len])
    }

    /// The next word, as a number.
    pub fn number(&mut self) -> Option<u16>
        ensures value { result ≡ option_and_then number (first_word self.old) }
        ensures rest { self.new ≡ other_words self.old }
    {
        self.next().and_then(number)
    }

    /// The next word, as a number or `none`.
    pub fn number_or_none(&mut self) -> Option<Option<u16>>
        ensures value { result ≡ option_and_then number_or_none (first_word self.old) }
        ensures rest { self.new ≡ other_words self.old }
    {
        self.next().and_then(number_or_none)
    }

    /// The next word, as `yes` or `no`.
    pub fn yes_or_no(&mut self) -> Option<bool>
        ensures value { result ≡ option_and_then yes_or_no (first_word self.old) }
        ensures rest { self.new ≡ other_words self.old }
    {
        self.next().and_then(yes_or_no)
    }

    /// The value, if no word is left.
    pub fn end<T: Drop>(&self, value: T) -> Option<T>
        ensures { result ≡ ends value self.now }
    {
        match self.rest {
            None => Some(value),
            Some(_) => None,
        }
    }
}

/// How many bytes come before the first space; all if there is none.
fn word_len(line: &[u8]) -> usize
    ensures len { result ≡ word_len line.now }
    ensures within { result ≤ length line.now }
{
    for (i, byte) in line.iter().enumerate() {
        if *byte == b' ' {
            return i;
        }
    }
    line.len()
}
