//! The words of `lock` in front of its command, as far as they are read.
ghost use Rattle.std.specs.Prelude.{◌≡◌};
ghost use Rattle.client_words.specs.Words.{takes_value, is_option, is_node_name, spelled_out, read_place};
ghost use Rattle.client_words.specs.Words.{read_word, opens_command, needs_folder, needs_node};
ghost use Rattle.client_words.specs.Words.{nothing_read, said};

use line_words::number;

/// How far the words of `lock` are read: those in front of its command.
#[derive(Clone, Copy)]
pub struct Reading {
    /// How many positional words were read: DIR, ID and the command's name. At most three count.
    pub places: u8,
    /// Whether the first of them may be an ID.
    pub is_node: bool,
    /// Whether the next word is the value of an option.
    pub is_value: bool,
    /// Whether all words that follow are the command's.
    pub is_over: bool,
}

impl Reading {
    /// Nothing is read yet.
    pub fn new() -> Reading
        ensures { result ≡ nothing_read }
    {
        Reading {
            places: 0,
            is_node: false,
            is_value: false,
            is_over: false,
        }
    }

    /// What is known after one more word.
    pub fn after(self, word: &str) -> Reading
        ensures { result ≡ read_word self word.now }
    {
        if self.is_over {
            self
        } else if self.is_value {
            Reading {
                is_value: false,
                ..self
            }
        } else if word == "--" {
            Reading {
                is_over: true,
                ..self
            }
        } else if is_option(word) {
            Reading {
                is_value: takes_value(word),
                ..self
            }
        } else {
            self.after_place(word)
        }
    }

    /// What is known after a positional word.
    fn after_place(self, word: &str) -> Reading
        ensures { result ≡ read_place self word.now }
    {
        Reading {
            places: if self.places < 3 { self.places + 1 } else { 3 },
            is_node: self.is_node || self.places == 0 && is_node_name(word),
            is_value: false,
            is_over: self.places >= 2,
        }
    }

    /// Whether this word, which is next, is the `--` in front of the command.
    pub fn opens_command(self, word: &str) -> bool
        ensures { result ≡ opens_command self word.now }
    {
        !self.is_over && !self.is_value && word == "--"
    }

    /// How this word, which is next, is spelled: a short option in front of the command in its long
    /// form, unless it is a value.
    pub fn said(self, word: &str) -> &str
        ensures { result.now ≡ said self word.now }
    {
        if self.is_over || self.is_value {
            word
        } else {
            spelled_out(word)
        }
    }

    /// Whether DIR is left out, if something stands in for it: there is no positional word, or one
    /// that may be an ID.
    pub fn needs_folder(self) -> bool
        ensures { result ≡ needs_folder self }
    {
        self.places == 0 || self.places == 1 && self.is_node
    }

    /// Whether ID is left out. `has_folder` says whether a folder stands in for DIR.
    pub fn needs_node(self, has_folder: bool) -> bool
        ensures { result ≡ needs_node has_folder self }
    {
        self.places == 0 || self.places == 1 && !(self.is_node && has_folder)
    }
}

/// The long form of a short option, and any other word as it is.
fn spelled_out(word: &str) -> &str
    ensures { result.now ≡ spelled_out word.now }
{
    match word {
        "-n" => "--no-wait",
        "-E" => "--lost-status",
        _ => word,
    }
}

/// Whether a word is an option.
fn is_option(word: &str) -> bool
    ensures { result ≡ is_option word.now }
{
    word.len() > 1 && word.starts_with("-")
}

/// Whether a word is an option whose value is the next word.
fn takes_value(word: &str) -> bool
    ensures { result ≡ takes_value word.now }
{
    matches!(word, "--timeout" | "--lost-status" | "-E")
}

/// Whether a word may be an ID: `any`, or a number.
fn is_node_name(word: &str) -> bool
    ensures { result ≡ is_node_name word.now }
{
    word == "any" || number(word.as_bytes()).is_some()
}
