//! A whole command line of `lock`, in which nothing is left out.
ghost use Rattle.std.specs.Prelude.{◌≡◌, ◌++◌, IfOk, OnOk};
ghost use Rattle.client_words.specs.Words.{words_read, texts, text_if, placed, nothing_read};
ghost use Rattle.client_words.specs.Needed.{needed, whole_texts};

use crate::reading::Reading;
use std::alloc::{AllocError, Global};
use std::convert::AsStr;

/// What stands in for words that are left out.
#[derive(Clone, Copy)]
pub struct StandIns<'a> {
    /// A folder, for DIR.
    pub folder: Option<&'a str>,
    /// A node, for ID.
    pub node: Option<&'a str>,
}

impl<'a> StandIns<'a> {
    /// The stand-ins that are needed once the words in front of the command are read this far.
    fn needed(self, read: Reading) -> StandIns<'a>
        ensures { result ≡ needed read self.entry }
    {
        let folder = if read.needs_folder() {
            self.folder
        } else {
            None
        };
        let node = if read.needs_node(folder.is_some()) {
            self.node
        } else {
            None
        };
        StandIns { folder, node }
    }
}

/// The words of a command line of `lock`, with DIR and ID if they were left out and something stands in
/// for them: DIR after the command's name, ID in front of `--` or at the end. Short options are spelled
/// out. The result is empty if there are fewer than two words.
///
/// # Errors
/// If memory runs out.
pub fn whole_words<'a, S: AsStr>(
    alloc: Global,
    words: &'a [S],
    instead: StandIns<'a>,
) -> Result<Vec<&'a str>, AllocError>
    ensures { IfOk result (λ whole. texts whole.items ≡ whole_texts S.text words.now instead.entry) }
{
    let mut whole = Vec::new(alloc);
    let [program, name, rest @ ..] = words else {
        return Ok(whole);
    };
    whole.push(program.as_str())?;
    whole.push(name.as_str())?;
    let needed = instead.needed(reading_of(rest));
    if let Some(folder) = needed.folder {
        whole.push(folder)?;
    }
    add_words(&mut whole, rest, needed.node)?;
    Ok(whole)
}

/// How far the words in front of the command are read.
fn reading_of<S: AsStr>(words: &[S]) -> Reading
    ensures { result ≡ words_read S.text words.now }
{
    let mut reading = Reading::new();
    for word in words {
        reading = reading.after(word.as_str());
    }
    reading
}

/// Adds the words after the command's name, and a node in front of `--` or at the end.
fn add_words<'a, S: AsStr>(
    whole: &mut Vec<&'a str>,
    words: &'a [S],
    node: Option<&'a str>,
) -> Result<(), AllocError>
    ensures { OnOk result (texts whole.new.items
        ≡ texts whole.old.items ++ placed S.text (text_if node.entry) nothing_read words.now) }
{
    let mut node = node;
    let mut reading = Reading::new();
    for word in words {
        let word = word.as_str();
        if reading.opens_command(word)
            && let Some(node) = node.take()
        {
            whole.push(node)?;
        }
        whole.push(reading.said(word))?;
        reading = reading.after(word);
    }
    if let Some(node) = node {
        whole.push(node)?;
    }
    Ok(())
}
