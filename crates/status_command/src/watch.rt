//! `status --watch`: shows how nodes stand, again and again.
ghost use Rattle.std.specs.Prelude.{◌≡◌, IfOk, OnOk, string_bytes};
ghost use Rattle.status_command.specs.Reasons.{IsEnd};
ghost use Rattle.status_readings.specs.Minute.{rates_of};
ghost use Rattle.status_readings.specs.Picture.{picture_text};
ghost use Rattle.status_command.specs.Shown.{minute_after};

use crate::asking::ask_all;
use crate::folder::nodes_asked;
use crate::looks::loans_of;
use crate::notice::{StatusNotice, reported, why_not_written};
use crate::question::Question;
use crate::screen::{Screen, WatchEnd};
use crate::status::{AnswerForm, answers_of, text_of, why_not_asked};
use status_readings::{Minute, NodeAnswer, NodeLoans, Sample, picture};
use std::alloc::{AllocError, Global};
use std::fs::File;
use std::io;
use std::io::Input;
use std::net::Net;
use std::process::Processes;
use std::rt::Files;
use std::time::{Clock, Instant};

/// How many milliseconds a node has to send its line.
const WAIT: u32 = 300;

/// What to watch, and how.
#[derive(Clone, Copy)]
pub struct Watch<'a> {
    /// The folder of the nodes' sockets.
    pub folder: &'a str,
    /// The nodes; if none is named, those that have a socket there.
    pub nodes: &'a [u16],
    /// How many milliseconds pass between two readings.
    pub every: u64,
    /// The form in which readings are shown.
    pub form: AnswerForm,
}

/// Shows how nodes stand again and again: in place on a terminal, until a key that ends the watch
/// is typed, such as Ctrl-C or `q`; elsewhere one after the other, with an empty line between,
/// until the output fails. JSON is shown one line after the other, even on a terminal. The watch
/// also ends if a reading fails, say if the folder is gone. Returns the exit status: 0 after a key,
/// 1 after a failure, and 141 if the reader of standard output is gone.
pub fn run<R: Net + Files<File = File> + Clock + Input + Print + Eprint + Processes + AllocGlobal>(
    rt: &R,
    watch: &Watch,
) -> u8
    ensures { IsEnd result }
{
    let mut screen = Screen::begin(rt, watch.form);
    let done = show_all(rt, watch, &mut screen);
    screen.end(rt);
    match done {
        Ok(()) => 0,
        Err(notice) => reported(rt, notice),
    }
}

/// Shows one reading after the other until somebody ends the watch.
fn show_all<'a, R: Net + Files + Clock + Input + Print + Eprint + AllocGlobal>(
    rt: &R,
    watch: &Watch<'a>,
    screen: &mut Screen,
) -> Result<(), StatusNotice<'a>> {
    let Ok(start) = Instant::now(rt) else {
        return Err(StatusNotice::System);
    };
    let mut minute = Minute::new(rt.alloc());
    for _ in 0..u64::MAX {
        let text = shown(rt, watch, start, &mut minute)?;
        if let Err(error) = screen.show(rt, text.as_str()) {
            return Err(why_not_written(rt, error));
        }
        if let WatchEnd::Asked = screen.rest(rt, watch.every) {
            return Ok(());
        }
    }
    Ok(())
}

/// Takes a reading, and returns what is shown of it.
fn shown<'a, R: Net + Files + Clock + AllocGlobal>(
    rt: &R,
    watch: &Watch<'a>,
    start: Instant,
    minute: &mut Minute,
) -> Result<String, StatusNotice<'a>> {
    let nodes = nodes_asked(rt, watch.folder, watch.nodes)?;
    let read = match watch.form {
        AnswerForm::Json => json(rt, rt.alloc(), watch.folder, nodes.as_slice()),
        AnswerForm::Lines => block(
            rt,
            rt.alloc(),
            watch.folder,
            nodes.as_slice(),
            start,
            minute,
        ),
    };
    match read {
        Ok(text) => Ok(text),
        Err(error) => Err(why_not_asked(error.kind())),
    }
}

/// A reading as JSON.
fn json<R: Net + Clock>(rt: &R, alloc: Global, folder: &str, nodes: &[u16]) -> io::Result<String> {
    let answers = answers_of(rt, alloc, folder, nodes, WAIT)?;
    Ok(text_of(alloc, answers.as_slice(), AnswerForm::Json)?)
}

/// A reading as a picture, with the loans of the last minute.
fn block<R: Net + Clock>(
    rt: &R,
    alloc: Global,
    folder: &str,
    nodes: &[u16],
    start: Instant,
    minute: &mut Minute,
) -> io::Result<String> {
    let answers = answers_of(rt, alloc, folder, nodes, WAIT)?;
    let looks = ask_all(rt, alloc, Question::Look, folder, nodes, WAIT)?;
    let loans = loans_of(alloc, looks.as_slice())?;
    let at = u64::try_from(start.elapsed(rt)?.as_millis()).unwrap_or(u64::MAX);
    Ok(picture_at(alloc, at, answers.as_slice(), loans.as_slice(), minute)?)
}

/// The picture of a reading at this time in milliseconds, with the loans of the minute before.
fn picture_at(
    alloc: Global,
    at: u64,
    answers: &[NodeAnswer],
    loans: &[NodeLoans],
    minute: &mut Minute,
) -> Result<String, AllocError>
    ensures picture { IfOk result (λ text. string_bytes text
        ≡ picture_text answers.now loans.now (rates_of minute.new.samples.items)) }
    ensures minute { OnOk result (minute.new.samples.items
        ≡ minute_after at loans.now minute.old.samples.items) }
{
    if let Some(sample) = Sample::of(at, loans) {
        minute.push(sample)?;
    }
    picture(alloc, answers, loans, minute.rates())
}
