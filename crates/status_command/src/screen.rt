//! How a watch is shown: in place on a terminal, or as one block after the other.
ghost use Rattle.std.specs.Prelude.{◌≡◌, ◌==◌, ◌||◌, true, false, OnOk};
ghost use Rattle.status_command.specs.declared.screen.WatchEnd.TheVariants.{NotYet};
ghost use Rattle.status_command.specs.declared.screen.Screen.TheVariants.{Lines};
ghost use Rattle.status_command.specs.declared.status.AnswerForm.TheVariants.{Json};
ghost use Rattle.status_command.specs.Shown.{after_block, is_in_place};

use crate::status::AnswerForm;
use std::alloc::{AllocError, Global};
use std::fmt::Write;
use std::fs::File;
use std::io::{Input, IsTerminal, Read};
use std::process::{Command, Processes, Stdio};
use std::rt::Files;
use std::time::{Clock, Duration, Instant};
use std::{fs, io, thread};

/// Whether a watch goes on.
#[derive(Clone, Copy, Drop)]
pub enum WatchEnd {
    /// Nobody asked for its end.
    NotYet,
    /// Somebody asked for its end.
    Asked,
}

/// Written before the first picture: another page, no cursor, and long lines are cut.
const BEGIN: &str = "\x1b[?1049h\x1b[?25l\x1b[?7l";

/// Written after the last picture.
const END: &str = "\x1b[?7h\x1b[?25h\x1b[?1049l";

/// Where a watch is shown.
#[derive(Drop)]
pub enum Screen {
    /// On a terminal that had these settings.
    Terminal(String),
    /// Elsewhere, as blocks: whether one was printed, so that an empty line comes before the next
    /// one.
    Blocks(bool),
    /// Anywhere, as one line a reading.
    Lines,
}

impl Screen {
    /// The terminal, if both standard input and standard output are terminals and the form is
    /// lines; else blocks, or lines for JSON. On a terminal, keys are not echoed from then on, and
    /// Ctrl-C is a key. If it cannot be set or written, it gets its settings again, and blocks are
    /// shown.
    pub fn begin<R: Files<File = File> + Print + Processes + AllocGlobal>(
        rt: &R,
        form: AnswerForm,
    ) -> Screen
        // JSON is for programs, even on a terminal.
        ensures { form ≡ Json → result ≡ Lines }
    {
        if form == AnswerForm::Json {
            return Screen::Lines;
        }
        if !is_terminal(rt, "/dev/stdout") {
            return Screen::Blocks(false);
        }
        let Some(settings) = settings(rt, rt.alloc()) else {
            return Screen::Blocks(false);
        };
        let screen = Screen::Terminal(settings);
        if rt.print(BEGIN).is_err() {
            screen.end(rt);
            return Screen::Blocks(false);
        }
        screen
    }

    /// Shows a block.
    ///
    /// # Errors
    /// If the output fails, or memory runs out.
    pub fn show<R: Print + AllocGlobal>(&mut self, rt: &R, block: &str) -> io::Result<()>
        ensures { OnOk result (self.new ≡ after_block self.old) }
    {
        match self {
            Screen::Terminal(_) => rt.print(in_place(rt.alloc(), block)?.as_str())?,
            Screen::Blocks(has_shown) => {
                if *has_shown {
                    rt.print("\n")?;
                }
                *has_shown = true;
                rt.print(block)?;
            }
            Screen::Lines => rt.print(block)?,
        }
        Ok(())
    }

    /// Rests for this many milliseconds, or until somebody types a key that ends the watch. The end
    /// counts as asked for, too, if the terminal is gone or has no clock.
    pub fn rest<R: Clock + Input>(&self, rt: &R, millis: u64) -> WatchEnd
        // Elsewhere than on a terminal, nobody asks for the end.
        ensures { is_in_place self.now ≡ false → result ≡ NotYet }
    {
        match self {
            Screen::Terminal(_) => typed_end(rt, Duration::from_millis(millis)),
            _ => {
                thread::sleep(rt, Duration::from_millis(millis));
                WatchEnd::NotYet
            }
        }
    }

    /// Leaves the terminal as it was.
    pub fn end<R: Print + Processes + AllocGlobal>(&self, rt: &R) {
        if let Screen::Terminal(settings) = self {
            let _ = rt.print(END);
            let _ = stty(rt, rt.alloc(), &[settings.as_str()]);
        }
    }
}

/// Whether a path is that of a terminal.
fn is_terminal<R: Files<File = File>>(rt: &R, path: &str) -> bool {
    match fs::open(rt, path) {
        Ok(file) => file.is_terminal(),
        Err(_) => false,
    }
}

/// The settings of the terminal on standard input, which now gets those of a watch: a key is read
/// when it is typed, and a read ends after a tenth of a second without one. None if it is no
/// terminal.
fn settings<R: Processes>(rt: &R, alloc: Global) -> Option<String> {
    let before = stty(rt, alloc, &["-g"])?;
    let watching = ["-icanon", "-isig", "-echo", "min", "0", "time", "1"];
    if stty(rt, alloc, &watching).is_none() {
        let _ = stty(rt, alloc, &[before.as_str()]);
        return None;
    }
    Some(before)
}

/// What `stty` prints about the terminal on standard input; none if it fails.
fn stty<R: Processes>(rt: &R, alloc: Global, words: &[&str]) -> Option<String> {
    let output = stty_output(rt, alloc, words).ok()?;
    let text = str::from_utf8(output.as_slice()).ok()?;
    String::from_str(alloc, text.trim_ascii_end()).ok()
}

/// What `stty` prints about the terminal on standard input, as bytes.
fn stty_output<R: Processes>(rt: &R, alloc: Global, words: &[&str]) -> io::Result<Vec<u8>> {
    let output = stty_command(alloc, words)?.output(rt)?;
    if output.status.success() {
        Ok(output.stdout)
    } else {
        Err(io::Error::from(io::ErrorKind::Other))
    }
}

/// The command `stty` with these words, for the terminal on standard input.
fn stty_command(alloc: Global, words: &[&str]) -> io::Result<Command> {
    let mut command = Command::new(alloc, "stty")?;
    command.args(words.iter().copied())?;
    command.stdin(Stdio::inherit()).stderr(Stdio::null());
    Ok(command)
}

/// A block written over the one before: from the top left, with each line, and all below the
/// block, cleared.
fn in_place(alloc: Global, block: &str) -> Result<String, AllocError> {
    let mut text = String::from_str(alloc, "\x1b[H")?;
    for line in block.lines() {
        write!(text, "{line}\x1b[K\n")?;
    }
    text.push_str("\x1b[J")?;
    Ok(text)
}

/// Waits until somebody types a key that ends a watch, at most for this long.
fn typed_end<R: Clock + Input>(rt: &R, rest: Duration) -> WatchEnd {
    let Ok(start) = Instant::now(rt) else {
        return WatchEnd::Asked;
    };
    for _ in 0..u64::MAX {
        if has_end_key(rt) {
            return WatchEnd::Asked;
        }
        match start.elapsed(rt) {
            Ok(time) if time < rest => {}
            Ok(_) => return WatchEnd::NotYet,
            Err(_) => return WatchEnd::Asked,
        }
    }
    WatchEnd::NotYet
}

/// The most keys that are read at a time.
const KEYS: usize = 64;

/// Whether a key that ends a watch was typed, or the terminal is gone.
fn has_end_key<R: Input>(rt: &R) -> bool {
    let mut keys = [0u8; KEYS];
    match rt.reader().read(&mut keys) {
        Ok(count) => keys[..count.min(KEYS)].iter().any(|key| is_end_key(*key)),
        Err(error) => error.kind() != io::ErrorKind::Interrupted,
    }
}

/// Whether a key ends a watch: Ctrl-C, Ctrl-D, Ctrl-\ or `q`.
fn is_end_key(key: u8) -> bool
    ensures { result ≡ (key == 3 || key == 4 || key == 28 || key == 113) }
{
    matches!(key, 3 | 4 | 28 | b'q')
}
