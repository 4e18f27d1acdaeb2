//! `draw FILE EVENTS`: a picture of the run that a list of events makes on a network.
ghost use Rattle.std.specs.Prelude.{◌≡◌, IfOk, OnOk};
ghost use Rattle.command_parts.specs.command_faults.Ends.{DoneMeansZeroOr};
ghost use Rattle.std.specs.Io.KnownBytes.{Appends};
ghost use Rattle.svg_drawing.specs.Xml.{IsContent};

mod watched;

use crate::layout::{draw, draw_layered};
use byte_streams::Source;
use command_parts::{
    Fault, ReadSource, Returns, STANDARD_INPUT, events_status, printed, read_network, return_hint,
    say_hint, simulation_fault,
};
use run_recording::{Recording, Window, record, record_layers};
use std::alloc::{AllocError, Global};
use std::fs;
use std::io::{self, Input, Read, Write, writer};
use std::process::ExitCode;
use std::rt::Files;
use std::time::Clock;
use svg_drawing::spelled;
use topology::Net;
use watched::Watched;

/// The most columns of a picture.
pub const MOST_COLUMNS: u16 = 1200;

/// Which part of a run is drawn.
#[derive(Clone, Copy)]
pub struct Wanted {
    /// The most columns, 1 to [`MOST_COLUMNS`]; 0 counts as 1.
    pub columns: u16,
    /// The moments that are shown.
    pub window: Window,
    /// Whether lanes below the picture show what has settled.
    pub layers: bool,
}

/// A picture as a text.
#[derive(Drop)]
pub struct Drawn {
    /// The bytes of a file.
    pub text: Vec<u8>,
    /// How many lines of the events text were refused.
    pub refused: u64,
}

/// What makes a picture of a run.
pub trait Draws: Copy {
    /// The picture of the run that the events of a source make on a network.
    ///
    /// # Errors
    /// If memory runs out, or the source fails or gives too many bytes.
    fn drawn<S: Source>(self, alloc: Global, net: &Net, source: &mut S) -> Result<Drawn, Fault>;
}

impl Draws for Wanted {
    fn drawn<S: Source>(self, alloc: Global, net: &Net, source: &mut S) -> Result<Drawn, Fault> {
        let columns = usize::from(self.columns.max(1));
        let recording = if self.layers {
            record_layers(alloc, net, source, columns, self.window)
        } else {
            record(alloc, net, source, columns, self.window)
        };
        let recording = recording.map_err(|fault| simulation_fault(fault))?;
        match picture(alloc, net, &recording) {
            Ok(text) => Ok(Drawn {
                text,
                refused: recording.refused(),
            }),
            Err(_) => Err(Fault::Memory),
        }
    }
}

/// Prints the picture of the run that the events of a file, or of standard input for `-`, make on
/// the network of a file. Then, if lines were refused and the events have carriage returns, it says
/// on standard error why such lines are refused. If `shows` is set, a line on standard error shows
/// how much of the events was read, once two seconds have passed.
///
/// What is unproved: which text [`Draws::drawn`] makes of a run, that the events of a file are the
/// bytes that were read, and that the picture reached standard output; neither the file nor
/// standard output says what its bytes are. [`draw`](crate::draw) says what a picture shows of a
/// recording.
///
/// # Errors
/// If no network can be read from the file, the events cannot be read or are too long, memory runs
/// out, or standard output does not take the picture: the first of these that occurs. Nothing is
/// printed but the whole picture, as far as standard output takes it.
pub fn run<R: Files + Input + Clock + Print + Eprint + AllocGlobal, D: Draws>(
    rt: &R,
    network: &str,
    events: &str,
    wanted: D,
    shows: bool,
) -> Result<ExitCode, Fault>
    ensures { DoneMeansZeroOr 3 result }
{
    let net = read_network(rt, network)?;
    let refused = if events == STANDARD_INPUT {
        print_picture(rt, &net, rt.reader(), wanted, shows)?
    } else {
        let file = fs::open(rt, events).map_err(|_| Fault::EventsUnreadable)?;
        print_picture(rt, &net, file, wanted, shows)?
    };
    Ok(events_status(refused))
}

/// Prints the picture of the run that the events of a reader make, and then says what there is to
/// say about refused lines. Returns how many lines were refused.
fn print_picture<R: Clock + Print + Eprint + AllocGlobal, E: Read + Drop, D: Draws>(
    rt: &R,
    net: &Net,
    events: E,
    wanted: D,
    shows: bool,
) -> Result<u64, Fault> {
    let events = Returns::new(ReadSource::new(events));
    let mut source = Watched::start(rt, events, shows);
    let written = write_picture(rt.alloc(), net, &mut source, &mut writer(rt), wanted);
    let events = source.end();
    let refused = printed(rt, written?)?;
    say_hint(rt, return_hint(refused, events.were_seen()));
    Ok(refused)
}

/// Writes the picture of the run that the events of a source make. Returns how many lines were
/// refused, or the writer's error.
///
/// # Errors
/// If memory runs out, or the source fails or gives too many bytes.
pub fn write_picture<S: Source, W: Write, D: Draws>(
    alloc: Global,
    net: &Net,
    source: &mut S,
    output: &mut W,
    wanted: D,
) -> Result<io::Result<u64>, Fault> {
    let drawn = wanted.drawn(alloc, net, source)?;
    Ok(put(output, drawn.text.as_slice(), drawn.refused))
}

/// The picture of a recording, as a text: with lanes of what has settled, if the recording has
/// them.
fn picture(alloc: Global, net: &Net, recording: &Recording) -> Result<Vec<u8>, AllocError>
    // Its tags nest.
    ensures { IfOk result (λ text. IsContent text.items) }
{
    let drawing = if recording.lanes().is_some() {
        draw_layered(alloc, net, recording)?
    } else {
        draw(alloc, net, recording)?
    };
    spelled(alloc, &drawing)
}

/// Writes the whole text, and then returns the given number.
fn put<W: Write>(output: &mut W, text: &[u8], refused: u64) -> io::Result<u64>
    ensures text { OnOk result (Appends (W.contents output.old) (W.contents output.new) text.now) }
    ensures ok { IfOk result (λ given. given ≡ refused) }
{
    output.write_all(text)?;
    Ok(refused)
}
