//! What a picture says in words.
ghost use Rattle.std.specs.Prelude.{◌≡◌, ◌+◌, ◌++◌, List, OnOk, IfOk, string_bytes, decimal};
ghost use Rattle.run_recording.specs.configuration.ConfigurationView.{world_of};
ghost use Rattle.run_recording.specs.run_model.World.{World};
ghost use Rattle.run_recording.specs.run_model.declared.event.Event.{Event};
ghost use Rattle.run_recording.specs.judge.Judging.{counted_up_to};
ghost use Rattle.run_recording.specs.Recordings.{IsRecorded};
ghost use Rattle.run_picture.specs.Words.{title_words, size_words, limit_words, bound_words};
ghost use Rattle.run_picture.specs.Words.{headline_words, event_words, node_words, sweep_words};
ghost use Rattle.run_picture.specs.Words.{description_words, DescribesRun};
ghost use Rattle.svg_drawing.specs.Drawn.{drawn};
ghost use Rattle.run_picture.specs.Head.{head_shown, said_words};

use super::page::Page;
use run_recording::{Configuration, Recording};
use std::alloc::{AllocError, Global};
use std::fmt::Write;
use svg_drawing::{Anchor, Canvas, Colour, Point, Px};
use topology::Net;

/// Draws what comes first: the title and the description, for readers who do not see the picture;
/// the white ground; the headline; and below it what the run was.
pub fn draw_head(
    canvas: &mut Canvas,
    page: Page,
    net: &Net,
    recording: &Recording,
) -> Result<(), AllocError>
    ensures { OnOk result (drawn canvas.new
        ≡ drawn canvas.old ++ head_shown page net.now (said_words recording.now)) }
{
    let title = title(canvas.alloc(), net)?;
    canvas.note("title", title.as_str())?;
    let said = description(canvas.alloc(), recording)?;
    canvas.note("desc", said.as_str())?;
    let corner = Point { x: Px(0), y: Px(0) };
    canvas.rect(corner, page.width(), page.height(), Colour::Paper)?;
    let numbers = numbers(canvas.alloc(), net)?;
    let at = Point {
        x: Page::MARGIN,
        y: Px(26),
    };
    canvas.heading(at, numbers.as_str())?;
    let below = Point {
        x: Page::MARGIN,
        y: Px(46),
    };
    canvas.words(below, Anchor::Start, Colour::Ink, said.as_str())
}

/// The picture's title.
fn title(alloc: Global, net: &Net) -> Result<String, AllocError>
    ensures { IfOk result (λ words. string_bytes words ≡ title_words net.now) }
{
    let nodes = net.nodes();
    format!(in alloc; "A run of a lock on {nodes} nodes")
}

/// The numbers of the network.
fn numbers(alloc: Global, net: &Net) -> Result<String, AllocError>
    ensures { IfOk result (λ words. string_bytes words ≡ headline_words net.now) }
{
    let mut text = size(alloc, net)?;
    push_limits(&mut text, net)?;
    push_bounds(&mut text, net.bound(), net.sharp_bound())?;
    Ok(text)
}

/// How large the network is.
fn size(alloc: Global, net: &Net) -> Result<String, AllocError>
    ensures { IfOk result (λ words. string_bytes words ≡ size_words net.now) }
{
    let nodes = net.nodes();
    let edges = net.edges().len();
    let root = net.root();
    format!(in alloc; "nodes {nodes}, edges {edges}, root {root}")
}

/// Adds the limits of the network.
fn push_limits(text: &mut String, net: &Net) -> Result<(), AllocError>
    ensures { OnOk result (string_bytes text.new ≡ string_bytes text.old ++ limit_words net.now) }
{
    let capacity = net.capacity();
    let lease = net.lease();
    write!(text, ", capacity {capacity}, lease {lease}")
}

/// Adds both bounds.
fn push_bounds(text: &mut String, bound: u32, sharp: u32) -> Result<(), AllocError>
    ensures { OnOk result (string_bytes text.new
        ≡ string_bytes text.old ++ bound_words bound sharp) }
{
    write!(text, ", sweeps to recover {bound}, sharp {sharp}")
}

/// What the run was, and how it ended.
fn description(alloc: Global, recording: &Recording) -> Result<String, AllocError>
    ensures words { IfOk result (λ words. string_bytes words ≡ description_words
        recording.now.events (counted_up_to (recording.now.unread + recording.now.judge.refused))
        (world_of recording.now.judge.configuration) recording.now.judge.sweeps) }
    // Whatever run was recorded, the words describe that run.
    ensures says { (start : World) (es : List Event) → IsRecorded start es recording.now
        → IfOk result (λ words. DescribesRun start es recording.now.unread (string_bytes words)) }
{
    let configuration = recording.configuration();
    let mut text = events(alloc, recording.events(), recording.refused())?;
    push_nodes(&mut text, configuration)?;
    push_sweeps(&mut text, recording.sweeps(), configuration.net().bound())?;
    Ok(text)
}

/// How many events and refused lines there were.
fn events(alloc: Global, events: u64, refused: u64) -> Result<String, AllocError>
    ensures { IfOk result (λ words. string_bytes words ≡ event_words events refused) }
{
    format!(in alloc; "{events} events, {refused} lines refused; ")
}

/// Adds how many nodes are privileged and how many lend at the end.
fn push_nodes(text: &mut String, configuration: &Configuration) -> Result<(), AllocError>
    ensures { OnOk result (string_bytes text.new
        ≡ string_bytes text.old ++ node_words (world_of configuration.now)) }
{
    let privileged = configuration.privileged();
    let lending = configuration.lending();
    write!(
        text,
        "at the end privileged {privileged}, lending {lending}, "
    )
}

/// Adds how many sweeps have ended since the last damage, and how many the bound asks for.
fn push_sweeps(text: &mut String, sweeps: u64, bound: u32) -> Result<(), AllocError>
    ensures { OnOk result (string_bytes text.new
        ≡ string_bytes text.old ++ sweep_words sweeps bound) }
{
    write!(text, "sweeps since the last damage {sweeps} of {bound}")
}

/// A number, as a text.
pub fn numeral(alloc: Global, number: u64) -> Result<String, AllocError>
    ensures { IfOk result (λ words. string_bytes words ≡ decimal number) }
{
    format!(in alloc; "{number}")
}
