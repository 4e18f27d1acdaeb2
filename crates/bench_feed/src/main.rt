//! Measures how fast `LineReader::feed` reads: `bench_feed TEXT LINES PIECE`.
//!
//! TEXT is `good`, `noise`, `flat`, `empty` or `short`, LINES is its length in lines of 22 bytes,
//! and PIECE is the number of bytes of a piece. The program prints how many frames it read, and on
//! standard error how long that took. The gate runs it on a small text; `bench/feed.sh` runs it on
//! 64 MiB.
#![tactic(auto)]

ghost use Rattle.std.specs.Prelude.{◌<◌, IfOk};

mod text;

use anyhow::{Result, bail};
use frame_codec::LineReader;
use std::alloc::AllocError;
use std::env;
use std::time::Instant;
use text::{FeedKind, make_text};
use topology::{Frame, Net};

/// What to measure.
#[derive(Clone, Copy)]
struct FeedRequest {
    kind: FeedKind,
    /// The length of the text, in lines of 22 bytes.
    lines: u32,
    /// The number of bytes of a piece, at least 1.
    piece: u32,
}

fn main(rt: HostRuntime) -> Result<()> {
    let words: Vec<String> = env::args(&rt)?.collect(rt.alloc())?;
    measure(&rt, request_of(words.as_slice())?)
}

/// The request of the command line.
fn request_of(words: &[String]) -> Result<FeedRequest>
    ensures { IfOk result (λ request. 0 < request.piece) }
{
    let [_program, kind, lines, piece] = words else {
        bail!("bench_feed TEXT LINES PIECE");
    };
    let Some(kind) = FeedKind::named(kind.as_str()) else {
        bail!("TEXT is good, noise, flat, empty or short");
    };
    let lines = lines.as_str().parse()?;
    let piece = piece.as_str().parse()?;
    if piece == 0 {
        bail!("PIECE is at least 1");
    }
    Ok(FeedRequest { kind, lines, piece })
}

/// Makes the text, and measures how fast it is read.
fn measure(rt: &HostRuntime, request: FeedRequest) -> Result<()>
    requires { 0 < request.piece }
{
    let text = make_text(rt.alloc(), request.kind, request.lines)?;
    read_text(rt, &text, request.piece)
}

/// Reads a text, and prints how many frames it holds; on standard error, how long that took.
fn read_text(rt: &HostRuntime, text: &[u8], piece: u32) -> Result<()>
    requires { 0 < piece }
{
    let net = Net::make(rt.alloc(), 3, 0, 1, 0, &[(0, 1), (1, 2)])?;
    let start = Instant::now(rt)?;
    let frames = count_frames(text, piece as usize, &net, Vec::new(rt.alloc()))?;
    let micros = start.elapsed(rt)?.as_micros();
    eprintln!(rt; "{} bytes in {} microseconds", text.len(), micros)?;
    println!(rt; "{frames} frames")?;
    Ok(())
}

/// How many frames a reader finds in a text that comes in pieces.
fn count_frames(text: &[u8], size: usize, net: &Net, mut out: Vec<Frame>) -> Result<u64, AllocError>
    requires { 0 < size }
{
    let mut reader = LineReader::new();
    let mut count = 0u64;
    for piece in text.chunks(size) {
        reader.feed(piece, net, &mut out)?;
        count = count.saturating_add(out.len() as u64);
        out.clear();
    }
    Ok(count)
}
