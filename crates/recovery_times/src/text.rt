//! The lines that show a window and the times.
ghost use Rattle.std.specs.Prelude.{◌≡◌, ◌++◌, IfOk, OnOk, string_bytes};
ghost use Rattle.recovery_times.specs.Text.{times_text, tenths_line, millis_line};

use crate::premises::Premises;
use crate::rounding::{millis_up, tenths_up};
use std::alloc::{AllocError, Allocator, Global};
use std::fmt::Write;
use topology::Net;

/// Three lines: the window to a tenth of a millisecond, and in whole milliseconds the time after
/// which the network serves and that within which it lends to one who waits alone. Each is rounded
/// up.
///
/// # Errors
/// Memory runs out.
pub fn times_text<A: Allocator + Copy>(
    alloc: Global,
    net: &Net<A>,
    premises: &Premises,
) -> Result<String, AllocError>
    ensures { IfOk result (λ text. string_bytes text ≡ times_text net.now premises.now) }
{
    let mut text = String::new(alloc);
    push_tenths(&mut text, "window", premises.window())?;
    push_millis(&mut text, "recovers within", premises.recovers_within(net))?;
    push_millis(&mut text, "lends within", premises.lends_within(net))?;
    Ok(text)
}

/// Adds a line of words and of a time in microseconds, shown in tenths of a millisecond.
fn push_tenths(text: &mut String, words: &str, micros: u64) -> Result<(), AllocError>
    ensures { OnOk result (string_bytes text.new
        ≡ string_bytes text.old ++ tenths_line words.now micros) }
{
    let tenths = tenths_up(micros);
    let (whole, tenth) = (tenths / 10, tenths % 10);
    writeln!(text, "{words} {whole}.{tenth} ms")
}

/// Adds a line of words and of a time in microseconds, shown in whole milliseconds.
fn push_millis(text: &mut String, words: &str, micros: u64) -> Result<(), AllocError>
    ensures { OnOk result (string_bytes text.new
        ≡ string_bytes text.old ++ millis_line words.now micros) }
{
    let millis = millis_up(micros);
    writeln!(text, "{words} {millis} ms")
}
