//! The line that reports a refused line.
ghost use Rattle.std.specs.Prelude.{◌≡◌, ◌≤◌, Some, length};
ghost use Rattle.world.specs.SimulatedText.{fault_name, refusal_line};
ghost use Rattle.byte_streams.specs.Streams.{WritesAll};

use super::line::{Line, push_number};
use byte_streams::{Failed, Sink, write_all};
use judge::EventFault;

/// The name of a line that spells no event.
pub const UNREAD: &str = "Unread";

/// How a refusal is written.
pub fn fault_name(fault: EventFault) -> &'static str
    ensures name { result.now ≡ fault_name fault }
    ensures short { length result.now ≤ 10 }
{
    match fault {
        EventFault::NoNode => "NoNode",
        EventFault::NoLink => "NoLink",
        EventFault::NoItem => "NoItem",
        EventFault::OutOfRange => "OutOfRange",
        EventFault::Full => "Full",
        EventFault::Twice => "Twice",
        EventFault::Stranger => "Stranger",
        EventFault::NoSpare => "NoSpare",
        EventFault::Apart => "Apart",
    }
}

/// Writes `line N: NAME`.
pub fn write_refusal<W: Sink>(number: u64, name: &str, sink: &mut W) -> Result<(), Failed>
    requires { length name.now ≤ 10 }
    ensures { WritesAll result (refusal_line number (Some name.now)) (W.taken sink.old)
        (W.taken sink.new) (W.failures sink.old) (W.failures sink.new) }
{
    let mut line = Line::new();
    push_number(&mut line, "line ", number);
    line.push_str(": ");
    line.push_str(name);
    line.push_str("\n");
    write_all(sink, line.as_bytes())
}
