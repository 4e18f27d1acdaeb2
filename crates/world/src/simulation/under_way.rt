//! A simulation under way.
ghost use Rattle.std.specs.Prelude.{◌≡◌, ◌+◌, ◌-◌, ◌^◌, ◌<◌, ◌≤◌, ℕ, List, [], Option, OnOk, IfErr};
ghost use Rattle.std.specs.Prelude.{IfSome, option_map, length};
ghost use Rattle.world.specs.Simulating.{longest_text, HasCause};
ghost use Rattle.byte_streams.specs.Streams.{CountsFailures};
ghost use Rattle.world.specs.declared.simulation.SimFault.TheVariants.{Write};
ghost use Rattle.world.specs.SimulatedText.{line_refusal};
ghost use Rattle.world.specs.UnderWay.{HasSeenLine, IsUnderWay, RunsNext, RunsLast, TakesNext};
ghost use Rattle.world.specs.UnderWay.{ReadsAll, EndsThere, LeadsThere};
ghost use Rattle.judge.specs.configuration.ConfigurationView.{world_of};

use super::refusal::{UNREAD, fault_name, write_refusal};
use super::state::write_state;
use super::{LONGEST_TEXT, PIECE, SimFault, Summary};
use byte_lines::laws as byte_lines_laws;
use byte_streams::{Failed, Sink, Source};
use events_text::{EventReader, TextLine};
use judge::{Judge, World};
use std::alloc::{Allocator, Global};
use std::marker::Model;

/// What a simulation keeps between two pieces of its text.
#[derive(Drop)]
pub struct Simulation<A: Allocator + Copy = Global> {
    judge: Judge<A>,
    reader: EventReader,
    /// How many lines there were.
    lines: u64,
    /// How many of them were refused.
    refused: u64,
}

impl<A: Allocator + Copy> Model for Simulation<A> {
    ghost use Rattle.world.specs.UnderWay.{SimulationView};

    ghost Value = { SimulationView };

    ghost view = { λ s. record { judge = s.judge; reader = s.reader; lines = s.lines; refused = s.refused } };
}

impl<A: Allocator + Copy> Simulation<A> {
    /// A simulation from this world on, before its first byte.
    pub fn new(world: World<A>) -> Simulation<A>
        ensures lines { result.lines ≡ 0 }
        ensures under_way { (before : Option (List ℕ))
            → IsUnderWay (world_of world) [] before before result }
    {
        Simulation {
            judge: Judge::new(world),
            reader: EventReader::new(),
            lines: 0,
            refused: 0,
        }
    }

    /// Reads the text to its end, and runs its events.
    pub fn read_all<R: Source, W: Sink>(
        &mut self,
        source: &mut R,
        sink: &mut W,
    ) -> Result<(), SimFault>
        requires { self.old.lines ≡ 0 }
        // There are at most as many lines as a text may have bytes.
        ensures lines { OnOk result (self.new.lines ≤ longest_text) }
        // What its whole lines spell has happened, and their refusals are written.
        ensures text { ReadsAll self.old (R.rest source.old) (W.taken sink.old) result self.new
            (R.rest source.new) (W.taken sink.new) }
        // A failure of the source or the sink is returned only if it happened.
        ensures cause { HasCause result (R.failures source.old) (R.failures source.new)
            (W.failures sink.old) (W.failures sink.new) }
        // No failure is forgotten.
        ensures source { R.failures source.old ≤ R.failures source.new }
        ensures sink { W.failures sink.old ≤ W.failures sink.new }
    {
        byte_lines_laws::any_cutting();
        byte_streams::laws::reading_in_pieces();
        let mut piece = [0; PIECE];
        let mut left = LONGEST_TEXT;
        loop {
            let Ok(count) = source.read(&mut piece) else {
                return Err(SimFault::Read);
            };
            if count == 0 {
                return Ok(());
            }
            let Ok(()) = self.take(&piece[..count.min(left)], sink) else {
                return Err(SimFault::Write);
            };
            if count > left {
                return Err(SimFault::Long);
            }
            left -= count;
        }
    }

    /// Ends the text: runs its last line, if no newline ended it, and writes the world that it led
    /// to.
    pub fn finish<W: Sink>(&mut self, sink: &mut W) -> Result<Summary, SimFault>
        requires { self.old.lines < 2 ^ 64 - 1 }
        // The last line counts even if no newline ended it; then comes the state.
        ensures text { EndsThere self.old (W.taken sink.old) result (W.taken sink.new) }
        // If the text of the world was written, this is the world that the events lead to.
        ensures led { LeadsThere self.old (W.taken sink.old) result self.new }
        ensures failures { CountsFailures result (W.failures sink.old) (W.failures sink.new) }
        ensures err { IfErr result (λ fault. fault ≡ Write) }
    {
        let Ok(()) = self.last_line(sink) else {
            return Err(SimFault::Write);
        };
        let sweeps = self.judge.sweeps();
        let Ok(()) = write_state(self.judge.configuration(), sweeps, sink) else {
            return Err(SimFault::Write);
        };
        Ok(Summary {
            refused: self.refused,
            sweeps,
            lending: self.judge.configuration().lending(),
        })
    }

    /// The world that it has come to.
    pub fn into_world(self) -> World<A>
        ensures { result ≡ self.judge.configuration }
    {
        self.judge.into_world()
    }

    /// Runs the last line of the text, if no newline ended it.
    fn last_line<W: Sink>(&mut self, sink: &mut W) -> Result<(), Failed>
        requires { self.old.lines < 2 ^ 64 - 1 }
        ensures runs { RunsLast self.old (W.taken sink.old) result self.new (W.taken sink.new) }
        ensures failures { CountsFailures result (W.failures sink.old) (W.failures sink.new) }
    {
        let Some(line) = self.reader.last() else {
            return Ok(());
        };
        self.rare_line(line, sink)
    }

    /// Takes a piece of the text: lets its events happen, and reports its refused lines.
    fn take<W: Sink>(&mut self, piece: &[u8], sink: &mut W) -> Result<(), Failed>
        requires { self.old.lines + length piece.now < 2 ^ 64 }
        ensures lines { self.new.lines ≤ self.old.lines + length piece.now }
        ensures text { TakesNext self.old (W.taken sink.old) piece.now result self.new
            (W.taken sink.new) }
        ensures failures { CountsFailures result (W.failures sink.old) (W.failures sink.new) }
    {
        byte_lines_laws::any_cutting();
        let mut at = 0;
        while at < piece.len() {
            if let Some((event, used)) = self.reader.take_usual(&piece[at..]) {
                at += used;
                self.line(TextLine::Said(event), sink)?;
                continue;
            }
            let taken = self.reader.take(&piece[at..]);
            at += taken.used;
            let Some(line) = taken.line else {
                return Ok(());
            };
            self.rare_line(line, sink)?;
        }
        Ok(())
    }

    /// Runs the next line as [`Simulation::line`] does, for the rare kinds of lines.
    #[inline(never)]
    fn rare_line<W: Sink>(&mut self, line: TextLine, sink: &mut W) -> Result<(), Failed>
        requires { self.old.lines < 2 ^ 64 - 1 }
        ensures lines { self.new.lines ≡ self.old.lines + 1 }
        ensures reader { self.new.reader ≡ self.old.reader }
        ensures runs { RunsNext self.old (W.taken sink.old) line result self.new
            (W.taken sink.new) }
        ensures failures { CountsFailures result (W.failures sink.old) (W.failures sink.new) }
    {
        self.line(line, sink)
    }

    /// Runs the next line: lets its event happen, or reports it as refused.
    // A separate call would write the event to memory for each line, and read it again.
    #[inline(always)]
    fn line<W: Sink>(&mut self, line: TextLine, sink: &mut W) -> Result<(), Failed>
        requires { self.old.lines < 2 ^ 64 - 1 }
        ensures lines { self.new.lines ≡ self.old.lines + 1 }
        ensures reader { self.new.reader ≡ self.old.reader }
        ensures runs { RunsNext self.old (W.taken sink.old) line result self.new
            (W.taken sink.new) }
        ensures failures { CountsFailures result (W.failures sink.old) (W.failures sink.new) }
    {
        self.lines += 1;
        let Some(name) = refusal(&mut self.judge, line) else {
            return Ok(());
        };
        self.refused = self.refused.saturating_add(1);
        write_refusal(self.lines, name, sink)
    }
}

/// Lets the event of a line happen. Returns why the line is refused, if it is.
#[inline(always)]
fn refusal<A: Allocator + Copy>(judge: &mut Judge<A>, line: TextLine) -> Option<&'static str>
    ensures name { option_map (λ name. name.now) result
        ≡ line_refusal (world_of judge.old.configuration) line }
    ensures seen { HasSeenLine judge.old line judge.new }
    ensures short { IfSome result (λ name. length name.now ≤ 10) }
{
    match line {
        TextLine::Passed => None,
        TextLine::Unread => Some(UNREAD),
        TextLine::Said(event) => match judge.step(&event) {
            Ok(()) => None,
            Err(fault) => Some(fault_name(fault)),
        },
    }
}
