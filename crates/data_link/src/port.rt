//! One end of an edge.
ghost use Rattle.std.specs.Prelude.{◌≡◌, ◌↔◌, ◌<◌, IsTrue, IsOk, OnOk, OnErr};
ghost use Rattle.link_model.specs.topology.Ranges.{frame_fits, payload_fits, ranges_of};
ghost use Rattle.data_link.specs.Heard.{heard_of};
ghost use Rattle.data_link.specs.Port.{counters_fit, default_port, frame_of, port_after, port_fits};

use crate::fault::OutOfRange;
use crate::heard::Heard;
use k_state::{copy_move, root_move};
use link_model::topology::{Frame, Net, Payload, Ranges};
use std::alloc::Allocator;
use std::marker::Model;

/// What a node keeps about one neighbour: the number of its staged payload, the last number that it
/// accepted, the staged payload, and the copy of the neighbour's payload. Each field is in its
/// range.
#[derive(Debug, Drop)]
pub struct Port {
    ranges: Ranges,
    seq: u16,
    last: u16,
    staged: Payload,
    copy: Payload,
}

impl Model for Port {
    ghost use Rattle.std.specs.Prelude.{IsTrue};
    ghost use Rattle.data_link.specs.Port.{PortView, port_fits};

    ghost Value = { PortView };

    ghost view = { λ p. record {
      ranges = p.ranges;
      state = record { seq = p.seq; last = p.last; staged = p.staged; copy = p.copy };
    } };

    ghost invariant = { λ p. IsTrue (port_fits p.ranges
        (record { seq = p.seq; last = p.last; staged = p.staged; copy = p.copy })) };
}

impl Port {
    /// A port of a node that knows nothing yet: both numbers 0, the greatest distance, no parent.
    pub fn new<A: Allocator + Copy>(net: &Net<A>) -> Port
        ensures { result
            ≡ record { ranges = ranges_of net.now; state = default_port (ranges_of net.now) } }
    {
        let ranges = net.ranges();
        let unknown = Payload {
            distance: net.nodes(),
            parent: None,
            ring: 0,
        };
        Port {
            ranges,
            seq: 0,
            last: 0,
            staged: unknown,
            copy: unknown,
        }
    }

    /// Makes the port as `new` made it.
    pub fn reset(&mut self)
        ensures { self.new ≡ record self.old { state = default_port self.old.ranges } }
    {
        let unknown = Payload {
            distance: self.ranges.nodes,
            parent: None,
            ring: 0,
        };
        self.seq = 0;
        self.last = 0;
        self.staged = unknown;
        self.copy = unknown;
    }

    /// The ranges of its fields, those of its network.
    pub fn ranges(&self) -> Ranges
        ensures ranges { result ≡ self.now.ranges }
        ensures fits { IsTrue (port_fits self.now.ranges self.now.state) }
    {
        self.ranges
    }

    /// The number under which the staged payload goes out, below the counters' modulus.
    pub fn seq(&self) -> u16
        ensures seq { result ≡ self.now.state.seq }
        ensures below { result < self.now.ranges.counter }
    {
        self.seq
    }

    /// The last number that was accepted from the neighbour, below the counters' modulus.
    pub fn last(&self) -> u16
        ensures last { result ≡ self.now.state.last }
        ensures below { result < self.now.ranges.counter }
    {
        self.last
    }

    /// What the node says to the neighbour, until the neighbour has it.
    pub fn staged(&self) -> Payload
        ensures staged { result ≡ self.now.state.staged }
        ensures fits { IsTrue (payload_fits self.now.ranges result) }
    {
        self.staged
    }

    /// What the neighbour said last.
    pub fn copy(&self) -> Payload
        ensures copy { result ≡ self.now.state.copy }
        ensures fits { IsTrue (payload_fits self.now.ranges result) }
    {
        self.copy
    }

    /// The frame to send: the staged payload under its number, with the last accepted number as the
    /// acknowledgement.
    pub fn frame(&self) -> Frame
        ensures frame { result ≡ frame_of self.now.state }
        ensures fits { IsTrue (frame_fits self.now.ranges result) }
    {
        Frame {
            seq: self.seq,
            ack: self.last,
            payload: self.staged,
        }
    }

    /// Takes a frame from the neighbour. `present` is what the node has to say to the neighbour in
    /// the state *before* the frame: it is staged if the frame acknowledges the port's number.
    /// Then the frame is accepted if its number is not the last one.
    #[inline(always)]
    pub fn on_frame(&mut self, frame: &Frame, present: Payload) -> Heard
        requires frame_fits { IsTrue (frame_fits self.old.ranges frame.now) }
        requires present_fits { IsTrue (payload_fits self.old.ranges present) }
        // The port after the frame, by the rule; nothing else has changed.
        ensures port { self.new
            ≡ record self.old {
              state = port_after self.old.ranges.counter self.old.state frame.now present;
            } }
        // The answer says whether the number moved and whether the frame was accepted.
        ensures heard { result ≡ heard_of self.old.state frame.now }
    {
        let moved = frame.ack == self.seq;
        let accepted = frame.seq != self.last;
        if moved {
            self.seq = root_move(self.seq, self.ranges.counter);
            self.staged = present;
        }
        if accepted {
            self.last = copy_move(self.last, frame.seq);
            self.copy = frame.payload;
        }
        Heard { moved, accepted }
    }

    /// Writes both numbers. Returns `OutOfRange` exactly if one is not below the counters' modulus.
    pub fn set_counters(&mut self, seq: u16, last: u16) -> Result<(), OutOfRange>
        // It is written exactly if it is in range.
        ensures variant { IsOk result ↔ IsTrue (counters_fit self.old.ranges seq last) }
        ensures ok { OnOk result (self.new
            ≡ record self.old { state = record self.old.state { seq = seq; last = last } }) }
        ensures out_of_range { OnErr result (self.new ≡ self.old) }
    {
        if seq >= self.ranges.counter || last >= self.ranges.counter {
            return Err(OutOfRange);
        }
        self.seq = seq;
        self.last = last;
        Ok(())
    }

    /// Writes the staged payload. Returns `OutOfRange` exactly if a field of it is not in its
    /// range.
    pub fn set_staged(&mut self, payload: Payload) -> Result<(), OutOfRange>
        // It is written exactly if it is in range.
        ensures variant { IsOk result ↔ IsTrue (payload_fits self.old.ranges payload) }
        ensures ok { OnOk result (self.new
            ≡ record self.old { state = record self.old.state { staged = payload } }) }
        ensures out_of_range { OnErr result (self.new ≡ self.old) }
    {
        if !self.ranges.fits_payload(&payload) {
            return Err(OutOfRange);
        }
        self.staged = payload;
        Ok(())
    }

    /// Writes the copy of the neighbour's payload. Returns `OutOfRange` exactly if a field of it is
    /// not in its range.
    pub fn set_copy(&mut self, payload: Payload) -> Result<(), OutOfRange>
        // It is written exactly if it is in range.
        ensures variant { IsOk result ↔ IsTrue (payload_fits self.old.ranges payload) }
        ensures ok { OnOk result (self.new
            ≡ record self.old { state = record self.old.state { copy = payload } }) }
        ensures out_of_range { OnErr result (self.new ≡ self.old) }
    {
        if !self.ranges.fits_payload(&payload) {
            return Err(OutOfRange);
        }
        self.copy = payload;
        Ok(())
    }
}
