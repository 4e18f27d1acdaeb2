//! One neighbour of a node that runs: the frames to it and from it, and the hello before them.
ghost use Rattle.std.specs.Prelude.{◌≡◌, ◌&&◌, not, true, false, None, Some, is_none, is_some};
ghost use Rattle.std.specs.Prelude.{IfSome, if◌then◌else◌, [], ◌∷◌, ◌++◌, slice_get};
ghost use Rattle.byte_lines.specs.Lines.{newline};
ghost use Rattle.socket_links.specs.frame_codec.Spelling.{spelling};
ghost use Rattle.topology.specs.Ranges.{ranges_of};
ghost use Rattle.node_connections.specs.LinkSights.{link_at};

use crate::greeting::{Greeted, Greeting};
use socket_links::{Flow, Offer, Pipe, Pull, SocketLink};
use topology::{Frame, Net};
use turn_watch::LinkSight;

/// The connection to one neighbour.
#[derive(Drop)]
pub struct NodePort<P> {
    /// The frames to the neighbour and from it; loose while no connection stands.
    pub link: SocketLink<P>,
    /// A connection that the node made, on which its hello is not yet out.
    greeting: Option<Greeting<P>>,
    /// The line that was accepted last is not yet out.
    pub is_stuck: bool,
    /// How many connections there were so far; the count stays at 2^64 - 1.
    made: u64,
}

impl<P: Pipe> NodePort<P> {
    ghost use Rattle.socket_links.specs.Links.{IsBare, Pulled, PushesOn};
    ghost use Rattle.socket_links.specs.declared.link.Pull.TheVariants.{Later};
    ghost use Rattle.node_connections.specs.Hearing.{Wires};
    ghost use Rattle.node_connections.specs.Speaking.{OffersLine, PortSpeaks, PushesOut};
    ghost use Rattle.node_connections.specs.LinkSights.{link_sight};
    ghost use Rattle.turn_watch.specs.Turns.{one_more};

    /// A port without a connection.
    pub fn new() -> NodePort<P>
        ensures { (result.link.pipe ≡ None) × (result.greeting ≡ None) × (result.made ≡ 0) }
    {
        NodePort {
            link: SocketLink::new(),
            greeting: None,
            is_stuck: false,
            made: 0,
        }
    }

    /// Whether a connection stands, and how many there have been so far, this one included.
    pub fn sight(&self) -> LinkSight
        ensures { result ≡ link_sight self.now }
    {
        LinkSight {
            is_up: self.link.is_attached(),
            made: self.made,
        }
    }

    /// Whether there is no connection, nor one that is being made.
    pub fn is_loose(&self) -> bool
        ensures { result ≡ (is_none self.now.link.pipe && is_none self.now.greeting) }
    {
        !self.link.is_attached() && self.greeting.is_none()
    }

    /// Whether a connection stands and the port is not stuck: then it is worth offering a frame.
    pub fn takes_frames(&self) -> bool
        ensures { result ≡ (is_some self.now.link.pipe && not self.now.is_stuck) }
    {
        self.link.is_attached() && !self.is_stuck
    }

    /// Makes this pipe the connection from now on; an older connection is closed.
    pub fn attach(&mut self, pipe: P)
        ensures stands { (self.new.link.pipe ≡ Some pipe) × (self.new.greeting ≡ None)
            × (self.new.is_stuck ≡ false) }
        ensures made { self.new.made ≡ one_more self.old.made }
        // Nothing of the new connection is kept yet.
        ensures bare { IsBare self.new.link }
    {
        let _older = self.link.attach(pipe);
        self.greeting = None;
        self.is_stuck = false;
        self.made = self.made.saturating_add(1);
    }

    /// Closes the connection, if there is one.
    pub fn close(&mut self)
        ensures { (self.new.link.pipe ≡ None) × (self.new.greeting ≡ None)
            × (self.new.made ≡ self.old.made) }
    {
        let _older = self.link.detach();
        self.greeting = None;
        self.is_stuck = false;
    }

    /// Takes a new connection, on which the hello goes out first.
    pub fn greet(&mut self, pipe: P)
        ensures hello { IfSome self.new.greeting
            (λ greeting. (greeting.pipe ≡ pipe) × (greeting.sent ≡ 0)) }
        ensures link { (self.new.link ≡ self.old.link) × (self.new.is_stuck ≡ self.old.is_stuck)
            × (self.new.made ≡ self.old.made) }
    {
        self.greeting = Some(Greeting::new(pipe));
    }

    /// Writes what is left of the hello of node `id`, if there is one. Returns whether its
    /// connection stands from now on; false without a hello, even if a connection stands.
    pub fn go_on_greeting(&mut self, id: u16) -> bool
        // The connection stands as before, or it is a new one.
        ensures wires { Wires self.old self.new }
        // Without a hello nothing is done.
        ensures none { self.old.greeting ≡ None → (self.new ≡ self.old) × (result ≡ false) }
        // If it returns true, one more connection counts; else the count stays.
        ensures made { self.new.made ≡ (if result then one_more self.old.made else self.old.made) }
    {
        let Some(greeting) = self.greeting.take() else {
            return false;
        };
        match greeting.push_out(id) {
            Greeted::Done(pipe) => {
                self.attach(pipe);
                true
            }
            Greeted::Later(greeting) => {
                self.greeting = Some(greeting);
                false
            }
            Greeted::Failed => false,
        }
    }

    /// The next frame that has come.
    pub fn pull(&mut self, net: &Net) -> Pull
        ensures pulled { Pulled (ranges_of net.now) P.gave P.took P.counts
            self.old.link self.new.link result }
        ensures loose { self.old.link.pipe ≡ None → result ≡ Later }
        ensures rest { (self.new.greeting ≡ self.old.greeting)
            × (self.new.is_stuck ≡ self.old.is_stuck) }
        ensures made { self.new.made ≡ self.old.made }
    {
        self.link.pull(net)
    }

    /// Writes what is left of the last line, as far as the pipe takes it.
    pub fn push_out(&mut self)
        ensures pushed { PushesOut P.gave P.took P.counts self.old self.new }
        // What the pipe took continues that line.
        ensures line { PushesOn P.took [] self.old.link self.new.link }
        ensures made { self.new.made ≡ self.old.made }
    {
        self.is_stuck = self.link.push_out() == Flow::Later;
    }

    /// Accepts a frame, if the last line is out, and writes it as far as the pipe takes it. Returns
    /// whether it was accepted.
    pub fn offer(&mut self, frame: &Frame) -> bool
        ensures offered { OffersLine P.gave P.took P.counts (spelling frame.now ++ newline ∷ [])
            self.old self.new result }
        // What the pipe took goes on with the frame's line, or with nothing if the frame is not
        // accepted.
        ensures line { PushesOn P.took (if result then spelling frame.now ++ newline ∷ [] else [])
            self.old.link self.new.link }
        ensures made { self.new.made ≡ self.old.made }
    {
        match self.link.offer(frame) {
            Offer::Taken => {
                self.push_out();
                true
            }
            Offer::Busy => false,
            Offer::Loose => false,
        }
    }

    /// Writes what is left of the last line, and then offers the frame, if `is_offered` says so.
    /// Returns whether it was accepted.
    pub fn speak(&mut self, frame: &Frame, is_offered: bool) -> bool
        ensures speaks { PortSpeaks P.gave P.took P.counts (spelling frame.now ++ newline ∷ [])
            is_offered self.old self.new result }
        ensures made { self.new.made ≡ self.old.made }
    {
        self.push_out();
        is_offered && self.offer(frame)
    }
}

/// What is seen of the link to a node at these ports; none if they have no port for that node.
pub fn link_at<P: Pipe>(ports: &[NodePort<P>], id: u16) -> Option<LinkSight>
    ensures { result ≡ link_at (slice_get ports.now id) }
{
    let port = ports.get(usize::from(id))?;
    Some(port.sight())
}
