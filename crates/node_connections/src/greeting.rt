//! The hello that a node writes first on a connection to a lower neighbour.
ghost use Rattle.std.specs.Prelude.{◌≡◌, ◌<◌, ◌++◌, ◌∷◌, [], drop};
ghost use Rattle.byte_lines.specs.Lines.{newline};
ghost use Rattle.socket_links.specs.frame_codec.Spelling.{hello};

use socket_links::{Pipe, WriteAnswer, encode_hello};

/// The bytes of a hello with its newline.
const HELLO: usize = 6;

/// A connection on which the hello is not yet out.
#[derive(Drop)]
pub(crate) struct Greeting<P> {
    pipe: P,
    /// How many bytes of the hello the pipe took.
    sent: usize,
    ghost within: { sent < 6 },
}

/// How far a greeting got.
#[derive(Drop)]
pub(crate) enum Greeted<P> {
    /// The hello is out.
    Done(P),
    /// The pipe took a part of it, or nothing.
    Later(Greeting<P>),
    /// The pipe failed, and was let go.
    Failed,
}

impl<P: Pipe> Greeting<P> {
    ghost use Rattle.node_connections.specs.Greetings.{Greets};

    /// A new connection, on which nothing was written.
    pub fn new(pipe: P) -> Greeting<P>
        ensures { (result.pipe ≡ pipe) × (result.sent ≡ 0) }
    {
        Greeting { pipe, sent: 0 }
    }

    /// Writes once what is left of the hello of node `id`.
    pub fn push_out(self, id: u16) -> Greeted<P>
        // What the pipe took continues the hello, and reaches its end if the hello is out.
        ensures { Greets P.took (hello id ++ newline ∷ []) self result }
    {
        let Greeting { mut pipe, sent } = self;
        let hello = encode_hello(id);
        match pipe.try_write(&hello[sent..]) {
            WriteAnswer::Wrote(count) if sent + count == HELLO => Greeted::Done(pipe),
            WriteAnswer::Wrote(count) => Greeted::Later(Greeting {
                pipe,
                sent: sent + count,
            }),
            WriteAnswer::Later => Greeted::Later(Greeting { pipe, sent }),
            WriteAnswer::Failed => Greeted::Failed,
        }
    }
}
