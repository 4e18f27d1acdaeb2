//! The line for a node that was asked to end.
use std::fmt;

/// What became of a node that was asked to end.
#[derive(Clone, Copy)]
pub enum Ending {
    /// It ran, and has ended.
    Ended,
    /// It did not run.
    NotRunning,
    /// It has not ended in time.
    Late,
    /// The user who runs this cannot see whether it runs.
    Hidden,
    /// Its stop file cannot be made.
    Unasked,
}

/// The line which says what became of a node, without a newline.
#[derive(Clone, Copy)]
pub struct EndingLine<'a> {
    /// The folder of the network.
    pub dir: &'a str,
    /// The node.
    pub id: u16,
    /// How it went.
    pub ending: Ending,
}

impl fmt::Display for EndingLine<'_> {
    ghost use Rattle.std.specs.Prelude.{Some};
    ghost use Rattle.node_stopping.specs.Lines.{ending_line};

    ghost output = { λ line. Some (ending_line line.dir.now line.id line.ending) };

    fn fmt<W: fmt::Write>(&self, f: &mut fmt::Formatter<W>) -> fmt::Result {
        let (dir, id) = (self.dir, self.id);
        match self.ending {
            Ending::Ended => write!(f, "node {id} has ended"),
            Ending::NotRunning => write!(f, "tokentree: node {id} does not run in {dir}"),
            Ending::Late => write!(
                f,
                "tokentree: node {id} has not ended in time; it ends once it sees {dir}/stop-{id}"
            ),
            Ending::Hidden => write!(
                f,
                "tokentree: {dir}/lock-{id}: cannot be opened; stop nodes as the user that runs them"
            ),
            Ending::Unasked => write!(
                f,
                "tokentree: {dir}/stop-{id}: cannot be made; stop nodes as the user that runs them"
            ),
        }
    }
}
