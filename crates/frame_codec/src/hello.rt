//! The line by which a node says who it is.
ghost use Rattle.std.specs.Prelude.{◌≡◌, ℕ, ◌<◌, [], ◌∷◌, ◌++◌, IfSome, Some};
ghost use Rattle.byte_lines.specs.Lines.{newline};
ghost use Rattle.frame_codec.specs.Spelling.{hello};

use crate::digits::{digits, number_at};
use topology::Net;

/// The hello of a node, with its newline: the first line that is sent on a new connection.
pub fn encode_hello(id: u16) -> [u8; 6]
    ensures { result ≡ hello id ++ newline ∷ [] }
{
    let [a, b, c, d] = digits(id);
    [b'H', a, b, c, d, b'\n']
}

/// The sender of a hello without its newline: an id exactly if the line is the id's hello and
/// the id is a node of the network.
pub fn decode_hello(line: &[u8], net: &Net) -> Option<u16>
    ensures found { IfSome result (λ id. (line.now ≡ hello id) × (id < net.now.nodes)) }
    ensures only { (id : ℕ) → line.now ≡ hello id → id < net.now.nodes → result ≡ Some id }
{
    if line.len() != 5 || line[0] != b'H' {
        return None;
    }
    let id = number_at(line, 1)?;
    if id < net.nodes() { Some(id) } else { None }
}
