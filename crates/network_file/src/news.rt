//! What a node finds in its network file, and whether it says so.
ghost use Rattle.std.specs.Prelude.{◌≡◌};
ghost use Rattle.network_file.specs.Reasons.{reason, fault_number};
ghost use Rattle.network_file.specs.News.{found_in, has_new, new_news, news_then, is_said};

use crate::fault::NetworkFault;
use topology::{Net, NetFault};

/// What a node finds as it reads its network file again.
#[derive(Clone, Copy)]
pub enum Found {
    /// Its own network.
    Same,
    /// Its own network with other edges, which it takes up.
    OtherEdges,
    /// A network that differs in more than edges, which it does not take up.
    Other,
    /// No network, for this reason.
    Refused(NetworkFault),
}

/// What a node that has this network finds in a file that was read with this result.
pub fn found_in(own: &Net, read: &Result<Net, NetworkFault>) -> Found
    ensures { result ≡ found_in own.now read.now }
{
    match read {
        Err(fault) => Found::Refused(*fault),
        Ok(net) if !own.same_frame(net) => Found::Other,
        Ok(net) if has_new(own, net) || has_new(net, own) => Found::OtherEdges,
        Ok(_) => Found::Same,
    }
}

/// Whether the second network has an edge that the first does not have.
fn has_new(first: &Net, second: &Net) -> bool
    ensures { result ≡ has_new first.now second.now }
{
    second
        .edges()
        .iter()
        .any(|edge| !first.are_joined(edge.0, edge.1))
}

/// What a node has said about its network file.
#[derive(Clone, Copy, Drop)]
pub struct FileNews {
    /// The number of the reason why the file was not taken up when it was read last; 0 if it was.
    refused: u8,
}

impl FileNews {
    /// Nothing was said, and the file is as it was.
    pub fn new() -> FileNews
        ensures { result ≡ new_news }
    {
        FileNews { refused: 0 }
    }

    /// Notes what was found, and returns whether to report it. Each change of edges is reported; so is why the
    /// file is not taken up, unless the reason was the same when the file was last read.
    pub fn step(&mut self, found: Found) -> bool
        ensures after { self.new ≡ news_then found }
        ensures said { result ≡ is_said found self.old.refused }
    {
        let before = self.refused;
        self.refused = reason(found);
        match found {
            Found::Same => false,
            Found::OtherEdges => true,
            Found::Other | Found::Refused(_) => self.refused != before,
        }
    }
}

/// A number for each reason why a file is not taken up; 0 if it is.
fn reason(found: Found) -> u8
    ensures { result ≡ reason found }
{
    match found {
        Found::Same | Found::OtherEdges => 0,
        Found::Other => 1,
        Found::Refused(NetworkFault::Unreadable) => 2,
        Found::Refused(NetworkFault::Refused(fault)) => fault_number(fault),
    }
}

/// A number for each fault of a text.
fn fault_number(fault: NetFault) -> u8
    ensures { result ≡ fault_number fault }
{
    match fault {
        NetFault::NotToml => 3,
        NetFault::Missing => 4,
        NetFault::Shape => 5,
        NetFault::TooSmall => 6,
        NetFault::TooBig => 7,
        NetFault::BadRoot => 8,
        NetFault::BadCapacity => 9,
        NetFault::BadLease => 10,
        NetFault::BadEdge => 11,
        NetFault::LoopEdge => 12,
        NetFault::DoubleEdge => 13,
        NetFault::Apart => 14,
        NetFault::Memory => 15,
        NetFault::NoEdge => 16,
    }
}
