//! What the command lines of `node` and of `up` say.
use crate::record_size::RecordSize;
use crate::rights::Rights;
use node_log::Level;
use pace::Manner;

/// What the command line of `node` says.
#[derive(Clone, Copy)]
pub struct NodeWords<'a> {
    /// The network file.
    pub file: &'a str,
    /// The node.
    pub id: u16,
    /// The folder.
    pub dir: &'a str,
    /// How quiet or how fast the node is.
    pub manner: Manner,
    /// The number of microseconds after which a turn is late.
    pub turn: u64,
    /// The version of the program, in letters, digits and dots.
    pub version: &'a str,
    /// Who may use its folder and its sockets.
    pub rights: Rights,
    /// The lowest level of its log, if it has one.
    pub log: Option<Level>,
    /// The size of its record's files, if it keeps a record.
    pub record_size: Option<RecordSize>,
    /// Whether `up` started it. If so, its lines begin with its name, and it ends when its input
    /// ends.
    pub is_child: bool,
}

/// What the command line of `up` says.
#[derive(Clone, Copy)]
pub struct UpWords<'a> {
    /// The network file.
    pub file: &'a str,
    /// The folder.
    pub dir: &'a str,
    /// How quiet or how fast each node is.
    pub manner: Manner,
    /// The number of microseconds after which a turn is late.
    pub turn: u64,
    /// Who may use the folder and the nodes' sockets.
    pub rights: Rights,
    /// The lowest level of the nodes' logs, if they have any.
    pub log: Option<Level>,
    /// The size of the files of the nodes' records, if they keep any.
    pub record_size: Option<RecordSize>,
}
