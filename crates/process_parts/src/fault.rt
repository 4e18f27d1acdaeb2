//! Why a node does not run, or `up` does not keep a network running.
ghost use Rattle.std.specs.Prelude.{◌≡◌, ◌≢◌, Some, ◌++◌, decimal, []};
ghost use Rattle.std.specs.declared.io.ErrorKind.TheVariants.{OutOfMemory};
ghost use Rattle.process_parts.specs.declared.fault.NodeFault.TheVariants.{Memory, System, NoNode};
ghost use Rattle.process_parts.specs.declared.fault.NodeFault.TheVariants.{Running};
ghost use Rattle.process_parts.specs.Said.{said_text};
ghost use Rattle.process_parts.specs.Texts.{refusal_text};

use network_file::NetworkFault;
use std::alloc::AllocError;
use std::fmt;
use std::io::ErrorKind;

/// Why a node does not run, or ends. Printed within a [`ProcessRefusal`].
#[derive(Clone, Copy, Drop)]
pub enum NodeFault {
    /// The network file is invalid, or cannot be read.
    Network(NetworkFault),
    /// There is no such node; the network has this many nodes.
    NoNode(u16),
    /// The sockets' names would have too many bytes.
    LongName,
    /// The folder is not there, and cannot be made.
    Folder,
    /// The rights of the folder cannot be set.
    RightsStay,
    /// The file that marks a node as running cannot be opened.
    Lock,
    /// Another process runs as this node already.
    Running,
    /// The file that marks `up` as running cannot be opened.
    UpLock,
    /// Another `up` keeps nodes running there already.
    UpRunning,
    /// The socket for neighbours cannot be made.
    Links,
    /// The socket for clients cannot be made.
    Clients,
    /// The socket for whoever looks cannot be made.
    Looks,
    /// The system provides no clock, no poll or no process.
    System,
    /// Standard input, whose end ends the node, is a file or absent.
    Input,
    /// The file that marks a node as running is no longer its own: its folder was removed or made
    /// again.
    Displaced,
    /// The stop file is there and cannot be removed.
    StopStays,
    /// Each node failed at its start three times, and is left alone.
    NoneStays,
    /// Memory ran out.
    Memory,
}

impl From<AllocError> for NodeFault {
    ghost from_gives = { λ _ fault. fault ≡ Memory };

    fn from(_: AllocError) -> NodeFault {
        NodeFault::Memory
    }
}

/// The fault that a failed system call means.
pub fn fault_of(kind: ErrorKind) -> NodeFault
    ensures memory { kind ≡ OutOfMemory → result ≡ Memory }
    ensures system { kind ≢ OutOfMemory → result ≡ System }
{
    match kind {
        ErrorKind::OutOfMemory => NodeFault::Memory,
        _ => NodeFault::System,
    }
}

/// A fault with the words of the command that it ends. Printed, it names the file and says what to
/// do. It is the line on standard error, without `tokentree: `.
#[derive(Drop)]
pub struct ProcessRefusal<'a> {
    /// The network file.
    pub file: &'a str,
    /// The folder.
    pub dir: &'a str,
    /// The node.
    pub id: u16,
    /// Why it does not run.
    pub fault: NodeFault,
}

impl fmt::Display for ProcessRefusal<'_> {
    ghost output = { λ r. Some (refusal_text r.file.now r.dir.now r.id r.fault) };

    fn fmt<W: fmt::Write>(&self, f: &mut fmt::Formatter<W>) -> fmt::Result {
        let (file, dir, id) = (self.file, self.dir, self.id);
        match self.said() {
            Said::OfNetwork(fault) => f.write(fault),
            Said::OfNoNode(nodes) => f.write(NoSuchNode { file, id, nodes }),
            Said::OfNode => f.write(RunsAlready { dir, id }),
            Said::OfFolder(said) => f.write(OfFolder(dir, said)),
            Said::OfFile(name, said) => f.write(OfFile(dir, name, id, said)),
            Said::OfSystem(said) => f.write_str(said),
        }
    }
}

/// What is said of a fault, by its subject.
#[derive(Clone, Copy)]
enum Said {
    /// Of the network file.
    OfNetwork(NetworkFault),
    /// Of a node that the network does not have; it has this many nodes.
    OfNoNode(u16),
    /// Of a node that runs already.
    OfNode,
    /// Of the folder, after its name.
    OfFolder(&'static str),
    /// Of a node's file: how its name begins, and what follows the name.
    OfFile(&'static str, &'static str),
    /// Of the system, or of what it provides.
    OfSystem(&'static str),
}

impl ProcessRefusal<'_> {
    /// What is said of the fault.
    fn said(&self) -> Said
        ensures { said_text self.now.file.now self.now.dir.now self.now.id result
            ≡ refusal_text self.now.file.now self.now.dir.now self.now.id self.now.fault }
    {
        match self.fault {
            NodeFault::Network(fault) => Said::OfNetwork(fault),
            NodeFault::NoNode(nodes) => Said::OfNoNode(nodes),
            NodeFault::LongName => Said::OfFolder(LONG_NAME),
            NodeFault::Folder => Said::OfFolder(NO_FOLDER),
            NodeFault::RightsStay => Said::OfFolder(RIGHTS_STAY),
            NodeFault::Lock => Said::OfFile("/lock-", NOT_OPENED),
            NodeFault::Running => Said::OfNode,
            NodeFault::UpLock => Said::OfFolder(UP_NOT_OPENED),
            NodeFault::UpRunning => Said::OfFolder(UP_RUNS),
            NodeFault::Links => Said::OfFile("/node-", NO_SOCKET),
            NodeFault::Clients => Said::OfFile("/desk-", NO_SOCKET),
            NodeFault::Looks => Said::OfFile("/look-", NO_SOCKET),
            NodeFault::System => Said::OfSystem(NO_SYSTEM),
            NodeFault::Input => Said::OfSystem(NO_INPUT),
            NodeFault::Displaced => Said::OfFile("/lock-", DISPLACED),
            NodeFault::StopStays => Said::OfFile("/stop-", STOP_STAYS),
            NodeFault::NoneStays => Said::OfFolder(NONE_STAYS),
            NodeFault::Memory => Said::OfSystem("out of memory"),
        }
    }
}

// What is said of a folder after its name.
const LONG_NAME: &str = ": a socket there has a name of more than 107 bytes; choose a shorter DIR";

const NO_FOLDER: &str = ": cannot be made; make this folder, or choose another DIR";

const RIGHTS_STAY: &str = ": its rights cannot be set; choose a DIR that is yours";

const UP_NOT_OPENED: &str = "/lock-up: cannot be opened; choose a DIR that is yours";

const UP_RUNS: &str = "/lock-up: another up runs there already; stop it, or choose another DIR";

const NONE_STAYS: &str = ": no node stays up there; see what each said, and start up again";

// What is said of a node's file after its name.
const NOT_OPENED: &str = ": cannot be opened; choose a DIR that is yours";

const NO_SOCKET: &str = ".sock: cannot be made; choose another DIR";

const DISPLACED: &str = ": is another file now, or gone; the node ends, start it again";

const STOP_STAYS: &str = ": cannot be removed; remove it, and start the node again";

// What is said of the system.
const NO_SYSTEM: &str = "the system has no clock, poll or process to give; try again";

const NO_INPUT: &str = "standard input is a file or nothing; give a pipe or a terminal";

/// A folder's name and what is said of it.
#[derive(Drop)]
struct OfFolder<'a>(&'a str, &'static str);

impl fmt::Display for OfFolder<'_> {
    ghost output = { λ words. Some (words.0.now ++ words.1.now) };

    fn fmt<W: fmt::Write>(&self, f: &mut fmt::Formatter<W>) -> fmt::Result {
        write!(f, "{}{}", self.0, self.1)
    }
}

/// The folder of a node's file, how the file's name begins, the node, and what is said of the file.
#[derive(Drop)]
struct OfFile<'a>(&'a str, &'static str, u16, &'static str);

impl fmt::Display for OfFile<'_> {
    ghost output = { λ words. Some (words.0.now ++ (words.1.now
        ++ (decimal words.2 ++ words.3.now))) };

    fn fmt<W: fmt::Write>(&self, f: &mut fmt::Formatter<W>) -> fmt::Result {
        write!(f, "{}{}{}{}", self.0, self.1, self.2, self.3)
    }
}

/// Says that a network has no such node.
#[derive(Drop)]
struct NoSuchNode<'a> {
    file: &'a str,
    id: u16,
    nodes: u16,
}

impl fmt::Display for NoSuchNode<'_> {
    ghost output = { λ r. Some (refusal_text r.file.now [] r.id (NoNode r.nodes)) };

    fn fmt<W: fmt::Write>(&self, f: &mut fmt::Formatter<W>) -> fmt::Result {
        let (file, id, nodes) = (self.file, self.id, self.nodes);
        write!(
            f,
            "no node {id} is in {file}: its {nodes} nodes are numbered from 0"
        )
    }
}

/// Says that another process runs as the node already.
#[derive(Drop)]
struct RunsAlready<'a> {
    dir: &'a str,
    id: u16,
}

impl fmt::Display for RunsAlready<'_> {
    ghost output = { λ r. Some (refusal_text [] r.dir.now r.id Running) };

    fn fmt<W: fmt::Write>(&self, f: &mut fmt::Formatter<W>) -> fmt::Result {
        let (dir, id) = (self.dir, self.id);
        write!(
            f,
            "{dir}/lock-{id}: node {id} runs there already; stop it, or choose another DIR"
        )
    }
}
