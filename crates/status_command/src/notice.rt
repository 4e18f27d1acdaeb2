//! The lines on standard error, and the status after one.
ghost use Rattle.std.specs.Prelude.{◌≡◌, Some, ◌++◌};
ghost use Rattle.std.specs.IoError.{error_kind};
ghost use Rattle.status_command.specs.Reasons.{notice_status, why_not_written, IsEnd};
ghost use Rattle.status_command.specs.NoticeText.{notice_text, never_ran_text, foreign_text};
ghost use Rattle.status_command.specs.NoticeText.{notice_line, unknown_line};

use network_file::NetworkFault;
use std::io::ErrorKind;
use std::{fmt, io};

/// The status if the reader of standard output is gone: a shell shows it for a process that SIGPIPE ended.
const READER_GONE: u8 = 141;

/// Why nothing is shown of the nodes. Printed, it is the message without the program's name.
#[derive(Clone, Copy, Drop)]
pub enum StatusNotice<'a> {
    /// There is no such folder.
    NoFolder(&'a str),
    /// The folder may not be read or entered.
    Forbidden(&'a str),
    /// No node has a socket in the folder.
    NoSockets(&'a str),
    /// A node gave no answer, and the folder has neither its socket nor its state file.
    NeverWas {
        folder: &'a str,
        node: u16,
    },
    /// The folder has a node that is not in the file's network.
    OtherNetwork {
        file: &'a str,
        folder: &'a str,
        node: u16,
    },
    /// The file gives no network.
    NoNetwork {
        file: &'a str,
        fault: NetworkFault,
    },
    /// A watch does not accept this time for `--every`.
    NoInterval,
    /// The system gives no descriptor or no clock.
    System,
    /// Memory ran out.
    Memory,
    /// Standard output took no more.
    Output,
    /// The reader of standard output is gone.
    Closed,
}

impl fmt::Display for StatusNotice<'_> {
    ghost output = { λ notice. Some (notice_text notice) };

    fn fmt<W: fmt::Write>(&self, f: &mut fmt::Formatter<W>) -> fmt::Result {
        match *self {
            StatusNotice::NoFolder(folder) => FolderNotice(NO_FOLDER, folder).fmt(f),
            StatusNotice::Forbidden(folder) => FolderNotice(FORBIDDEN, folder).fmt(f),
            StatusNotice::NoSockets(folder) => {
                write!(f, "no node has a socket in {folder}: start one there")
            }
            StatusNotice::NeverWas { folder, node } => NeverRan { folder, node }.fmt(f),
            StatusNotice::OtherNetwork { file, folder, node } => Foreign { file, folder, node }.fmt(
                f,
            ),
            StatusNotice::NoNetwork { file, fault } => write!(f, "{file}: {fault}"),
            StatusNotice::NoInterval => f.write_str(
                "--every is no time from 0.1 to 3600 seconds, with at most 3 decimals",
            ),
            StatusNotice::System => {
                f.write_str("the system has no descriptor, poll or clock to give; try again")
            }
            StatusNotice::Memory => f.write_str("out of memory"),
            StatusNotice::Output => f.write_str("standard output cannot be written"),
            StatusNotice::Closed => f.write_str("output Closed"),
        }
    }
}

// What is said of a folder before its name.
const NO_FOLDER: &str = "there is no folder ";

const FORBIDDEN: &str = "this user may not use the sockets in ";

/// What is said of a folder, and its name.
#[derive(Drop)]
struct FolderNotice<'a>(&'static str, &'a str);

impl fmt::Display for FolderNotice<'_> {
    ghost output = { λ words. Some (words.0.now ++ words.1.now) };

    fn fmt<W: fmt::Write>(&self, f: &mut fmt::Formatter<W>) -> fmt::Result {
        write!(f, "{}{}", self.0, self.1)
    }
}

/// Says that a node never ran in a folder.
#[derive(Drop)]
struct NeverRan<'a> {
    folder: &'a str,
    node: u16,
}

impl fmt::Display for NeverRan<'_> {
    ghost output = { λ n. Some (never_ran_text n.folder.now n.node) };

    fn fmt<W: fmt::Write>(&self, f: &mut fmt::Formatter<W>) -> fmt::Result {
        let (folder, node) = (self.folder, self.node);
        write!(
            f,
            "node {node} never ran in {folder}, which has neither a socket nor a state of it"
        )
    }
}

/// Says that a folder has a node that is not in the file's network.
#[derive(Drop)]
struct Foreign<'a> {
    file: &'a str,
    folder: &'a str,
    node: u16,
}

impl fmt::Display for Foreign<'_> {
    ghost output = { λ n. Some (foreign_text n.file.now n.folder.now n.node) };

    fn fmt<W: fmt::Write>(&self, f: &mut fmt::Formatter<W>) -> fmt::Result {
        let (file, folder, node) = (self.file, self.folder, self.node);
        write!(
            f,
            "{folder} has a node {node}, which the network of {file} has not"
        )
    }
}

/// The whole line of a notice, without its newline.
#[derive(Drop)]
pub struct StatusNoticeLine<'a>(pub StatusNotice<'a>);

impl fmt::Display for StatusNoticeLine<'_> {
    ghost output = { λ line. Some (notice_line line.0) };

    fn fmt<W: fmt::Write>(&self, f: &mut fmt::Formatter<W>) -> fmt::Result {
        f.write_str("tokentree: ")?;
        f.write(self.0)
    }
}

/// Reports why nothing is shown, unless the reader is gone, and returns the exit status.
pub fn reported<R: Eprint>(rt: &R, notice: StatusNotice<'_>) -> u8
    ensures status { result ≡ notice_status notice.entry }
    ensures end { IsEnd result }
{
    if let StatusNotice::Closed = notice {
        return READER_GONE;
    }
    let _ = rt.eprintln(StatusNoticeLine(notice));
    1
}

/// Why nothing more is shown, by the error of standard output. If the pipe is not broken and memory did
/// not run out, the system's words are printed on standard error.
pub fn why_not_written<'a, R: Eprint>(rt: &R, error: io::Error) -> StatusNotice<'a>
    ensures { result ≡ why_not_written (error_kind error) }
{
    match error.kind() {
        ErrorKind::BrokenPipe => StatusNotice::Closed,
        ErrorKind::OutOfMemory => StatusNotice::Memory,
        _ => {
            let _ = eprintln!(rt; "tokentree: standard output: {error}");
            StatusNotice::Output
        }
    }
}

/// Reports why a command line is invalid, and returns the exit status.
pub fn refused<R: Eprint>(rt: &R, notice: StatusNotice<'_>) -> u8
    ensures { result ≡ 2 }
{
    let _ = rt.eprintln(StatusNoticeLine(notice));
    2
}

/// The line of a check that could not read the nodes, without its newline.
#[derive(Drop)]
pub struct UnknownLine<'a>(pub StatusNotice<'a>);

impl fmt::Display for UnknownLine<'_> {
    ghost output = { λ line. Some (unknown_line line.0) };

    fn fmt<W: fmt::Write>(&self, f: &mut fmt::Formatter<W>) -> fmt::Result {
        f.write_str("tokentree UNKNOWN - ")?;
        f.write(self.0)
    }
}
