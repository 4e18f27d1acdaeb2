//! The names of a running node's sockets: a name that leads elsewhere is taken back.
ghost use Rattle.std.specs.Prelude.{◌≡◌, ◌↔◌, true, false, IfOk, IsErr, IsTrue, string_bytes};
ghost use Rattle.process_parts.specs.Rights.{own_mode, clients_mode};

use crate::doors::ProcessDoors;
use network_file::FileNews;
use process_parts::{
    Complaint, FileId, FileSight, FolderPlace, Lost, NodePaths, Rights, bind_again, sight_at,
};
use std::net::Net as Sockets;
use std::rt::Files;
use std::{fmt, io};

/// The name of a socket.
#[derive(Drop)]
pub struct Name<'a> {
    path: &'a str,
    /// The mode that its socket gets, if any.
    mode: Option<u32>,
    /// The file that it led to when the socket was made.
    file: FileId,
    complaint: Complaint,
}

impl<'a> Name<'a> {
    /// The name of a socket that was just made with this mode.
    pub fn new(path: &'a str, mode: Option<u32>, file: FileId) -> Name<'a>
        ensures { (result.path ≡ path.entry) × (result.mode ≡ mode) × (result.file ≡ file)
            × (result.complaint.lasts ≡ false) }
    {
        Name {
            path,
            mode,
            file,
            complaint: Complaint::new(),
        }
    }

    /// What it leads to.
    pub fn sight<F: Files>(&self, files: &F) -> FileSight {
        sight_at(files, self.path, self.file)
    }

    /// Makes a new socket for it, if it is lost.
    fn take_back<R: Files + Sockets + Eprint, D: ProcessDoors>(
        &mut self,
        rt: &R,
        doors: &mut D,
        whom: Whom,
        is_lost: bool,
    )
        ensures { is_lost ≡ false → self.new ≡ self.old }
    {
        if is_lost {
            let heard = hear(rt, doors, self, whom);
            self.note(rt, heard);
        }
    }

    /// Takes note of the file of a socket that was made again. If none could be made, it says so
    /// the first time.
    fn note<R: Eprint>(&mut self, rt: &R, made: io::Result<FileId>)
        ensures made { IfOk made (λ file. self.new.file ≡ file) }
        ensures unmade { IsErr made → self.new.file ≡ self.old.file }
        ensures path { (self.new.path ≡ self.old.path) × (self.new.mode ≡ self.old.mode) }
        ensures lasts { IsTrue self.new.complaint.lasts ↔ IsErr made }
    {
        if let Ok(file) = &made {
            self.file = *file;
        }
        if self.complaint.is_due(made.is_err()) {
            let _ = rt.eprintln(Blocked { path: self.path });
        }
    }
}

/// The files of a node's sockets.
#[derive(Clone, Copy)]
pub struct NameFiles {
    /// The file of the socket for neighbours.
    pub links: FileId,
    /// The file of the socket for clients.
    pub clients: FileId,
    /// The file of the socket for whoever looks.
    pub looks: FileId,
}

/// The names of a running node.
#[derive(Drop)]
pub struct Names<'a> {
    /// The names of all its files.
    pub paths: &'a NodePaths,
    /// Its place in the folder.
    pub place: &'a FolderPlace,
    /// Its socket for neighbours.
    pub links: Name<'a>,
    /// Its socket for clients.
    pub clients: Name<'a>,
    /// Its socket for whoever looks.
    pub looks: Name<'a>,
    /// What it has said of its network file.
    pub news: FileNews,
}

impl<'a> Names<'a> {
    /// The names of sockets that were just made with these rights, and lead to these files.
    pub fn new(
        paths: &'a NodePaths,
        place: &'a FolderPlace,
        rights: Rights,
        files: NameFiles,
    ) -> Names<'a>
        ensures places { (result.paths ≡ paths.entry) × (result.place ≡ place.entry) }
        ensures paths { (result.links.path.now ≡ string_bytes paths.now.links)
            × (result.clients.path.now ≡ string_bytes paths.now.clients)
            × (result.looks.path.now ≡ string_bytes paths.now.looks) }
        ensures files { (result.links.file ≡ files.links) × (result.clients.file ≡ files.clients)
            × (result.looks.file ≡ files.looks) }
        ensures modes { (result.links.mode ≡ own_mode rights)
            × (result.clients.mode ≡ clients_mode rights) × (result.looks.mode ≡ own_mode rights) }
    {
        Names {
            paths,
            place,
            links: Name::new(paths.links.as_str(), rights.own(), files.links),
            clients: Name::new(paths.clients.as_str(), rights.clients(), files.clients),
            looks: Name::new(paths.looks.as_str(), rights.own(), files.looks),
            news: FileNews::new(),
        }
    }

    /// Makes a new socket for each name that is lost. What fails now is tried again at the next
    /// look.
    pub fn take_back<R: Files + Sockets + Eprint, D: ProcessDoors>(
        &mut self,
        rt: &R,
        doors: &mut D,
        lost: Lost,
    )
        ensures place { (self.new.paths ≡ self.old.paths) × (self.new.place ≡ self.old.place)
            × (self.new.news ≡ self.old.news) }
        ensures links { lost.links ≡ false → self.new.links ≡ self.old.links }
        ensures clients { lost.clients ≡ false → self.new.clients ≡ self.old.clients }
        ensures looks { lost.looks ≡ false → self.new.looks ≡ self.old.looks }
    {
        self.links
            .take_back(rt, doors, Whom::Neighbours, lost.links);
        self.clients
            .take_back(rt, doors, Whom::Clients, lost.clients);
        self.looks.take_back(rt, doors, Whom::Lookers, lost.looks);
    }
}

/// Whom a socket is for.
#[derive(Clone, Copy)]
pub enum Whom {
    /// Its neighbours.
    Neighbours,
    /// Its clients.
    Clients,
    /// Whoever looks.
    Lookers,
}

/// Makes a socket of this name, and listens at it.
fn hear<R: Files + Sockets, D: ProcessDoors>(
    rt: &R,
    doors: &mut D,
    name: &Name<'_>,
    whom: Whom,
) -> io::Result<FileId> {
    let made = bind_again(rt, name.path, name.mode)?;
    doors.listen(whom, made)
}

/// The line which says that a socket of a running node is gone, and cannot be made again.
#[derive(Drop)]
struct Blocked<'a> {
    path: &'a str,
}

impl fmt::Display for Blocked<'_> {
    ghost use Rattle.std.specs.Prelude.{Some};
    ghost use Rattle.node_folder.specs.Texts.{blocked_line};

    ghost output = { λ line. Some (blocked_line line.path.now) };

    fn fmt<W: fmt::Write>(&self, f: &mut fmt::Formatter<W>) -> fmt::Result {
        let path = self.path;
        write!(
            f,
            "tokentree: {path}: cannot be made again; remove what stands there: the node runs on, and tries again"
        )
    }
}
