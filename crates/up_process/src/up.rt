//! `up FILE DIR`: runs all nodes of a network as processes, until it is asked to end.
ghost use Rattle.std.specs.Prelude.{◌≡◌, ◌≢◌, ◌⊎◌, ◌≤◌, ◌++◌, ◌∷◌, [], true, None, Some};
ghost use Rattle.std.specs.Prelude.{OnOk, IfOk, IfErr};
ghost use Rattle.std.specs.Prelude.{codes, decimal, length, map, All};
ghost use Rattle.std.specs.List.{list_any, range_with_len};
ghost use Rattle.std.specs.Process.{command_args};
ghost use Rattle.process_parts.specs.node_keeping.Steps.{new_keeper, stage_after, deed_at, is_kept};
ghost use Rattle.process_parts.specs.node_keeping.declared.keeper.KeeperStage.TheVariants.{Runs, Waits, Starts};
ghost use Rattle.process_parts.specs.node_keeping.declared.keeper.Seen.{Seen};
ghost use Rattle.process_parts.specs.node_keeping.declared.keeper.Seen.TheVariants.{Nothing};
ghost use Rattle.process_parts.specs.node_keeping.declared.keeper.KeeperDeed.TheVariants.{Start};
ghost use Rattle.process_parts.specs.node_texts.Thousandths.{millis_text};
ghost use Rattle.up_process.specs.Children.{child_options, rights_options, log_options, record_options};
ghost use Rattle.up_process.specs.Children.{child_words, end_of};
ghost use Rattle.up_process.specs.Sizes.{IsOfNetwork};
ghost use Rattle.topology.specs.Network.{IsAcceptedNetwork};
ghost use Rattle.process_parts.specs.node_texts.Names.{longest_socket_name};
ghost use Rattle.process_parts.specs.Start.{may_end};
ghost use Rattle.process_parts.specs.declared.fault.NodeFault.TheVariants.{Lock, Running};
ghost use Rattle.process_parts.specs.declared.fault.NodeFault.TheVariants.{UpLock, UpRunning, Memory};
ghost use Rattle.process_parts.specs.declared.fault.NodeFault.TheVariants.{System};
ghost use Rattle.process_parts.specs.declared.start.StartStage.TheVariants.{Begun, Checked, Entered};

use crate::asks::Asks;
use crate::left::LastLine;
use node_log::Level;
use pace::Manner;
use process_parts::{
    End, EndLine, FolderPlace, Keeper, KeeperDeed, NodeFault, RecordSize, Rights, Seen, StartStage,
    UpCourse, UpWords, check_names, fault_of, hold_place, make_folder, read_network,
    warn_of_capacity,
};
use std::alloc::{AllocError, Global};
use std::fmt::Display;
use std::fs::File;
use std::io::Input;
use std::net::Net as Sockets;
use std::os::unix::process::ExitStatusExt;
use std::path::PathBuf;
use std::process::{Child, Command, ExitStatus, OpenProcess, Processes, Stdio};
use std::rt::{Clock, Env, Files};
use std::{env, io};
use topology::Net;

/// A program that starts another program with signals held back.
const ENV: &str = "/usr/bin/env";

/// Its option for that, for the signals that a terminal or a service manager sends to all
/// processes.
const HOLD_SIGNALS_BACK: &str = "--block-signal=HUP,INT,QUIT,TERM";

/// How the processes of nodes are started.
pub trait NodeProgram {
    /// The command that runs node `id`. It prints its lines with its name in front, and ends when
    /// its standard input ends.
    ///
    /// # Errors
    /// If memory runs out.
    fn command(&self, alloc: Global, id: u16) -> io::Result<Command>;

    /// Who may use the folder and the nodes' sockets.
    fn rights(&self) -> Rights;
}

/// This very program, with the command `node`.
#[derive(Drop)]
pub struct OwnProgram<'a> {
    program: PathBuf,
    /// Whether signals are held back from the nodes.
    holds_signals_back: bool,
    words: UpWords<'a>,
}

impl<'a> OwnProgram<'a> {
    /// This program, for the nodes that these words ask for.
    ///
    /// # Errors
    /// If the system does not say which program this is.
    pub fn new<R: Env + Files + Processes + AllocGlobal>(
        rt: &R,
        words: UpWords<'a>,
    ) -> Result<OwnProgram<'a>, NodeFault>
        ensures words { IfOk result (λ own. own.words ≡ words.entry) }
        ensures fault { IfErr result (λ fault. fault ≡ System) }
    {
        match env::current_exe(rt) {
            Ok(program) => Ok(OwnProgram {
                program,
                holds_signals_back: can_hold_back(rt).unwrap_or(false),
                words,
            }),
            Err(_) => Err(NodeFault::System),
        }
    }
}

impl NodeProgram for OwnProgram<'_> {
    fn command(&self, alloc: Global, id: u16) -> io::Result<Command> {
        let mut command = bare_command(alloc, &self.program, self.holds_signals_back)?;
        add_words(alloc, &mut command, &self.words, id)?;
        Ok(command)
    }

    fn rights(&self) -> Rights {
        self.words.rights
    }
}

/// Whether the system's `env` can hold signals back from what it starts: GNU's can since 8.31.
fn can_hold_back<R: Processes + AllocGlobal>(rt: &R) -> io::Result<bool> {
    let mut command = held_back(rt.alloc(), "true")?;
    command.stdout(Stdio::null()).stderr(Stdio::null());
    let status = command.status(rt);
    drop(command);
    Ok(status?.success())
}

/// A command that starts this program, with signals held back or not.
fn bare_command(alloc: Global, program: &PathBuf, holds_signals_back: bool) -> io::Result<Command> {
    if holds_signals_back {
        held_back(alloc, program.as_os_str())
    } else {
        Ok(Command::new(alloc, program.as_path())?)
    }
}

/// A command that starts a program with signals held back.
fn held_back(alloc: Global, program: &str) -> io::Result<Command> {
    let mut command = Command::new(alloc, ENV)?;
    add_two(&mut command, HOLD_SIGNALS_BACK, program)?;
    Ok(command)
}

/// Adds the words that make this program node `id` of the network of FILE in DIR, as a child.
fn add_words(alloc: Global, command: &mut Command, words: &UpWords<'_>, id: u16) -> io::Result<()>
    ensures { OnOk result (command_args command.new
        ≡ command_args command.old ++ child_words words.now.manner words.now.turn words.now.rights
        words.now.log words.now.record_size words.now.file.now id words.now.dir.now) }
{
    add_options(alloc, command, words.manner, words.turn)?;
    add_rights(command, words.rights)?;
    add_log(alloc, command, words.log)?;
    add_record(alloc, command, words.record_size)?;
    add_place(alloc, command, words.file, id, words.dir)
}

/// Adds the options that make this program a child node in this manner, whose turns are late after
/// `turn` microseconds.
fn add_options(alloc: Global, command: &mut Command, manner: Manner, turn: u64) -> io::Result<()>
    ensures { OnOk result (command_args command.new
        ≡ command_args command.old ++ child_options manner turn) }
{
    add_two(command, "node", "--child")?;
    add_manner(alloc, command, manner)?;
    add_turn(alloc, command, turn)
}

/// Adds the option that lets the group take the lock, if it may.
fn add_rights(command: &mut Command, rights: Rights) -> io::Result<()>
    ensures { OnOk result (command_args command.new
        ≡ command_args command.old ++ rights_options rights) }
{
    if rights == Rights::GroupLocks {
        command.arg("--group-locks")?;
    }
    Ok(())
}

/// Adds the level of the log.
fn add_log(alloc: Global, command: &mut Command, log: Option<Level>) -> io::Result<()>
    ensures { OnOk result (command_args command.new
        ≡ command_args command.old ++ log_options log) }
{
    if let Some(level) = log {
        add_option(alloc, command, "--log", u64::from(level.priority()))?;
    }
    Ok(())
}

/// Adds the options for the record that the node keeps, if it keeps one.
fn add_record(
    alloc: Global,
    command: &mut Command,
    record_size: Option<RecordSize>,
) -> io::Result<()>
    ensures { OnOk result (command_args command.new
        ≡ command_args command.old ++ record_options record_size) }
{
    if let Some(size) = record_size {
        command.arg("--record")?;
        add_option(alloc, command, "--record-size", size.bytes)?;
    }
    Ok(())
}

/// Adds the options that say how quiet or how fast the node is.
fn add_manner(alloc: Global, command: &mut Command, manner: Manner) -> io::Result<()>
    ensures { OnOk result (command_args command.new ≡ command_args command.old
        ++ codes "--hold" ∷ decimal manner.hold
        ∷ codes "--repeat" ∷ decimal manner.repeat ∷ []) }
{
    add_option(alloc, command, "--hold", manner.hold)?;
    add_option(alloc, command, "--repeat", manner.repeat)
}

/// Adds the option that says when a turn is late. `turn` is in microseconds, and the option in
/// milliseconds.
fn add_turn(alloc: Global, command: &mut Command, turn: u64) -> io::Result<()>
    ensures { OnOk result (command_args command.new ≡ command_args command.old
        ++ codes "--turn" ∷ millis_text turn ∷ []) }
{
    let (whole, tenths) = (turn / 1000, turn / 100 % 10);
    let (hundredths, thousandths) = (turn / 10 % 10, turn % 10);
    let millis = format!(in alloc; "{whole}.{tenths}{hundredths}{thousandths}")?;
    add_two(command, "--turn", millis.as_str())
}

/// Adds an option and its number.
fn add_option(alloc: Global, command: &mut Command, name: &str, number: u64) -> io::Result<()>
    ensures { OnOk result (command_args command.new
        ≡ command_args command.old ++ name.now ∷ decimal number ∷ []) }
{
    let number = format!(in alloc; "{number}")?;
    add_two(command, name, number.as_str())
}

/// Adds the network, the node and the folder. After `--` no name is read as an option.
fn add_place(alloc: Global, command: &mut Command, file: &str, id: u16, dir: &str) -> io::Result<()>
    ensures { OnOk result (command_args command.new ≡ command_args command.old
        ++ codes "--" ∷ file.now ∷ decimal id ∷ dir.now ∷ []) }
{
    add_two(command, "--", file)?;
    let id = format!(in alloc; "{id}")?;
    add_two(command, id.as_str(), dir)
}

/// Adds two words.
fn add_two(command: &mut Command, first: &str, second: &str) -> io::Result<()>
    ensures { OnOk result (command_args command.new
        ≡ command_args command.old ++ first.now ∷ second.now ∷ []) }
{
    command.arg(first)?.arg(second)?;
    Ok(())
}

/// A node that is kept running.
#[derive(Drop)]
struct Kept<P: OpenProcess + Drop> {
    id: u16,
    keeper: Keeper,
    /// Its process, from its start until `up` sees that it has ended.
    child: Option<Child<P>>,
}

impl<P: OpenProcess + Drop> Kept<P> {
    /// A node that is started at the first look.
    fn new(id: u16) -> Kept<P>
        ensures { (result.id ≡ id) × (result.keeper ≡ new_keeper) × (result.child ≡ None) }
    {
        Kept {
            id,
            keeper: Keeper::new(),
            child: None,
        }
    }

    /// What a look at its process shows.
    fn sight(&mut self) -> Seen
        ensures none { self.old.child ≡ None → result ≡ Nothing }
        ensures stays { (self.new.id ≡ self.old.id) × (self.new.keeper ≡ self.old.keeper) }
    {
        match &mut self.child {
            Some(child) => sight_of(child),
            None => Seen::Nothing,
        }
    }

    /// Makes its process end, by closing its input.
    fn close_input(&mut self)
        ensures { (self.new.id ≡ self.old.id) × (self.new.keeper ≡ self.old.keeper) }
    {
        if let Some(child) = &mut self.child {
            drop(child.stdin.take());
        }
    }

    /// Kills its process, and says how it ended.
    fn kill(&mut self) -> End
        ensures { (self.new.id ≡ self.old.id) × (self.new.keeper ≡ self.old.keeper) }
    {
        match &mut self.child {
            Some(child) => kill(child),
            None => End::Unknown,
        }
    }
}

/// What a look at a process shows.
fn sight_of<P: OpenProcess + Drop>(child: &mut Child<P>) -> Seen {
    match child.try_wait() {
        Ok(Some(status)) => Seen::Ended(end_of(status)),
        // Nothing is known of the process, so it is looked at again.
        Ok(None) | Err(_) => Seen::Nothing,
    }
}

/// Kills a process, and says how it ended.
fn kill<P: OpenProcess + Drop>(child: &mut Child<P>) -> End {
    let _ = child.kill();
    match child.wait() {
        Ok(status) => end_of(status),
        Err(_) => End::Unknown,
    }
}

/// Keeps all nodes of the network of FILE running in DIR until it is asked to end: by a signal, if
/// its start held signals back, or by the end of its standard input, if that is a terminal or a
/// pipe. Its nodes then save their states and end, each with a line. If it is asked again, it
/// kills them.
///
/// # Errors
/// Why it does not begin, or that no node stays up. Once it has begun, it ends only after all
/// processes that it started.
pub fn run<R, C: NodeProgram>(rt: &R, program: &C, file: &str, dir: &str) -> Result<(), NodeFault>
where
    R: Files<File = File> + Sockets + Clock + Input + Print + Eprint + Processes + AllocGlobal,
{
    let mut stage = StartStage::Begun;
    let size = check_network(rt, file, dir, &mut stage)?;
    make_folder(rt, dir, program.rights(), &mut stage)?;
    // The place is held until `up` ends.
    let _place = hold_up_place(rt, dir, &mut stage)?;
    run_in_place(rt, program, size)
}

/// What `up` has to know of a network.
#[derive(Clone, Copy)]
struct NetworkSize {
    /// How many nodes it has.
    nodes: u16,
    /// How many frames each of its links holds.
    capacity: u16,
}

/// Takes the place of `up` in a folder.
///
/// # Errors
/// `UpRunning` if another `up` holds it, `UpLock` if its file cannot be opened or locked, or `Memory`.
fn hold_up_place<R: Files<File = File> + AllocGlobal>(
    rt: &R,
    dir: &str,
    stage: &mut StartStage,
) -> Result<FolderPlace, NodeFault>
    requires { stage.old ≡ Entered }
    ensures { IfErr result (λ fault. (fault ≡ UpRunning) ⊎ ((fault ≡ UpLock) ⊎ (fault ≡ Memory))) }
{
    let lock = format!(in rt.alloc(); "{dir}/lock-up")?;
    hold_place(rt, lock.as_str(), stage).map_err(fault_of_up)
}

/// Reads the network. Fails if the file is invalid or the name of the folder is too long.
///
/// # Errors
/// Which of these it is, or that memory ran out; then nothing is made.
fn check_network<R: Files + AllocGlobal>(
    rt: &R,
    file: &str,
    dir: &str,
    stage: &mut StartStage,
) -> Result<NetworkSize, NodeFault>
    requires { stage.old ≡ Begun }
    ensures ok { IfOk result (λ _. stage.new ≡ Checked) }
    // The size is that of a network, and no socket of its nodes has too long a name.
    ensures network { IfOk result IsOfNetwork }
    ensures names { IfOk result
        (λ size. length (longest_socket_name dir.now size.nodes) ≤ 107) }
    ensures err { IfErr result (λ fault. (may_end Begun fault ≡ true) × (stage.new ≡ Begun)) }
{
    let size = match read_network(rt, file) {
        Ok(net) => size_of_network(&net),
        Err(fault) => return Err(NodeFault::Network(fault)),
    };
    check_names(rt.alloc(), dir, size.nodes)?;
    *stage = StartStage::Checked;
    Ok(size)
}

/// What `up` has to know of this network.
fn size_of_network(net: &Net) -> NetworkSize
    ensures same { (result.nodes ≡ net.now.nodes) × (result.capacity ≡ net.now.capacity) }
    ensures network { IsAcceptedNetwork net.now }
{
    NetworkSize {
        nodes: net.nodes(),
        capacity: net.capacity(),
    }
}

/// Keeps all nodes of a network running in the folder whose place is held.
fn run_in_place<R, C: NodeProgram>(rt: &R, program: &C, size: NetworkSize) -> Result<(), NodeFault>
where
    R: Files + Sockets + Clock + Input + Print + Eprint + Processes + AllocGlobal,
{
    let mut asks = match Asks::new(rt) {
        Ok(asks) => asks,
        Err(error) => return Err(fault_of(error.kind())),
    };
    warn_of_capacity(rt, size.capacity);
    let ended = keep_all(rt, program, &mut asks, size.nodes);
    asks.close();
    ended
}

/// Keeps this many nodes running.
///
/// # Errors
/// If no node stays up, or memory runs out.
fn keep_all<R, C: NodeProgram>(
    rt: &R,
    program: &C,
    asks: &mut Asks<R::Started>,
    nodes: u16,
) -> Result<(), NodeFault>
where
    R: Files + Clock + Input + Print + Processes + AllocGlobal,
{
    let mut kept = all_new(rt.alloc(), nodes)?;
    if keep_running(rt, program, asks, &mut kept) {
        Ok(())
    } else {
        Err(NodeFault::NoneStays)
    }
}

/// All nodes of a network of `nodes` nodes, none of them started.
fn all_new<P: OpenProcess + Drop>(alloc: Global, nodes: u16) -> Result<Vec<Kept<P>>, AllocError>
    ensures ids { IfOk result (λ kept. map (λ one. one.id) kept.items ≡ range_with_len 0 nodes) }
    ensures new { IfOk result (λ kept.
        All (λ one. (one.keeper ≡ new_keeper) × (one.child ≡ None)) kept.items) }
{
    let mut kept = Vec::with_capacity(alloc, usize::from(nodes))?;
    for id in 0..nodes {
        kept.push(Kept::new(id))?;
    }
    Ok(kept)
}

/// Whether any node is still kept.
fn any_is_kept<P: OpenProcess + Drop>(kept: &[Kept<P>]) -> bool
    ensures { result ≡ list_any (λ one. is_kept one.keeper.stage) kept.now }
{
    kept.iter().any(|one| one.keeper.is_kept())
}

/// Looks at each node again and again, until no node is kept. Returns whether that was asked for.
fn keep_running<R, C: NodeProgram>(
    rt: &R,
    program: &C,
    asks: &mut Asks<R::Started>,
    kept: &mut Vec<Kept<R::Started>>,
) -> bool
where
    R: Files + Clock + Input + Print + Processes + AllocGlobal,
{
    let mut course = UpCourse::new();
    let mut word = None;
    for _ in 0..u64::MAX {
        note_of_all(rt, program, kept, word);
        if !any_is_kept(kept) {
            break;
        }
        word = course.step(asks.sights(rt, course.is_ending()));
    }
    course.is_ending()
}

/// For each node, takes note of what was seen of `up` itself or, if nothing was, of what a look at
/// the node shows.
fn note_of_all<R, C: NodeProgram>(
    rt: &R,
    program: &C,
    kept: &mut [Kept<R::Started>],
    word: Option<Seen>,
)
where
    R: Print + Processes + AllocGlobal,
{
    for one in kept {
        note_of_one(rt, program, one, word);
    }
}

/// Takes note of what was seen of `up` itself or, if nothing was, of what a look at the node shows.
fn note_of_one<R, C: NodeProgram>(
    rt: &R,
    program: &C,
    kept: &mut Kept<R::Started>,
    word: Option<Seen>,
)
where
    R: Print + Processes + AllocGlobal,
    ensures id { kept.new.id ≡ kept.old.id }
    // What was seen of `up` itself reaches the keeper.
    ensures taken { (seen : Seen) → word ≡ Some seen
        → deed_at seen kept.old.keeper.failures kept.old.keeper.stage ≢ Start
        → kept.new.keeper.stage
        ≡ stage_after seen kept.old.keeper.failures kept.old.keeper.stage }
{
    let seen = match word {
        Some(seen) => seen,
        None => kept.sight(),
    };
    take_note(rt, program, kept, seen);
}

/// The fault of `up` if taking its place in a folder fails with this fault of a node.
fn fault_of_up(fault: NodeFault) -> NodeFault
    ensures lock { fault ≡ Lock → result ≡ UpLock }
    ensures running { fault ≡ Running → result ≡ UpRunning }
{
    match fault {
        NodeFault::Lock => NodeFault::UpLock,
        NodeFault::Running => NodeFault::UpRunning,
        other => other,
    }
}

/// Does what must be done with a node once this was seen of it.
fn take_note<R, C: NodeProgram>(rt: &R, program: &C, kept: &mut Kept<R::Started>, seen: Seen)
where
    R: Print + Processes + AllocGlobal,
    ensures id { kept.new.id ≡ kept.old.id }
    // The keeper decides; and a start shows at once whether it succeeded.
    ensures noted { deed_at seen kept.old.keeper.failures kept.old.keeper.stage ≢ Start
        → kept.new.keeper.stage ≡ stage_after seen kept.old.keeper.failures kept.old.keeper.stage }
    ensures started { deed_at seen kept.old.keeper.failures kept.old.keeper.stage ≡ Start
        → (kept.new.keeper.stage ≡ Runs 0) ⊎ (kept.new.keeper.stage ≡ Waits 10) }
{
    let id = kept.id;
    match kept.keeper.step(seen) {
        KeeperDeed::Rest => {}
        KeeperDeed::Start => try_start(rt, program, kept),
        KeeperDeed::SayAgain(end) => say(rt, kept, &EndLine { id, end }),
        KeeperDeed::SayLeft(end) => say(rt, kept, &LastLine::Left { id, end }),
        KeeperDeed::SayGone(end) => say(rt, kept, &LastLine::Gone { id, end }),
        KeeperDeed::CloseInput => kept.close_input(),
        KeeperDeed::Kill => {
            let end = kept.kill();
            say(rt, kept, &LastLine::Gone { id, end });
        }
    }
}

/// Starts the process of a node, and says so if it cannot be started.
fn try_start<R, C: NodeProgram>(rt: &R, program: &C, kept: &mut Kept<R::Started>)
where
    R: Print + Processes + AllocGlobal,
    requires { kept.old.keeper.stage ≡ Starts }
    ensures id { kept.new.id ≡ kept.old.id }
    ensures started { (kept.new.keeper.stage ≡ Runs 0) ⊎ (kept.new.keeper.stage ≡ Waits 10) }
{
    kept.child = start(rt, program, kept.id).ok();
    if kept.child.is_some() {
        kept.keeper.step(Seen::Started);
    } else {
        let (id, end) = (kept.id, End::Unstarted);
        kept.keeper.step(Seen::Ended(end));
        say(rt, kept, &EndLine { id, end });
    }
}

/// Starts the process of a node. However this process ends, the node's input then ends, and so does
/// the node.
fn start<R, C: NodeProgram>(rt: &R, program: &C, id: u16) -> io::Result<Child<R::Started>>
where
    R: Processes + AllocGlobal,
{
    let mut command = program.command(rt.alloc(), id)?;
    command.stdin(Stdio::piped());
    let child = command.spawn(rt);
    drop(command);
    child
}

/// How a process ended.
fn end_of(status: ExitStatus) -> End
    ensures { result ≡ end_of status }
{
    match (status.code(), status.signal()) {
        (Some(code), _) => End::Status(code.unsigned_abs()),
        (None, Some(signal)) => End::Signal(signal.unsigned_abs()),
        (None, None) => End::Unknown,
    }
}

/// Says how the process of a node ended, in one write.
fn say<R, P: OpenProcess + Drop, D: Display>(rt: &R, kept: &mut Kept<P>, line: &D)
where
    R: Print + AllocGlobal,
    ensures stays { (kept.new.id ≡ kept.old.id) × (kept.new.keeper ≡ kept.old.keeper) }
    ensures gone { kept.new.child ≡ None }
{
    kept.child = None;
    print_line(rt, line);
}

/// Prints a line in one write, if memory does not run out.
fn print_line<R: Print + AllocGlobal, D: Display>(rt: &R, line: &D) {
    if let Ok(text) = format!(in rt.alloc(); "{line}\n") {
        let _ = rt.print(text.as_str());
    }
}
