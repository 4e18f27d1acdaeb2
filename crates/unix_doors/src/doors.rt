//! Doors over Unix sockets.
ghost use Rattle.std.specs.Prelude.{◌≡◌, ◌≢◌, ◌⊎◌, true, false, None, IfOk, OnOk, IsErr, IsSome};
ghost use Rattle.std.specs.declared.io.ErrorKind.TheVariants.{WouldBlock, Interrupted};
ghost use Rattle.node_connections.specs.Doors.{Opens};
ghost use Rattle.node_connections.specs.declared.doors.Door.TheVariants.{Nobody, Failed};

use crate::pipe::{UnixPipe, hold_few, is_passing};
use crate::seats::{ClientSight, Seats};
use mio::net::{UnixListener, UnixStream};
use mio::{Events, Interest, Poll, Token};
use node_connections::{Door, Doors};
use std::alloc::{AllocError, Global};
use std::io;
use std::net::Net;
use std::os::unix::net::SocketAddr;
use std::time::Duration;
use unix_ends::{InputSight, Listeners, read_input, watch_input};

/// The socket for neighbours, in a poll.
const LINKS: Token = Token(0);

/// The socket for clients.
const CLIENTS: Token = Token(1);

/// Standard input, if its end is waited for.
const INPUT: Token = Token(2);

/// A connection, of whichever kind: a turn reads them all.
const CONNECTION: Token = Token(3);

/// The socket for whoever looks.
const LOOKS: Token = Token(4);

/// The most events that one wait takes. The next wait takes what it leaves.
const EVENTS: usize = 64;

/// A poll, and what its last wait reported.
#[derive(Drop)]
struct Polling {
    poll: Poll,
    events: Events,
}

/// Doors over three listening Unix sockets, and the addresses of all nodes. A wait ends as soon as
/// anything comes.
///
/// A poll reports a socket once, when something new comes. So a listener is asked again until
/// nobody more has come, and only then is a call left out.
#[derive(Drop)]
pub struct UnixDoors<'a, N> {
    net: &'a N,
    polling: Polling,
    listeners: Listeners,
    /// By the id of each node, the address at which the nodes of greater ids connect.
    addresses: Vec<SocketAddr>,
    links_may_come: bool,
    clients_may_come: bool,
    looks_may_come: bool,
    input_has_news: bool,
    seats: Seats,
    failures: u64,
}

impl<'a, N: Net> UnixDoors<'a, N> {
    /// Doors at which nobody has come yet.
    ///
    /// # Errors
    /// If the system gives no poll, or memory runs out.
    pub fn new(
        net: &'a N,
        alloc: Global,
        mut listeners: Listeners,
        addresses: Vec<SocketAddr>,
    ) -> io::Result<UnixDoors<'a, N>>
        ensures fresh { IfOk result (λ doors. (doors.failures ≡ 0) × (doors.links_may_come ≡ true)
            × (doors.clients_may_come ≡ true) × (doors.looks_may_come ≡ true)) }
        ensures none_closed { IfOk result (λ doors. doors.seats.closed ≡ 0) }
    {
        let polling = polling_of(net, alloc, &mut listeners)?;
        let seats = Seats::new(alloc)?;
        Ok(UnixDoors {
            net,
            polling,
            listeners,
            addresses,
            links_may_come: true,
            clients_may_come: true,
            looks_may_come: true,
            input_has_news: false,
            seats,
            failures: 0,
        })
    }

    /// Makes each wait end also when standard input can be read, or is at its end.
    ///
    /// # Errors
    /// If no poll waits for standard input: it is closed, a file, or `/dev/null`.
    pub fn watch_input(&mut self) -> io::Result<()>
        ensures { self.new.failures ≡ self.old.failures }
    {
        watch_input(self.polling.poll.registry(), INPUT, true)
    }

    /// Whether standard input, if it is watched, is at its end.
    pub fn has_input_ended<R: io::Input>(&mut self, rt: &R) -> bool
        ensures failures { self.new.failures ≡ self.old.failures }
        ensures no_news { self.old.input_has_news ≡ false → result ≡ false }
        ensures read { self.new.input_has_news ≡ false }
    {
        if !self.input_has_news {
            return false;
        }
        self.input_has_news = false;
        read_input(rt) != InputSight::Open
            || watch_input(self.polling.poll.registry(), INPUT, false).is_err()
    }

    /// Listens for neighbours at this socket from now on, in place of the one before.
    ///
    /// # Errors
    /// If the system does not watch it; then nothing changes.
    pub fn listen_for_links(&mut self, mut links: UnixListener) -> io::Result<()>
        ensures failures { self.new.failures ≡ self.old.failures }
        ensures listens { OnOk result (self.new.links_may_come ≡ true) }
        ensures stays { IsErr result → self.new.links_may_come ≡ self.old.links_may_come }
    {
        listen(&self.polling.poll, &mut links, LINKS)?;
        self.listeners.links = links;
        self.links_may_come = true;
        Ok(())
    }

    /// Listens for clients at this socket from now on, in place of the one before.
    ///
    /// # Errors
    /// If the system does not watch it; then nothing changes.
    pub fn listen_for_clients(&mut self, mut clients: UnixListener) -> io::Result<()>
        ensures failures { self.new.failures ≡ self.old.failures }
        ensures listens { OnOk result (self.new.clients_may_come ≡ true) }
        ensures stays { IsErr result → self.new.clients_may_come ≡ self.old.clients_may_come }
    {
        listen(&self.polling.poll, &mut clients, CLIENTS)?;
        self.listeners.clients = clients;
        self.clients_may_come = true;
        Ok(())
    }

    /// Listens at this socket for whoever looks from now on, in place of the one before.
    ///
    /// # Errors
    /// If the system does not watch it; then nothing changes.
    pub fn listen_for_looks(&mut self, mut looks: UnixListener) -> io::Result<()>
        ensures failures { self.new.failures ≡ self.old.failures }
        ensures listens { OnOk result (self.new.looks_may_come ≡ true) }
        ensures stays { IsErr result → self.new.looks_may_come ≡ self.old.looks_may_come }
    {
        listen(&self.polling.poll, &mut looks, LOOKS)?;
        self.listeners.looks = looks;
        self.looks_may_come = true;
        Ok(())
    }

    /// What is seen of the clients that come. Each that was closed is seen once.
    pub fn look_at_clients(&mut self) -> ClientSight
        ensures closed { result.closed ≡ self.old.seats.closed }
        ensures again { self.new.seats.closed ≡ 0 }
        ensures failures { self.new.failures ≡ self.old.failures }
    {
        self.seats.look()
    }

    /// Whether somebody who looks may have come.
    pub fn may_be_looked_at(&self) -> bool
        ensures { result ≡ self.now.looks_may_come }
    {
        self.looks_may_come
    }

    /// The next connection of somebody who looks, if one has come.
    pub fn looker(&mut self) -> Option<UnixPipe>
        ensures failures { self.new.failures ≡ self.old.failures }
        ensures nobody { self.old.looks_may_come ≡ false → (result ≡ None) × (self.new ≡ self.old) }
        // After one has come, the next is asked for.
        ensures more { IsSome result → self.new.looks_may_come ≡ true }
    {
        if !self.looks_may_come {
            return None;
        }
        match self.listeners.looks.accept() {
            Ok((stream, _)) => Some(UnixPipe::new(stream)),
            Err(error) => {
                self.looks_may_come = !is_passing(error.kind());
                None
            }
        }
    }

    /// Notes what the last wait reported.
    fn note_events(&mut self)
        ensures { self.new.failures ≡ self.old.failures }
    {
        for event in self.polling.events.iter() {
            match event.token() {
                LINKS => self.links_may_come = true,
                CLIENTS => self.clients_may_come = true,
                LOOKS => self.looks_may_come = true,
                INPUT => self.input_has_news = true,
                _ => {}
            }
        }
    }

    /// A connection that has been made, or why there is none. Its bytes end a wait from now on.
    fn door_of(&mut self, made: io::Result<UnixStream>) -> Door<UnixPipe>
        ensures { Opens result self.old.failures self.new.failures }
    {
        match made {
            Ok(stream) => self.watched_door(stream),
            Err(error) => self.no_door(error.kind()),
        }
    }

    /// This connection, whose bytes end a wait from now on, or why there is none.
    fn watched_door(&mut self, mut stream: UnixStream) -> Door<UnixPipe>
        ensures { Opens result self.old.failures self.new.failures }
    {
        let registry = self.polling.poll.registry();
        match registry.register(&mut stream, CONNECTION, Interest::READABLE) {
            Ok(()) => Door::Came(UnixPipe::new(stream)),
            Err(error) => self.no_door(error.kind()),
        }
    }

    /// Why there is no connection: nobody has come, or it failed; a failure is counted.
    fn no_door(&mut self, kind: io::ErrorKind) -> Door<UnixPipe>
        ensures opens { Opens result self.old.failures self.new.failures }
        ensures nobody { (kind ≡ WouldBlock) ⊎ (kind ≡ Interrupted) → result ≡ Nobody }
        ensures failed { kind ≢ WouldBlock → kind ≢ Interrupted → result ≡ Failed }
    {
        if is_passing(kind) {
            return Door::Nobody;
        }
        self.failures = self.failures.saturating_add(1);
        Door::Failed
    }
}

impl<'a, N: Net> Doors for UnixDoors<'a, N> {
    type P = UnixPipe;

    ghost failures = { λ d. d.failures };

    fn wait(&mut self, rest: u64) {
        // A wait that fails ends at once, and the turn then asks all listeners.
        let waited = self.polling.poll.poll(
            &mut self.polling.events,
            Some(Duration::from_micros(rest)),
        );
        if waited.is_err() {
            self.links_may_come = true;
            self.clients_may_come = true;
            self.looks_may_come = true;
        }
        self.note_events();
    }

    fn link(&mut self) -> Door<UnixPipe> {
        if !self.links_may_come {
            return Door::Nobody;
        }
        let comer = comer_at(&self.listeners.links);
        let door = self.door_of(comer.and_then(hold_few));
        if matches!(door, Door::Nobody) {
            self.links_may_come = false;
        }
        door
    }

    fn client(&mut self) -> Door<UnixPipe> {
        if !self.clients_may_come {
            return Door::Nobody;
        }
        let comer = comer_at(&self.listeners.clients);
        match self.door_of(comer) {
            Door::Came(pipe) => Door::Came(self.seats.take(pipe)),
            Door::Nobody => {
                self.clients_may_come = false;
                Door::Nobody
            }
            Door::Failed => Door::Failed,
        }
    }

    fn connect(&mut self, neighbour: u16) -> Door<UnixPipe> {
        let Some(address) = self.addresses.get(usize::from(neighbour)) else {
            self.failures = self.failures.saturating_add(1);
            return Door::Failed;
        };
        let made = UnixStream::connect_addr(self.net, address);
        self.door_of(made.and_then(hold_few))
    }
}

/// A new poll, which reports these sockets.
///
/// # Errors
/// If the system gives no poll or does not watch a socket, or memory runs out.
fn polling_of<N: Net>(net: &N, alloc: Global, listeners: &mut Listeners) -> io::Result<Polling> {
    let polling = new_polling(net, alloc)?;
    listen_to_all(&polling.poll, listeners)?;
    Ok(polling)
}

/// A poll that reports nothing yet.
fn new_polling<N: Net>(net: &N, alloc: Global) -> io::Result<Polling> {
    let poll = Poll::new(net)?;
    let events = Events::with_capacity(alloc, EVENTS)?;
    Ok(Polling { poll, events })
}

/// Has a poll report these sockets, each under its token.
fn listen_to_all(poll: &Poll, listeners: &mut Listeners) -> io::Result<()> {
    listen(poll, &mut listeners.links, LINKS)?;
    listen(poll, &mut listeners.clients, CLIENTS)?;
    listen(poll, &mut listeners.looks, LOOKS)
}

/// The next connection at a socket that listens.
fn comer_at(listener: &UnixListener) -> io::Result<UnixStream> {
    let (stream, _) = listener.accept()?;
    Ok(stream)
}

/// Has a poll report a socket that listens, under this token.
fn listen(poll: &Poll, socket: &mut UnixListener, token: Token) -> io::Result<()> {
    poll.registry().register(socket, token, Interest::READABLE)
}
