//! The network, as a server uses it.

ghost use Rattle.std.specs.Prelude.{◌≡◌, ◌++◌, ◌∷◌, [], ◌+◌, true, None, Some, IfOk, IfSome, OnErr, OnOk};
ghost use Rattle.s3_sockets.specs.Door.{HasPassed};
ghost use Rattle.s3_sockets.specs.Network.{AllAreClosed, unused};

use crate::door::{Door, Entrance};
use mio::net::TcpListener;
use mio::{Interest, Poll, Token};
use s3_driver::Account;
use s3_history::{Describes, Recorder};
use s3_journal::{Ground, Roster};
use std::collections::LinkedList;
use std::io::{self, ErrorKind};
use std::marker::Model;
use std::net::{self, Net, SocketAddr, ToSocketAddrs};

/// A socket on which connections come. Nobody but a door takes them from it.
#[derive(Drop)]
pub struct Listener {
    socket: net::TcpListener,
}

impl Listener {
    /// Its address, with the port that was taken.
    pub fn local_addr(&self) -> io::Result<SocketAddr> {
        self.socket.local_addr()
    }
}

/// What a door did that was closed. No value of it is made: a history consists of them.
pub struct ClosedDoor;

impl Model for ClosedDoor {
    ghost use Rattle.s3_sockets.specs.Door as rules;
    ghost use Rattle.s3_sockets.specs.Door.{nothing_passed};

    ghost Value = { rules.Passed };

    ghost view = { λ door. nothing_passed };
}

// What is told of a door.
struct AsPassed;

impl<J: Ground> Describes<Door<J>, ClosedDoor> for AsPassed {
    ghost entry = { λ door. door.passed };
}

// An address on which it is to listen.
#[derive(Clone, Copy)]
struct Asked<'a> {
    address: &'a str,
}

// Its bytes.
struct AsBytes;

impl<'a> Describes<Asked<'a>, LinkedList<u8>> for AsBytes {
    ghost entry = { λ asked. asked.address.now };
}

/// The network, as a server uses it. Contracts see the addresses on which it was asked to listen, how many doors were opened there,
/// and what those did that were closed since.
#[derive(Drop)]
pub struct Network<'n, N: Net> {
    net: &'n N,
    asked: Recorder<LinkedList<u8>>,
    // How many doors are open.
    doors: u64,
    closed: Recorder<ClosedDoor>,
}

impl<'n, N: Net> Model for Network<'n, N> {
    ghost use Rattle.std.specs.Prelude.{◌+◌, length};
    ghost use Rattle.s3_sockets.specs.Network.{NetworkState};

    ghost Value = { NetworkState };

    ghost view = { λ w. record { asked = w.asked.entries; opened = w.doors + length w.closed.entries; closed = w.closed.entries } };
}

impl<'n, N: Net> Network<'n, N> {
    /// The network of the system, of which nothing was asked. `None` never comes, though no contract can say so.
    pub fn new(net: &'n N) -> Option<Network<'n, N>>
        ensures { IfSome result (λ network. network ≡ unused) }
    {
        let (Some(asked), Some(closed)) = (Recorder::new(), Recorder::new()) else {
            return None;
        };
        Some(Network {
            net,
            asked,
            doors: 0,
            closed,
        })
    }

    /// Listens on an address, a host and a port, of which 0 stands for any that is free.
    ///
    /// # Errors
    ///
    /// Those of the system, where the host has no address on which this program may listen.
    pub fn listen(&mut self, address: &str) -> io::Result<Listener>
        ensures asked { self.new.asked ≡ self.old.asked ++ address.now ∷ [] }
        ensures opened { self.new.opened ≡ self.old.opened }
        ensures closed { self.new.closed ≡ self.old.closed }
    {
        self.asked.record::<Asked<'_>, AsBytes>(&Asked { address });
        let socket = net::TcpListener::from(first_bound(self.net, address)?);
        Ok(Listener { socket })
    }

    /// Opens a door for those that come to a listener, with the poll that reports them under a token. Several doors may take them.
    ///
    /// # Errors
    ///
    /// Those of the system, as where it has no more descriptors. No further door is open then.
    pub fn open_door(&mut self, listener: &Listener, token: Token) -> io::Result<(Poll, Entrance)>
        ensures opened { OnOk result (self.new.opened ≡ self.old.opened + 1) }
        ensures err { OnErr result (self.new ≡ self.old) }
        ensures asked { self.new.asked ≡ self.old.asked }
        ensures closed { self.new.closed ≡ self.old.closed }
    {
        let Some(doors) = self.doors.checked_add(1) else {
            return Err(io::Error::from(ErrorKind::Other));
        };
        let opened = entrance(self.net, listener, token)?;
        self.doors = doors;
        Ok(opened)
    }

    /// Closes a door, and hands out its roster. `None` comes only where no door is open, or the roster doesn't know what the door set
    /// aside.
    pub fn close_door<J: Ground>(&mut self, door: Door<J>) -> Option<Roster<J, Account>>
        ensures passed { IfSome result (λ roster. HasPassed door.passed roster) }
        ensures closed { IfSome result (λ roster. self.new.closed ≡ self.old.closed ++ door.passed ∷ []) }
        ensures opened { IfSome result (λ roster. self.new.opened ≡ self.old.opened) }
        ensures asked { self.new.asked ≡ self.old.asked }
    {
        if self.note_closed(&door) {
            door.end()
        } else {
            drop(door);
            None
        }
    }

    // Notes that a door is closed, if one is open, and answers whether one was.
    fn note_closed<J: Ground>(&mut self, door: &Door<J>) -> bool
        ensures closed { result ≡ true → self.new.closed ≡ self.old.closed ++ door.now.passed ∷ [] }
        ensures opened { result ≡ true → self.new.opened ≡ self.old.opened }
        ensures asked { self.new.asked ≡ self.old.asked }
    {
        if self.doors == 0 {
            return false;
        }
        self.doors -= 1;
        self.closed.record::<Door<J>, AsPassed>(door);
        true
    }

    /// Whether no door is open.
    pub fn is_closed(&self) -> bool
        ensures { result ≡ true → AllAreClosed self.now }
    {
        self.doors == 0
    }
}

// A listener on the first of the host's addresses that can be bound. Its `accept` does not block.
fn first_bound<N: Net>(net: &N, address: &str) -> io::Result<TcpListener> {
    for place in address.to_socket_addrs(net)? {
        if let Ok(listener) = TcpListener::bind(net, place) {
            return Ok(listener);
        }
    }
    Err(io::Error::from(ErrorKind::AddrNotAvailable))
}

// A poll that reports those that come to a listener, and what they are taken from.
fn entrance<N: Net>(net: &N, listener: &Listener, token: Token) -> io::Result<(Poll, Entrance)> {
    let poll = Poll::new(net)?;
    let mut socket = TcpListener::from_std(listener.socket.try_clone()?);
    poll.registry()
        .register(&mut socket, token, Interest::READABLE)?;
    match Entrance::new(socket) {
        Some(entrance) => Ok((poll, entrance)),
        None => Err(io::Error::from(ErrorKind::OutOfMemory)),
    }
}
