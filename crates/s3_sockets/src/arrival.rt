//! A socket that has come to a worker, and what is set aside for it.

ghost use Rattle.std.specs.Prelude.{◌≡◌, []};
ghost use Rattle.s3_devices.specs.Recorded.{untouched};

use crate::socket::Socket;
use s3_devices::{DeviceEvent, Recorded};
use s3_history::Recorder;
use s3_journal::{Ground, Seat};
use std::marker::Model;

/// A socket that has come, with the seat that its connection will have. It is known by the number of the seat. It comes from a
/// `Door` alone, and leaves by it: as a connection that was served, or turned away.
#[derive(Drop)]
pub struct Arrival<J: Ground> {
    stream: Recorded<Socket>,
    seat: Seat<J>,
}

impl<J: Ground> Model for Arrival<J> {
    ghost use Rattle.s3_sockets.specs.Door.{Arrived, IsArrival};

    ghost Value = { Arrived };

    ghost view = { λ a. record { traffic = a.stream.traffic; seat = a.seat } };

    ghost invariant = { λ a. IsArrival (record { traffic = a.stream.traffic; seat = a.seat }) };
}

impl<J: Ground> Arrival<J> {
    // The arrival of this socket, which is known by the number of this seat from now on.
    pub(crate) fn new(socket: Socket, recorder: Recorder<DeviceEvent>, seat: Seat<J>) -> Arrival<J>
        requires none { recorder.entries ≡ [] }
        requires nothing { seat.mine ≡ [] }
        ensures { result.seat ≡ seat }
    {
        let stream = Recorded::named(socket, recorder, seat.number());
        Arrival { stream, seat }
    }

    /// The socket.
    pub(crate) fn socket(&self) -> &Socket {
        self.stream.stream()
    }

    // The number of the seat.
    pub(crate) fn number(&self) -> u64
        ensures { result ≡ self.now.seat.number }
    {
        self.seat.number()
    }

    // What it is made of.
    pub(crate) fn into_parts(self) -> (Recorded<Socket>, Seat<J>)
        ensures stream { result.0.traffic ≡ untouched self.seat.number }
        ensures seat { result.1 ≡ self.seat }
        ensures nothing { self.seat.mine ≡ [] }
    {
        let Arrival { stream, seat } = self;
        (stream, seat)
    }
}

// What is set aside for the next that comes, so that nothing is lacking once it has come. Contracts see the number of the seat.
#[derive(Drop)]
pub(crate) struct Vacancy<J: Ground> {
    seat: Seat<J>,
    recorder: Recorder<DeviceEvent>,
}

impl<J: Ground> Model for Vacancy<J> {
    ghost use Rattle.std.specs.Prelude.{◌≡◌, [], ℕ};

    ghost Value = { ℕ };

    ghost view = { λ v. v.seat.number };

    ghost invariant = { λ v. (v.seat.mine ≡ []) × (v.recorder.entries ≡ []) };
}

impl<J: Ground> Vacancy<J> {
    // This seat, and what its stream will be recorded by.
    pub(crate) fn new(seat: Seat<J>, recorder: Recorder<DeviceEvent>) -> Vacancy<J>
        requires nothing { seat.mine ≡ [] }
        requires none { recorder.entries ≡ [] }
        ensures { result ≡ seat.number }
    {
        Vacancy { seat, recorder }
    }

    // The number of the seat.
    pub(crate) fn number(&self) -> u64
        ensures { result ≡ self.now }
    {
        self.seat.number()
    }

    // The arrival of this socket.
    pub(crate) fn meet(self, socket: Socket) -> Arrival<J>
        ensures { result.seat.number ≡ self }
    {
        let Vacancy { seat, recorder } = self;
        Arrival::new(socket, recorder, seat)
    }

    // The seat, to which nobody has come.
    pub(crate) fn into_seat(self) -> Seat<J>
        ensures number { result.number ≡ self }
        ensures nothing { result.mine ≡ [] }
    {
        let Vacancy { seat, recorder: _ } = self;
        seat
    }
}
