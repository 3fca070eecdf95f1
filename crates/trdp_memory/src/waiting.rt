//! The datagrams that wait at sockets in memory.

ghost use Rattle.std.specs.Prelude.{◌≡◌};
ghost use Rattle.std.specs.List.{position};
ghost use Rattle.trdp_memory.specs.Waiting.{is_at};

use std::marker::Model;
use trdp_base::Place;

/// A datagram that waits at a socket.
#[derive(Drop)]
pub(crate) struct SocketArrival {
    /// The number of the socket.
    pub(crate) socket: usize,
    /// Where it comes from.
    pub(crate) from: Place,
    /// Its bytes.
    pub(crate) bytes: Vec<u8>,
}

impl Model for SocketArrival {
    ghost use Rattle.trdp_memory.specs.Waiting.{WaitingDatagram};

    ghost Value = { WaitingDatagram };

    ghost view = { λ a. record { socket = a.socket; from = a.from; bytes = a.bytes.items } };
}

impl SocketArrival {
    /// Whether it waits at this socket.
    fn is_at(&self, socket: usize) -> bool
        ensures { result ≡ is_at socket self.now }
    {
        self.socket == socket
    }
}

/// The index of the next datagram at a socket; None if none waits there.
pub(crate) fn index_at(arrivals: &[SocketArrival], socket: usize) -> Option<usize>
    ensures { result ≡ position (is_at socket) arrivals.now }
{
    arrivals.iter().position(|arrival| arrival.is_at(socket))
}
