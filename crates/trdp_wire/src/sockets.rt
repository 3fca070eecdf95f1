//! What a wire takes datagrams from and gives them to.

ghost use Rattle.std.specs.Prelude.{[], ◌∷◌, ◌≤◌, length, IfOk, IfSome};
ghost use Rattle.trdp_wire.specs.News.{WaitsForNews};
ghost use Rattle.trdp_wire.specs.Sockets.{Binds, TakesFrom, GivesFrom, Watches, fault_of_result};
ghost use Rattle.trdp_base.specs.Reported.{TellsMore};
ghost use Rattle.trdp_wire.specs.Told.{arrived_in};

use crate::bind_fault::BindFault;
use crate::socket_fault::SocketFault;
use std::alloc::Global;
use trdp_base::Place;

/// The datagram sockets of a system. The caller that binds one gives it a number, and names it by
/// that (profile). No call waits but `wait`. They may report what was asked of them.
pub trait Sockets {
    ghost use Rattle.std.specs.Prelude.{List, Option};
    ghost use Rattle.trdp_wire.specs.Sockets.{SocketCall};

    /// What was asked of them, in order, with the answers; None if these sockets report nothing.
    ghost calls: { Self → Option (List SocketCall) };

    /// Binds a socket at a socket address of this machine. If a time to live is given, all that it
    /// sends has that one, also to a group; None leaves the system's.
    ///
    /// # Errors
    /// `OutOfMemory` if an allocation for it fails, and else `Bind`.
    fn bind(&mut self, socket: usize, place: Place, ttl: Option<u8>) -> Result<(), BindFault>
        ensures { TellsMore (calls self.old) (calls self.new)
            (Binds socket place ttl (fault_of_result result) ∷ []) };

    /// Takes the next datagram at a socket, if one is there: it is put at the front of the room,
    /// cut to it, and the answer is where it came from and how many bytes it has there.
    ///
    /// # Errors
    /// `SocketFault` if the system fails at it.
    fn take(
        &mut self,
        socket: usize,
        room: &mut [u8],
    ) -> Result<Option<(Place, usize)>, SocketFault>
        ensures within { IfOk result (λ found. IfSome found (λ f. f.1 ≤ length room.new)) }
        ensures told { TellsMore (calls self.old) (calls self.new)
            (TakesFrom socket (length room.new) (arrived_in result room.new) ∷ []) };

    /// Sends a datagram from a socket to a socket address.
    ///
    /// # Errors
    /// `SocketFault` if the system refuses it.
    fn give(&mut self, socket: usize, to: Place, bytes: &[u8]) -> Result<(), SocketFault>
        ensures { TellsMore (calls self.old) (calls self.new)
            (GivesFrom socket to bytes.now (fault_of_result result) ∷ []) };

    /// From now on a wait ends when a datagram comes at a socket.
    ///
    /// # Errors
    /// `OutOfMemory` if an allocation for it fails, and else `Bind`.
    fn watch(&mut self, alloc: Global, socket: usize) -> Result<(), BindFault>
        ensures { TellsMore (calls self.old) (calls self.new)
            (Watches socket (fault_of_result result) ∷ []) };

    /// Waits at most `millis` milliseconds, until something comes at one of the sockets that are
    /// watched, or came there since the last report of it. Sets the news of each socket at which
    /// something came, at the index of its number.
    fn wait(&mut self, millis: u64, news: &mut [bool])
        ensures { WaitsForNews millis (calls self.old) (calls self.new) news.old news.new };
}
