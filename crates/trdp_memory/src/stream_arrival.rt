//! What is laid down of a connection in memory: what it says, and that it ends.

ghost use Rattle.std.specs.Prelude.{◌≡◌, ◌<◌, ◌++◌, length, drop, false};
ghost use Rattle.std.specs.List.{position};
ghost use Rattle.trdp_lines.specs.Connections.{CameWithin, bytes_arrived, read_answer_in};
ghost use Rattle.trdp_memory.specs.MemoryConnections.{answer_for, answer_from, has_arrived};
ghost use Rattle.trdp_memory.specs.MemoryConnections.{unread_behind, left_from};

use crate::arrivals::fill;
use std::marker::Model;
use trdp_lines::Came;

/// What is there from a read of a connection on: bytes, or the end.
#[derive(Drop)]
pub(crate) struct StreamArrival {
    /// The number of the connection.
    pub(crate) number: u64,
    /// The number of the read from it from which on this is there, from 1.
    pub(crate) at_read: usize,
    /// The bytes, also those that were read already.
    pub(crate) bytes: Vec<u8>,
    /// How many of these, at their front, were read.
    pub(crate) begin: usize,
    /// Whether it is the end.
    pub(crate) ends: bool,
}

impl Model for StreamArrival {
    ghost use Rattle.std.specs.Prelude.{◌≤◌, drop, length};
    ghost use Rattle.trdp_memory.specs.MemoryConnections.{StreamArrivalModel};

    ghost Value = { StreamArrivalModel };

    ghost view = { λ a. record {
      number = a.number;
      at_read = a.at_read;
      bytes = drop a.begin a.bytes.items;
      ends = a.ends;
    } };

    ghost invariant = { λ a. a.begin ≤ length a.bytes.items };
}

impl StreamArrival {
    /// Whether it is there at the read of that number from a connection.
    fn has_arrived(&self, number: u64, read: usize) -> bool
        ensures { result ≡ has_arrived number read self.now }
    {
        let is_left = self.begin < self.bytes.len();
        self.number == number && self.at_read <= read && (self.ends || is_left)
    }

    /// What a read finds in it: bytes are put at the front of the room, and are no longer there
    /// then.
    fn bring(&mut self, room: &mut [u8]) -> Came
        requires there { self.old.ends ≡ false → 0 < length self.old.bytes }
        requires room { 0 < length room.old }
        ensures count { CameWithin (length room.new) result }
        ensures answer { read_answer_in result room.new ≡ answer_from (length room.old) self.old }
        ensures left { self.new ≡ left_from (length room.old) self.old }
        ensures room { room.new ≡ bytes_arrived (read_answer_in result room.new)
            ++ drop (length (bytes_arrived (read_answer_in result room.new))) room.old }
    {
        if self.ends {
            return Came::Ended;
        }
        let (_, left) = self.bytes.split_at(self.begin);
        let len = fill(room, left);
        self.begin += len;
        Came::Bytes(len)
    }
}

/// The index of the first that is there at the read of that number from a connection; None if none
/// is.
fn place_of(arrivals: &[StreamArrival], number: u64, read: usize) -> Option<usize>
    ensures { result ≡ position (has_arrived number read) arrivals.now }
{
    arrivals
        .iter()
        .position(|arrival| arrival.has_arrived(number, read))
}

/// What the read of that number from a connection finds in all that was laid down: the first that
/// is there. Bytes are put at the front of the room, and are no longer there then.
pub(crate) fn bring(
    arrivals: &mut Vec<StreamArrival>,
    number: u64,
    read: usize,
    room: &mut [u8],
) -> Came
    requires { 0 < length room.old }
    ensures count { CameWithin (length room.new) result }
    ensures answer { read_answer_in result room.new
        ≡ answer_for number read (length room.old) arrivals.old.items }
    ensures left { arrivals.new.items
        ≡ unread_behind number read (length room.old) arrivals.old.items }
    ensures room { room.new ≡ bytes_arrived (read_answer_in result room.new)
        ++ drop (length (bytes_arrived (read_answer_in result room.new))) room.old }
{
    match place_of(arrivals, number, read) {
        None => Came::Nothing,
        Some(place) => {
            let arrival = &mut arrivals[place];
            arrival.bring(room)
        }
    }
}
