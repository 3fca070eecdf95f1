//! What came in over a stream of bytes and isn't handed in yet.

ghost use Rattle.std.specs.Prelude.{◌≡◌, ◌+◌, ◌-◌, ◌<◌, ◌≤◌, [], ◌∷◌, ◌++◌, nat_le};
ghost use Rattle.std.specs.Prelude.{length, take, drop, true, false, IfOk, IfSome, IfNone};
ghost use Rattle.std.specs.Prelude.{MatchOption};
ghost use Rattle.trdp_base.specs.Reported.{TellsMore};
ghost use Rattle.trdp_lines.specs.Connections.{CameWithin, came_count, reading_bytes};
ghost use Rattle.trdp_lines.specs.Connections.{Reads, reading_of};
ghost use Rattle.trdp_lines.specs.Intakes.{intake_room, lying, IsFirstLine, reading_between};
ghost use Rattle.trdp_lines.specs.Lines.{has_line, first_line, behind_line};

use crate::connections::{Came, Connections};
use memchr::memchr;
use std::alloc::{AllocError, Global};
use std::marker::Model;
use trdp_base::LINE_MAX;

/// Room for one line with its end, in bytes.
const LINE_ROOM: usize = LINE_MAX;

/// The bytes of a connection that were read and not handed in.
#[derive(Drop)]
pub(crate) struct Intake {
    /// The room that contains them.
    room: Vec<u8>,
    /// The index in the room at which they begin.
    begin: usize,
    /// The index in the room after the last of them.
    end: usize,
    /// How many of them, at their front, are known to have no end of a line among them.
    seen: usize,
}

impl Model for Intake {
    ghost use Rattle.std.specs.Prelude.{ℕ, List};
    ghost use Rattle.trdp_lines.specs.Intakes.{LieInOrder, lying};

    ghost Value = { List ℕ };

    ghost view = { λ i. lying i.room.items i.begin i.end };

    ghost invariant = { λ i. LieInOrder i.room.items i.begin i.end i.seen };
}

impl Intake {
    /// No bytes, and room for a line.
    ///
    /// # Errors
    /// [`AllocError`] if there is no memory for it.
    pub(crate) fn new(alloc: Global) -> Result<Intake, AllocError>
        ensures { IfOk result (λ intake. intake ≡ []) }
    {
        let room = vec![in alloc; 0; LINE_ROOM]?;
        Ok(Intake {
            room,
            begin: 0,
            end: 0,
            seen: 0,
        })
    }

    /// Drops all bytes.
    pub(crate) fn clear(&mut self)
        ensures { self.new ≡ [] }
    {
        self.begin = 0;
        self.end = 0;
        self.seen = 0;
    }

    /// Whether there is no room for one more byte.
    pub(crate) fn is_full(&self) -> bool
        ensures { result ≡ nat_le intake_room (length self.now) }
    {
        self.end - self.begin >= LINE_ROOM
    }

    /// Reads once from the connection of that number, into all the room after the bytes.
    pub(crate) fn fill<C: Connections>(&mut self, from: &mut C, number: u64) -> Came
        requires { length self.old < intake_room }
        ensures count { CameWithin (intake_room - length self.old) result }
        ensures length { length self.new ≡ length self.old + came_count result }
        ensures bytes { self.new
            ≡ self.old ++ reading_bytes (reading_between result self.old self.new) }
        ensures told { TellsMore (C.calls from.old) (C.calls from.new)
            (Reads number (reading_between result self.old self.new) ∷ []) }
        ensures kept { C.file_number from.new ≡ C.file_number from.old }
    {
        let came = refill(from, number, &mut self.room, self.begin, self.end);
        self.end = self.end - self.begin + came.count();
        self.begin = 0;
        came
    }

    /// Hands in the next line without its end, cut to the room, if a whole one is there. Returns
    /// how many bytes it has in the room.
    pub(crate) fn next_line(&mut self, to: &mut [u8]) -> Option<usize>
        ensures some { IfSome result (λ _. has_line self.old ≡ true) }
        ensures within { IfSome result (λ count. count ≤ length to.new) }
        ensures line { IfSome result (λ count.
            take count to.new ≡ take (length to.old) (first_line self.old)) }
        ensures room { IfSome result (λ count. drop count to.new ≡ drop count to.old) }
        ensures rest { IfSome result (λ _. self.new ≡ behind_line self.old) }
        ensures none { IfNone result (has_line self.old ≡ false) }
        ensures kept { IfNone result (self.new ≡ self.old) }
        ensures untouched { IfNone result (to.new ≡ to.old) }
    {
        let (read, _) = self.room.split_at(self.end);
        let (_, bytes) = read.split_at(self.begin);
        match first_line_of(bytes, self.seen) {
            Some(len) => {
                let (line, _) = bytes.split_at(len);
                let count = copy_front(line, to);
                self.begin += len + 1;
                self.seen = 0;
                Some(count)
            }
            None => {
                self.seen = self.end - self.begin;
                None
            }
        }
    }
}

/// How many bytes the first line has, if `seen` bytes at the front have no end of a line.
fn first_line_of(bytes: &[u8], seen: usize) -> Option<usize>
    requires within { seen ≤ length bytes.now }
    requires unended { has_line (take seen bytes.now) ≡ false }
    ensures { MatchOption result (has_line bytes.now ≡ false) (λ n. IsFirstLine bytes.now n) }
{
    let (_, fresh) = bytes.split_at(seen);
    let place = memchr(b'\n', fresh)?;
    Some(seen + place)
}

/// Moves the bytes between two places to the room's front.
fn to_front(room: &mut [u8], begin: usize, end: usize)
    requires order { begin ≤ end }
    requires within { end ≤ length room.old }
    ensures { take (end - begin) room.new ≡ lying room.old begin end }
{
    if begin > 0 {
        room.copy_within(begin..end, 0);
    }
}

/// Moves the bytes between two places to the room's front, and reads once to their end.
fn refill<C: Connections>(
    from: &mut C,
    number: u64,
    room: &mut [u8],
    begin: usize,
    end: usize,
) -> Came
    requires order { begin ≤ end }
    requires within { end ≤ length room.old }
    requires spare { end - begin < length room.old }
    ensures count { CameWithin (length room.old - (end - begin)) result }
    ensures bytes { take (end - begin + came_count result) room.new
        ≡ lying room.old begin end ++ take (came_count result) (drop (end - begin) room.new) }
    ensures told { TellsMore (C.calls from.old) (C.calls from.new)
        (Reads number (reading_of result (length room.old - (end - begin))
        (drop (end - begin) room.new)) ∷ []) }
    ensures kept { C.file_number from.new ≡ C.file_number from.old }
{
    to_front(room, begin, end);
    let (_, free) = room.split_at_mut(end - begin);
    from.read(number, free)
}

/// Copies a line to a room's front, cut to it. Returns how many bytes it has there.
pub(crate) fn copy_front(line: &[u8], to: &mut [u8]) -> usize
    ensures within { result ≤ length to.new }
    ensures line { take result to.new ≡ take (length to.old) line.now }
    ensures room { drop result to.new ≡ drop result to.old }
{
    let len = line.len().min(to.len());
    let (line, _) = line.split_at(len);
    let (front, _) = to.split_at_mut(len);
    front.copy_from_slice(line);
    len
}
