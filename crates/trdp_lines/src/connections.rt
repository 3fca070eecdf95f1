//! The connections that come in at a path.

ghost use Rattle.std.specs.Prelude.{◌≡◌, ◌<◌, [], ◌∷◌, length};
ghost use Rattle.trdp_base.specs.Reported.{TellsMore};
ghost use Rattle.trdp_lines.specs.Connections.{CameWithin, WentWithin};
ghost use Rattle.trdp_lines.specs.Connections.{reading_of, writing_of, came_count, went_count};
ghost use Rattle.trdp_lines.specs.Connections.{came_or_ended};
ghost use Rattle.trdp_lines.specs.Connections.{Accepts, Reads, Writes, Closes};

/// The result of a read.
#[derive(Clone, Copy, Debug, PartialEq, Eq)]
pub enum Came {
    /// That many bytes came, at least one.
    Bytes(usize),
    /// No byte is there now.
    Nothing,
    /// The other side has ended the stream, or it failed.
    Ended,
}

/// The result of a write.
#[derive(Clone, Copy, Debug, PartialEq, Eq)]
pub enum Went {
    /// That many bytes went, at least one.
    Bytes(usize),
    /// No byte goes now.
    Nothing,
    /// The other side has ended the stream, or it failed.
    Ended,
}

/// Whether the next connection is there.
#[derive(Clone, Copy, Debug, PartialEq, Eq)]
pub enum Accepted {
    /// It is, and has its number from now on.
    Came,
    /// None is there now.
    Nothing,
    /// The system refuses it.
    Failed,
}

/// The connections that come in at a path: streams of bytes, each with a number that it gets when
/// it is accepted, and by which it is called until it is closed. No call waits. They may report
/// what was asked of them.
pub trait Connections {
    ghost use Rattle.std.specs.Prelude.{ℕ, List, Option};
    ghost use Rattle.trdp_lines.specs.Connections.{ConnectionCall};

    /// What was asked of them, in order, with the answers; None if these report nothing.
    ghost calls: { Self → Option (List ConnectionCall) };

    /// The number of the path's file, which no call changes.
    ghost file_number: { Self → ℕ };

    /// Accepts the next connection, if one is there, with a number that none had before.
    fn accept(&mut self, number: u64) -> Accepted
        ensures told { TellsMore (calls self.old) (calls self.new) (Accepts number result ∷ []) }
        ensures kept { file_number self.new ≡ file_number self.old };

    /// Reads once from a connection: what came is put at the front of the room, which isn't empty.
    fn read(&mut self, number: u64, room: &mut [u8]) -> Came
        requires { 0 < length room.old }
        ensures count { CameWithin (length room.new) result }
        ensures told { TellsMore (calls self.old) (calls self.new)
            (Reads number (reading_of result (length room.new) room.new) ∷ []) }
        ensures kept { file_number self.new ≡ file_number self.old };

    /// Writes once to a connection: the other side takes a front of the bytes, at least one, or
    /// none of them.
    fn write(&mut self, number: u64, bytes: &[u8]) -> Went
        requires { 0 < length bytes.now }
        ensures count { WentWithin (length bytes.now) result }
        ensures told { TellsMore (calls self.old) (calls self.new)
            (Writes number (writing_of bytes.now result) ∷ []) }
        ensures kept { file_number self.new ≡ file_number self.old };

    /// Ends a connection.
    fn close(&mut self, number: u64)
        ensures told { TellsMore (calls self.old) (calls self.new) (Closes number ∷ []) }
        ensures kept { file_number self.new ≡ file_number self.old };

    /// The system's number of its error (errno) at the latest accept that failed; None before the
    /// first, and if these keep none.
    fn accept_error(&self) -> Option<i32> {
        None
    }

    /// The path's file, if it is gone: then nobody can connect any more. None if it is there, or if
    /// these know no file.
    fn missing_file(&self) -> Option<&str> {
        None
    }
}

impl Came {
    /// How many bytes came.
    pub fn count(self) -> usize
        ensures { result ≡ came_count self }
    {
        match self {
            Came::Bytes(count) => count,
            Came::Nothing | Came::Ended => 0,
        }
    }

    /// Whether bytes came, or the end.
    pub(crate) fn has_come(self) -> bool
        ensures { result ≡ came_or_ended self }
    {
        match self {
            Came::Bytes(_) | Came::Ended => true,
            Came::Nothing => false,
        }
    }
}

impl Went {
    /// How many bytes went.
    pub fn count(self) -> usize
        ensures { result ≡ went_count self }
    {
        match self {
            Went::Bytes(count) => count,
            Went::Nothing | Went::Ended => 0,
        }
    }
}
