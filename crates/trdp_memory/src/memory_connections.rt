//! Connections in memory, for tests.

ghost use Rattle.std.specs.Prelude.{◌≡◌, ◌<◌, ◌++◌, ◌∷◌, [], length, drop, map, true, false};
ghost use Rattle.std.specs.Prelude.{IfSome, OnOk, OnErr, IfOk};
ghost use Rattle.trdp_memory.specs.MemoryConnections.{connection_call};

use crate::connection_log::{
    accepted_at, next_accept, next_read, next_write, note, read_row, went_at, write_row,
};
use crate::connection_rows::{Coming, ConnectionRow, WriteAnswer};
use crate::stream_arrival::{StreamArrival, bring};
use std::alloc::{AllocError, Global};
use std::marker::Model;
use trdp_lines::{Accepted, Came, Connections, Went};

/// Connections in memory: what comes, what each says and when it ends is laid down before, and they
/// remember what was asked. They report that until an allocation fails, and then nothing.
///
/// A connection has the number that it is accepted by. It takes all bytes that are written to it,
/// unless another answer was laid down.
#[derive(Drop)]
pub struct MemoryConnections {
    /// Where their lists take their memory from.
    alloc: Global,
    /// The path of the folder that has their file.
    folder: &'static str,
    /// The number that is the name of the file.
    file_number: u16,
    /// What accepts answer.
    comings: Vec<Coming>,
    /// What connections say, and their ends, in the order in which it was laid down.
    arrivals: Vec<StreamArrival>,
    /// What writes answer.
    answers: Vec<WriteAnswer>,
    /// What was asked, in order.
    rows: Vec<ConnectionRow>,
    /// Whether they report what was asked.
    tells: bool,
}

impl Model for MemoryConnections {
    ghost use Rattle.std.specs.Prelude.{map};
    ghost use Rattle.trdp_memory.specs.MemoryConnections.{MemoryConnectionsState, connection_call};

    ghost Value = { MemoryConnectionsState };

    ghost view = { λ c. record {
      folder = c.folder.now;
      file_number = c.file_number;
      comings = c.comings.items;
      arrivals = c.arrivals.items;
      answers = c.answers.items;
      calls = map connection_call c.rows.items;
      tells = c.tells;
    } };
}

impl MemoryConnections {
    ghost use Rattle.std.specs.Prelude.{◌≡◌, [], OnOk, OnErr, IfSome, map, false, true};
    ghost use Rattle.trdp_lines.specs.declared.connections.Accepted.TheVariants.{Came as Comes};
    ghost use Rattle.trdp_lines.specs.declared.connections.Accepted.TheVariants.{Failed};
    ghost use Rattle.trdp_memory.specs.MemoryConnections.{connection_call, no_connections};
    ghost use Rattle.trdp_memory.specs.MemoryConnections.{with_coming, with_stream_arrival};
    ghost use Rattle.trdp_memory.specs.MemoryConnections.{with_write_answer};
    ghost use Rattle.trdp_memory.specs.MemoryWires.{told};

    /// Connections of which nothing was asked, at the file of that number in a folder.
    pub fn new(alloc: Global, folder: &'static str, number: u16) -> MemoryConnections
        ensures { result ≡ no_connections folder.now number }
    {
        MemoryConnections {
            alloc,
            folder,
            file_number: number,
            comings: Vec::new(alloc),
            arrivals: Vec::new(alloc),
            answers: Vec::new(alloc),
            rows: Vec::new(alloc),
            tells: true,
        }
    }

    /// Lays down that the next connection is there at the accept of that number, from 1. Of two
    /// things for one accept the first holds.
    ///
    /// # Errors
    /// `AllocError` if an allocation for it fails.
    pub fn come(&mut self, accept: usize) -> Result<(), AllocError>
        ensures laid_down { OnOk result (self.new
            ≡ with_coming self.old (record { at_accept = accept; answer = Comes })) }
        ensures kept { OnErr result (self.new ≡ self.old) }
    {
        self.comings.push(Coming {
            at_accept: accept,
            answer: Accepted::Came,
        })?;
        Ok(())
    }

    /// Lays down that the system refuses the accept of that number, from 1. Of two things for one
    /// accept the first holds.
    ///
    /// # Errors
    /// `AllocError` if an allocation for it fails.
    pub fn refuse(&mut self, accept: usize) -> Result<(), AllocError>
        ensures laid_down { OnOk result (self.new
            ≡ with_coming self.old (record { at_accept = accept; answer = Failed })) }
        ensures kept { OnErr result (self.new ≡ self.old) }
    {
        self.comings.push(Coming {
            at_accept: accept,
            answer: Accepted::Failed,
        })?;
        Ok(())
    }

    /// Lays down what a connection says. From the read of that number on, counted from 1, these
    /// bytes are there. Of what is there, a read brings what was laid down first: bytes of one such
    /// text. What has no room stays for the next read.
    ///
    /// # Errors
    /// `AllocError` if an allocation for it fails.
    pub fn say(&mut self, number: u64, read: usize, bytes: &[u8]) -> Result<(), AllocError>
        ensures laid_down { OnOk result (self.new ≡ with_stream_arrival self.old (record {
          number = number;
          at_read = read;
          bytes = bytes.now;
          ends = false;
        })) }
        ensures kept { OnErr result (self.new ≡ self.old) }
    {
        let bytes = bytes.to_vec(self.alloc)?;
        self.arrivals.push(StreamArrival {
            number,
            at_read: read,
            bytes,
            begin: 0,
            ends: false,
        })?;
        Ok(())
    }

    /// Lays down that a connection ends. From the read of that number on, counted from 1, it has
    /// ended. What was laid down before and is there comes first; nothing laid down later comes
    /// from that read on.
    ///
    /// # Errors
    /// `AllocError` if an allocation for it fails.
    pub fn end(&mut self, number: u64, read: usize) -> Result<(), AllocError>
        ensures laid_down { OnOk result (self.new ≡ with_stream_arrival self.old (record {
          number = number;
          at_read = read;
          bytes = [];
          ends = true;
        })) }
        ensures kept { OnErr result (self.new ≡ self.old) }
    {
        let bytes = Vec::new(self.alloc);
        self.arrivals.push(StreamArrival {
            number,
            at_read: read,
            bytes,
            begin: 0,
            ends: true,
        })?;
        Ok(())
    }

    /// Lays down what the write of that number to a connection answers, from 1; of `Bytes` no more
    /// than there are, and `Nothing` if that is none. Of two answers for one write the first holds.
    ///
    /// # Errors
    /// `AllocError` if an allocation for it fails.
    pub fn answer_write(&mut self, number: u64, write: usize, went: Went) -> Result<(), AllocError>
        ensures laid_down { OnOk result (self.new ≡ with_write_answer self.old
            (record { number = number; at_write = write; went = went })) }
        ensures kept { OnErr result (self.new ≡ self.old) }
    {
        self.answers.push(WriteAnswer {
            number,
            at_write: write,
            went,
        })?;
        Ok(())
    }

    /// What was asked, in order, until an allocation failed.
    pub fn rows(&self) -> &[ConnectionRow]
        ensures { map connection_call result.now ≡ self.now.calls }
    {
        &self.rows
    }
}

impl Connections for MemoryConnections {
    ghost use Rattle.std.specs.Prelude.{◌≡◌, ◌<◌, ◌++◌, ◌∷◌, [], length, drop};
    ghost use Rattle.trdp_base.specs.Reported.{TellsMore};
    ghost use Rattle.trdp_lines.specs.Connections.{Accepts, CameWithin, Closes, Reads, Writes};
    ghost use Rattle.trdp_lines.specs.Connections.{WentWithin, bytes_arrived, read_answer_in};
    ghost use Rattle.trdp_lines.specs.Connections.{reading_of, writing_of};
    ghost use Rattle.trdp_memory.specs.MemoryConnections.{Remembers, after_read, next_accepted};
    ghost use Rattle.trdp_memory.specs.MemoryConnections.{next_answer, next_went};
    ghost use Rattle.trdp_memory.specs.MemoryWires.{told};

    ghost calls = { λ c. told c.tells c.calls };

    ghost file_number = { λ c. c.file_number };

    #[tactic(auto, unfolding(crate::specs::MemoryConnections::next_accepted))]
    fn accept(&mut self, number: u64) -> Accepted
        ensures told { TellsMore (told self.old.tells self.old.calls)
            (told self.new.tells self.new.calls) (Accepts number result ∷ []) }
        ensures kept { self.new.file_number ≡ self.old.file_number }
        ensures answer { result ≡ next_accepted self.old }
        ensures after { Remembers self.old (Accepts number result) self.new }
    {
        let answer = accepted_at(&self.comings, next_accept(&self.rows));
        let row = Ok(ConnectionRow::Accepted(number, answer));
        note(&mut self.rows, &mut self.tells, row);
        answer
    }

    #[tactic(auto, unfolding(crate::specs::MemoryConnections::next_answer, crate::specs::MemoryConnections::after_read))]
    fn read(&mut self, number: u64, room: &mut [u8]) -> Came
        requires { 0 < length room.old }
        ensures count { CameWithin (length room.new) result }
        ensures told { TellsMore (told self.old.tells self.old.calls)
            (told self.new.tells self.new.calls)
            (Reads number (reading_of result (length room.new) room.new) ∷ []) }
        ensures kept { self.new.file_number ≡ self.old.file_number }
        ensures answer { read_answer_in result room.new
            ≡ next_answer self.old number (length room.old) }
        ensures room { room.new ≡ bytes_arrived (read_answer_in result room.new)
            ++ drop (length (bytes_arrived (read_answer_in result room.new))) room.old }
        ensures after { Remembers (after_read self.old number (length room.old))
            (Reads number (reading_of result (length room.new) room.new)) self.new }
    {
        let read = next_read(&self.rows, number);
        let came = bring(&mut self.arrivals, number, read, room);
        let row = read_row(self.alloc, number, room, came);
        note(&mut self.rows, &mut self.tells, row);
        came
    }

    #[tactic(auto, unfolding(crate::specs::MemoryConnections::next_went))]
    fn write(&mut self, number: u64, bytes: &[u8]) -> Went
        requires { 0 < length bytes.now }
        ensures count { WentWithin (length bytes.now) result }
        ensures told { TellsMore (told self.old.tells self.old.calls)
            (told self.new.tells self.new.calls)
            (Writes number (writing_of bytes.now result) ∷ []) }
        ensures kept { self.new.file_number ≡ self.old.file_number }
        ensures answer { result ≡ next_went self.old number (length bytes.now) }
        ensures after { Remembers self.old (Writes number (writing_of bytes.now result)) self.new }
    {
        let write = next_write(&self.rows, number);
        let went = went_at(&self.answers, number, write, bytes.len());
        let row = write_row(self.alloc, number, bytes, went);
        note(&mut self.rows, &mut self.tells, row);
        went
    }

    fn close(&mut self, number: u64)
        ensures told { TellsMore (told self.old.tells self.old.calls)
            (told self.new.tells self.new.calls) (Closes number ∷ []) }
        ensures kept { self.new.file_number ≡ self.old.file_number }
        ensures after { Remembers self.old (Closes number) self.new }
    {
        let row = Ok(ConnectionRow::Closed(number));
        note(&mut self.rows, &mut self.tells, row);
    }
}
