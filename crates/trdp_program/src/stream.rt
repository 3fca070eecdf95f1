//! A stream of text that never makes its writer wait.

ghost use Rattle.std.specs.Prelude.{[], ◌∷◌, ◌≤◌, length};
ghost use Rattle.trdp_base.specs.Reported.{TellsMore};
ghost use Rattle.trdp_program.specs.Streams.{attempt};

use libc::net::{POLLOUT, poll};
use libc::types::pollfd;
use std::io;
use std::io::{Stderr, Stdout, Write};

/// A stream that takes bytes at once or not at all. It may report what it was asked to take.
pub trait Stream {
    ghost use Rattle.std.specs.Prelude.{List, Option};
    ghost use Rattle.trdp_program.specs.Streams.{Attempt};

    /// What it was asked to take, in order, and how much of it that took; None if this stream
    /// reports nothing.
    ghost attempts: { Self → Option (List Attempt) };

    /// Asks it to take bytes, and returns how many it took of them, from the front: 0 if it would
    /// have to wait, or fails.
    fn try_write(&mut self, bytes: &[u8]) -> usize
        ensures within { result ≤ length bytes.now }
        ensures told { TellsMore (attempts self.old) (attempts self.new)
            (attempt bytes.now result ∷ []) };
}

/// The most bytes that go to the system at once: a pipe that is ready takes that many without a
/// wait (POSIX's PIPE_BUF on Linux).
const PIPE_BYTES: usize = 4_096;

/// Standard output or standard error, which is asked before each write whether it would wait: if it
/// would, the write fails. What it writes to stays as it is, since others may share it.
#[derive(Drop)]
pub struct Ready<W> {
    /// The system's number of the stream.
    descriptor: i32,
    /// The stream.
    stream: W,
}

impl Ready<Stdout> {
    /// Standard output.
    pub fn output(stream: Stdout) -> Ready<Stdout> {
        Ready {
            descriptor: libc::STDOUT_FILENO,
            stream,
        }
    }
}

impl Ready<Stderr> {
    /// Standard error.
    pub fn error(stream: Stderr) -> Ready<Stderr> {
        Ready {
            descriptor: libc::STDERR_FILENO,
            stream,
        }
    }
}

impl<W: Write> Write for Ready<W> {
    fn write(&mut self, buf: &[u8]) -> io::Result<usize> {
        if !is_ready(self.descriptor) {
            return Err(io::Error::from(io::ErrorKind::WouldBlock));
        }
        let (front, _) = buf.split_at(buf.len().min(PIPE_BYTES));
        self.stream.write(front)
    }

    fn flush(&mut self) -> io::Result<()> {
        self.stream.flush()
    }
}

impl<W: Write> Stream for Ready<W> {
    ghost use Rattle.std.specs.Prelude.{None};

    ghost attempts = { λ _. None };

    fn try_write(&mut self, bytes: &[u8]) -> usize {
        match self.write(bytes) {
            Ok(count) => count,
            Err(_) => 0,
        }
    }
}

/// Whether the system takes a write at a descriptor without a wait.
fn is_ready(descriptor: i32) -> bool {
    let mut asked = [pollfd {
        fd: descriptor,
        events: POLLOUT,
        revents: 0,
    }];
    let count = poll(&mut asked, 0);
    count > 0 && asked[0].revents & POLLOUT != 0
}
