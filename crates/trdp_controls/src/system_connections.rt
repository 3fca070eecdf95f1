//! The connections of the system at a path.

ghost use Rattle.std.specs.Prelude.{◌≡◌, ◌<◌, length, string_bytes, IfOk};
ghost use Rattle.std.specs.Io.{ReadsAtMost, WritesAtMost};
ghost use Rattle.trdp_controls.specs.Paths.{path_of};

use crate::answers::{came_of, unaccepted_of, went_of};
use crate::listen_fault::ListenFault;
use crate::path::socket_path;
use crate::socket_file::{is_gone, listen_at};
use crate::teller::Teller;
use mio::net::{UnixListener, UnixStream};
use std::alloc::Global;
use std::fs::Files;
use std::io;
use std::io::{ErrorKind, Read, Write};
use std::net::Net;
use trdp_lines::{Accepted, Came, Connections, Went};

/// Room for the open connections of one path. At most five are open at once: four operators, and
/// one that is sent `busy`.
const OPEN_MAX: usize = 6;

/// How often a call is made at most if signals interrupt it.
const TRIES: u32 = 8;

/// The connections of the system at a path. They report nothing.
#[derive(Drop)]
pub struct SystemConnections<'a, R: Files + Net> {
    /// The system, which has the files.
    rt: &'a R,
    /// The number that is the name of the path's file.
    file_number: u16,
    /// The path of that file.
    path: String,
    /// The socket at which they come in.
    listener: UnixListener,
    /// Those that are open. There is room for six.
    seats: Vec<Seated>,
    /// Where the system reports that one came, or can go on.
    teller: Teller,
    /// The system's number of its error at the latest accept that failed; None before the first.
    accept_error: Option<i32>,
}

/// A connection that is open.
#[derive(Drop)]
struct Seated {
    /// The number by which it is called.
    number: u64,
    /// The stream of its bytes.
    stream: UnixStream,
    /// Whether the system reports room: the other side didn't take all of the last write.
    is_behind: bool,
}

impl<'a, R: Files + Net> SystemConnections<'a, R> {
    /// Listens at the file of that number in a folder. The system reports to the teller's registry
    /// when a connection, bytes, room for more or an end comes.
    ///
    /// # Errors
    /// `Refused` if a process listens there, if something other than a socket's file is there,
    /// which is left as it is, if the path has more than 107 bytes, or if the system refuses it
    /// for another reason. `OutOfMemory` if an allocation fails, or the system is out of memory.
    pub fn listen(
        rt: &'a R,
        alloc: Global,
        folder: &str,
        file_number: u16,
        teller: Teller,
    ) -> Result<SystemConnections<'a, R>, ListenFault>
        ensures number { IfOk result (λ connections. connections.file_number ≡ file_number) }
        ensures path { IfOk result (λ connections.
            string_bytes connections.path ≡ path_of folder.now file_number) }
    {
        let path = socket_path(alloc, folder, file_number)?;
        let seats = Vec::with_capacity(alloc, OPEN_MAX).map_err(|_| ListenFault::OutOfMemory)?;
        let listener = listen_at(rt, path.as_str(), &teller)?;
        Ok(SystemConnections {
            rt,
            file_number,
            path,
            listener,
            seats,
            teller,
            accept_error: None,
        })
    }

    /// Accepts the next connection, and keeps it open.
    ///
    /// # Errors
    /// The system's error; `StorageFull` if too many are open.
    fn open_next(&mut self, number: u64) -> io::Result<()>
        ensures number { self.new.file_number ≡ self.old.file_number }
    {
        let (mut stream, _) = self.listener.accept()?;
        if self.seats.len() >= OPEN_MAX {
            return Err(io::Error::from(ErrorKind::StorageFull));
        }
        self.teller.watch(&mut stream)?;
        self.seats.push(Seated {
            number,
            stream,
            is_behind: false,
        })?;
        Ok(())
    }
}

impl Seated {
    ghost use Rattle.std.specs.Prelude.{◌<◌, length};
    ghost use Rattle.trdp_lines.specs.Connections.{WentWithin};

    /// Writes once. The system reports room only while some is missing: otherwise it would report
    /// each time that the other side reads.
    fn write(&mut self, bytes: &[u8], teller: &Teller) -> Went
        ensures { WentWithin (length bytes.now) result }
    {
        let went = went_of(write_to(&self.stream, bytes));
        let is_behind = went.count() < bytes.len();
        if is_behind != self.is_behind {
            self.is_behind = is_behind;
            teller.watch_room(&mut self.stream, is_behind);
        }
        went
    }
}

impl<'a, R: Files + Net> Connections for SystemConnections<'a, R> {
    ghost use Rattle.std.specs.Prelude.{None};

    ghost calls = { λ _. None };

    ghost file_number = { λ connections. connections.file_number };

    fn accept(&mut self, number: u64) -> Accepted {
        match self.open_next(number) {
            Ok(()) => Accepted::Came,
            Err(error) => {
                let accepted = unaccepted_of(&error);
                if accepted == Accepted::Failed {
                    self.accept_error = error.raw_os_error();
                }
                accepted
            }
        }
    }

    fn read(&mut self, number: u64, room: &mut [u8]) -> Came {
        match self.seats.iter().find(|seated| seated.number == number) {
            Some(seated) => came_of(read_from(&seated.stream, room)),
            None => Came::Ended,
        }
    }

    fn write(&mut self, number: u64, bytes: &[u8]) -> Went {
        match self.seats.iter_mut().find(|seated| seated.number == number) {
            Some(seated) => seated.write(bytes, &self.teller),
            None => Went::Ended,
        }
    }

    fn close(&mut self, number: u64) {
        self.seats.retain(|seated| seated.number != number);
    }

    fn accept_error(&self) -> Option<i32> {
        self.accept_error
    }

    fn missing_file(&self) -> Option<&str> {
        let path = self.path.as_str();
        is_gone(self.rt, path).then_some(path)
    }
}

/// Reads once from a stream. A read that a signal interrupts is made again, up to eight reads in
/// all, since the system doesn't report a second time that bytes are there. If all eight are
/// interrupted, the bytes wait until the next news of the path.
///
/// # Errors
/// The system's error.
fn read_from(mut stream: &UnixStream, room: &mut [u8]) -> io::Result<usize>
    ensures { ReadsAtMost result room.new }
{
    for _ in 0..TRIES {
        match stream.read(room) {
            Err(error) if error.kind() == ErrorKind::Interrupted => {}
            answer => return answer,
        }
    }
    Err(io::Error::from(ErrorKind::Interrupted))
}

/// Writes once to a stream. A write that a signal interrupts is made again, up to eight writes in
/// all.
///
/// # Errors
/// The system's error.
fn write_to(mut stream: &UnixStream, bytes: &[u8]) -> io::Result<usize>
    ensures { WritesAtMost result bytes.now }
{
    for _ in 0..TRIES {
        match stream.write(bytes) {
            Err(error) if error.kind() == ErrorKind::Interrupted => {}
            answer => return answer,
        }
    }
    Err(io::Error::from(ErrorKind::Interrupted))
}
