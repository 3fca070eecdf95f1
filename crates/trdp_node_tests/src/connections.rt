//! The path of a control port over connections in memory: an application speaks, one that comes
//! beside it is told `busy`, and one that comes as it ends has its seat then.

ghost use Rattle.std.specs.Prelude.{◌≡◌, OnOk};

use crate::same::same;
use std::alloc::{AllocError, Global};
use std::process::Abort;
use trdp_lines::{Accepted, Came, ControlPath, Path, Went};
use trdp_memory::{ConnectionRow, MemoryConnections};

/// What a take hands in: the number of the connection, and its line.
#[derive(Clone, Copy, Debug, PartialEq, Eq)]
struct Line<'a> {
    number: u64,
    text: &'a [u8],
}

/// A call of connections; the first number is the connection's.
#[derive(Clone, Copy, Debug, PartialEq, Eq)]
enum Call<'a> {
    Accepts(u64, Accepted),
    Reads(u64, usize, Came, &'a [u8]),
    Writes(u64, &'a [u8], Went),
    Closes(u64),
}

/// The bytes of one line, which a read has room for.
const LINE: usize = 140_000;

/// What the takes hand in.
static LINES: [Option<Line<'static>>; 5] = [
    Some(Line {
        number: 1,
        text: b"one",
    }),
    None,
    Some(Line {
        number: 1,
        text: b"reset",
    }),
    Some(Line {
        number: 3,
        text: b"three",
    }),
    None,
];

/// The calls that these takes and the answers to the lines make.
static CALLS: [Call<'static>; 16] = [
    Call::Accepts(1, Accepted::Came),
    Call::Reads(1, LINE, Came::Bytes(4), b"one\n"),
    Call::Writes(1, b"ok\n", Went::Bytes(3)),
    Call::Accepts(2, Accepted::Came),
    Call::Reads(1, LINE, Came::Nothing, b""),
    Call::Writes(2, b"busy\n", Went::Bytes(5)),
    Call::Closes(2),
    Call::Accepts(3, Accepted::Came),
    Call::Reads(1, LINE, Came::Ended, b""),
    Call::Closes(1),
    Call::Accepts(4, Accepted::Failed),
    Call::Reads(3, LINE, Came::Bytes(6), b"three\n"),
    Call::Writes(3, b"ok\n", Went::Nothing),
    Call::Accepts(4, Accepted::Nothing),
    Call::Writes(3, b"ok\n", Went::Bytes(3)),
    Call::Reads(3, LINE, Came::Nothing, b""),
];

/// Lays down that three connections come one after another, and that one is refused then. The
/// first speaks and ends. The third speaks, and takes its answer only at the second try.
///
/// # Errors
/// `AllocError` where an allocation fails.
fn lay_down(connections: &mut MemoryConnections) -> Result<(), AllocError>
    ensures calls { OnOk result (connections.new.calls ≡ connections.old.calls) }
    ensures tells { OnOk result (connections.new.tells ≡ connections.old.tells) }
{
    connections.come(1)?;
    connections.come(2)?;
    connections.come(3)?;
    connections.refuse(4)?;
    connections.say(1, 1, b"one\n")?;
    connections.end(1, 3)?;
    connections.say(3, 1, b"three\n")?;
    connections.answer_write(3, 1, Went::Nothing)
}

/// A path over these connections; None where an allocation fails.
fn path(alloc: Global) -> Option<ControlPath<MemoryConnections>> {
    let mut connections = MemoryConnections::new(alloc, "/run/trdpd", 18000);
    match lay_down(&mut connections) {
        Ok(()) => Path::new(alloc, connections).ok(),
        Err(_) => None,
    }
}

/// The call of a row.
fn call_of(row: &ConnectionRow) -> Call<'_> {
    match row {
        ConnectionRow::Accepted(number, answer) => Call::Accepts(*number, *answer),
        ConnectionRow::Read(number, room, came, bytes) => {
            Call::Reads(*number, *room, *came, bytes.as_slice())
        }
        ConnectionRow::Written(number, bytes, went) => {
            Call::Writes(*number, bytes.as_slice(), *went)
        }
        ConnectionRow::Closed(number) => Call::Closes(*number),
    }
}

/// The next line at a path, which is answered by `ok`.
fn next_line<'a>(
    path: &mut ControlPath<MemoryConnections>,
    room: &'a mut [u8],
) -> Option<Line<'a>> {
    let Ok(Some((number, len))) = path.take(room) else {
        return None;
    };
    let _ = path.give(number, b"ok\n");
    let (text, _) = room.split_at(len);
    Some(Line { number, text })
}

/// Asserts what is handed in at a path, take by take.
fn serves(rt: &(impl Abort + AllocGlobal), path: &mut ControlPath<MemoryConnections>) {
    let mut room = [0; 16];
    for (take, line) in LINES.iter().enumerate() {
        same(rt, take, next_line(path, &mut room), *line);
    }
}

/// Asserts which calls were made.
fn called(rt: &(impl Abort + AllocGlobal), rows: &[ConnectionRow]) {
    same(rt, "calls", rows.len(), CALLS.len());
    for (row, call) in rows.iter().zip(CALLS.iter()) {
        same(rt, "a call", call_of(row), *call);
    }
}

// rule: slot.end: the end of an application is handed in after its last line, before the next one
#[test]
fn one_application_after_another(rt: HostRuntime) {
    match path(rt.alloc()) {
        Some(mut path) => {
            serves(&rt, &mut path);
            called(&rt, path.connections().rows());
        }
        None => panic!(rt; "no memory"),
    }
}
