//! What connections in memory remember of their calls, and what they answer by that.

ghost use Rattle.std.specs.Prelude.{◌≡◌, ◌+◌, length, map, IfOk};
ghost use Rattle.std.specs.List.{count_by, find, position};
ghost use Rattle.trdp_lines.specs.Connections.{CameWithin, Reads, Writes};
ghost use Rattle.trdp_lines.specs.Connections.{reading_of, writing_of};
ghost use Rattle.trdp_memory.specs.MemoryConnections.{KeepsRow, accepted_of, comes_at};
ghost use Rattle.trdp_memory.specs.MemoryConnections.{connection_call, cut_went, is_accept};
ghost use Rattle.trdp_memory.specs.MemoryConnections.{answers_write, is_read_of, is_write_of};
ghost use Rattle.trdp_memory.specs.MemoryConnections.{took, went_by};

use crate::connection_rows::{Coming, ConnectionRow, WriteAnswer};
use std::alloc::{AllocError, Global};
use trdp_lines::{Accepted, Came, Went};

/// Whether a row is an accept.
fn is_accept(row: &ConnectionRow) -> bool
    ensures { result ≡ is_accept (connection_call row.now) }
{
    match row {
        ConnectionRow::Accepted(_, _) => true,
        _ => false,
    }
}

/// Whether a row is a read from the connection of that number.
fn is_read_of(number: u64, row: &ConnectionRow) -> bool
    ensures { result ≡ is_read_of number (connection_call row.now) }
{
    match row {
        ConnectionRow::Read(of, _, _, _) => *of == number,
        _ => false,
    }
}

/// Whether a row is a write to the connection of that number.
fn is_write_of(number: u64, row: &ConnectionRow) -> bool
    ensures { result ≡ is_write_of number (connection_call row.now) }
{
    match row {
        ConnectionRow::Written(of, _, _) => *of == number,
        _ => false,
    }
}

/// The number of the next accept, from 1.
pub(crate) fn next_accept(rows: &[ConnectionRow]) -> usize
    ensures { result ≡ count_by is_accept (map connection_call rows.now) + 1 }
{
    rows.iter().filter(|row| is_accept(row)).count() + 1
}

/// The number of the next read from a connection, from 1.
pub(crate) fn next_read(rows: &[ConnectionRow], number: u64) -> usize
    ensures { result ≡ count_by (is_read_of number) (map connection_call rows.now) + 1 }
{
    rows.iter().filter(|row| is_read_of(number, row)).count() + 1
}

/// The number of the next write to a connection, from 1.
pub(crate) fn next_write(rows: &[ConnectionRow], number: u64) -> usize
    ensures { result ≡ count_by (is_write_of number) (map connection_call rows.now) + 1 }
{
    rows.iter().filter(|row| is_write_of(number, row)).count() + 1
}

/// The index of what was laid down for the accept of that number; None if nothing was.
fn coming_index(comings: &[Coming], accept: usize) -> Option<usize>
    ensures { result ≡ position (comes_at accept) comings.now }
{
    comings.iter().position(|coming| coming.at_accept == accept)
}

/// The index of what was laid down for the write of that number to a connection; None if nothing
/// was.
fn answer_index(answers: &[WriteAnswer], number: u64, write: usize) -> Option<usize>
    ensures { result ≡ position (answers_write number write) answers.now }
{
    answers.iter().position(|answer| answer.number == number && answer.at_write == write)
}

/// What the accept of that number answers.
pub(crate) fn accepted_at(comings: &[Coming], accept: usize) -> Accepted
    ensures { result ≡ accepted_of (find (comes_at accept) comings.now) }
{
    match coming_index(comings, accept) {
        Some(index) => comings[index].answer,
        None => Accepted::Nothing,
    }
}

/// The answer of the write with that number to a connection, of `many` bytes.
pub(crate) fn went_at(answers: &[WriteAnswer], number: u64, write: usize, many: usize) -> Went
    ensures { result ≡ went_by many (find (answers_write number write) answers.now) }
{
    match answer_index(answers, number, write) {
        Some(index) => cut_went(many, answers[index].went),
        None => took(many),
    }
}

/// That answer of a write, of no more bytes than there are.
fn cut_went(many: usize, went: Went) -> Went
    ensures { result ≡ cut_went many went }
{
    match went {
        Went::Bytes(count) => took(count.min(many)),
        Went::Nothing => Went::Nothing,
        Went::Ended => Went::Ended,
    }
}

/// The answer of a write that took so many bytes; `Nothing` if 0.
fn took(count: usize) -> Went
    ensures { result ≡ took count }
{
    if count == 0 {
        Went::Nothing
    } else {
        Went::Bytes(count)
    }
}

/// The row of a read that put this into a room.
///
/// # Errors
/// `AllocError` if an allocation for its bytes fails.
pub(crate) fn read_row(
    alloc: Global,
    number: u64,
    room: &[u8],
    came: Came,
) -> Result<ConnectionRow, AllocError>
    requires { CameWithin (length room.now) came }
    ensures { IfOk result (λ row. connection_call row
        ≡ Reads number (reading_of came (length room.now) room.now)) }
{
    let (bytes, _) = room.split_at(came.count());
    let bytes = bytes.to_vec(alloc)?;
    Ok(ConnectionRow::Read(number, room.len(), came, bytes))
}

/// The row of a write of these bytes that was answered so.
///
/// # Errors
/// `AllocError` if an allocation for them fails.
pub(crate) fn write_row(
    alloc: Global,
    number: u64,
    bytes: &[u8],
    went: Went,
) -> Result<ConnectionRow, AllocError>
    ensures { IfOk result (λ row. connection_call row
        ≡ Writes number (writing_of bytes.now went)) }
{
    let bytes = bytes.to_vec(alloc)?;
    Ok(ConnectionRow::Written(number, bytes, went))
}

/// Remembers a call, unless there is no memory for it: then none is reported from now on.
pub(crate) fn note(
    rows: &mut Vec<ConnectionRow>,
    tells: &mut bool,
    row: Result<ConnectionRow, AllocError>,
)
    ensures { KeepsRow row (map connection_call rows.old.items)
        (map connection_call rows.new.items) tells.old tells.new }
{
    match row {
        Ok(row) => {
            if rows.push(row).is_err() {
                *tells = false;
            }
        }
        Err(_) => *tells = false,
    }
}
