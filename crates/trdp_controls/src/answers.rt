//! What the system's answers mean.

ghost use Rattle.std.specs.Prelude.{◌≡◌};
ghost use Rattle.trdp_controls.specs.Answers.{came_of, unaccepted_of, went_of};
ghost use Rattle.std.specs.IoError.{error_kind};

use std::io;
use std::io::ErrorKind;
use trdp_lines::{Accepted, Came, Went};

/// What a read finds, by what the system says: no bytes are the end of a stream.
pub(crate) fn came_of(read: io::Result<usize>) -> Came
    ensures { result ≡ came_of read }
{
    match read {
        Ok(0) => Came::Ended,
        Ok(count) => Came::Bytes(count),
        Err(error) => match error.kind() {
            ErrorKind::WouldBlock | ErrorKind::Interrupted => Came::Nothing,
            _ => Came::Ended,
        },
    }
}

/// What a write does, by what the system says.
pub(crate) fn went_of(written: io::Result<usize>) -> Went
    ensures { result ≡ went_of written }
{
    match written {
        Ok(0) => Went::Nothing,
        Ok(count) => Went::Bytes(count),
        Err(error) => match error.kind() {
            ErrorKind::WouldBlock | ErrorKind::Interrupted => Went::Nothing,
            _ => Went::Ended,
        },
    }
}

/// What it means that the system accepts no connection.
pub(crate) fn unaccepted_of(error: &io::Error) -> Accepted
    ensures { result ≡ unaccepted_of (error_kind error.now) }
{
    match error.kind() {
        ErrorKind::WouldBlock => Accepted::Nothing,
        _ => Accepted::Failed,
    }
}
