//! Why a socket doesn't take or give.

use std::error::Error;
use std::{fmt, io};

/// A socket can't take or give a datagram. As text it is what the system calls its error; without a
/// number, `the system did not send it whole`.
#[derive(Clone, Copy, Debug, PartialEq, Eq)]
pub struct SocketFault {
    /// The system's number of its error (errno); None if it has none, for example if only a part of
    /// a datagram was sent, or if no socket has the number that was called.
    pub code: Option<i32>,
}

impl fmt::Display for SocketFault {
    fn fmt<W: fmt::Write>(&self, f: &mut fmt::Formatter<W>) -> fmt::Result {
        match self.code {
            Some(code) => write!(f, "{}", io::Error::from_raw_os_error(code)),
            None => f.write_str("the system did not send it whole"),
        }
    }
}

impl Error for SocketFault {}
