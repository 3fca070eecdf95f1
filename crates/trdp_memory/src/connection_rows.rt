//! What connections in memory remember, and what is laid down for them.

use trdp_lines::{Accepted, Came, Went};

/// One call of connections in memory; the first number is the connection's.
#[derive(Debug, PartialEq, Eq, Drop)]
pub enum ConnectionRow {
    /// The next connection was asked for, and this was the answer.
    Accepted(u64, Accepted),
    /// A read: how many bytes it had room for, its answer, and the bytes that came.
    Read(u64, usize, Came, Vec<u8>),
    /// A write of these bytes, and its answer.
    Written(u64, Vec<u8>, Went),
    /// It was closed.
    Closed(u64),
}

/// What an accept answers.
#[derive(Clone, Copy)]
pub(crate) struct Coming {
    /// The number of the accept, from 1.
    pub(crate) at_accept: usize,
    /// The answer.
    pub(crate) answer: Accepted,
}

/// What a write answers.
#[derive(Clone, Copy)]
pub(crate) struct WriteAnswer {
    /// The number of the connection.
    pub(crate) number: u64,
    /// The number of the write to it, from 1.
    pub(crate) at_write: usize,
    /// The answer, if there are as many bytes.
    pub(crate) went: Went,
}
