//! What a wire in memory remembers.

use trdp_base::Place;
use trdp_wire::Port;

/// What one take answered.
#[derive(Clone, Copy)]
pub(crate) enum TakeAnswer {
    /// The wire failed.
    Failed,
    /// No datagram was there.
    Nothing,
    /// That datagram of those that were laid down arrived, by its index, with that many of its
    /// bytes.
    Came(usize, usize),
}

/// One take.
#[derive(Clone, Copy)]
pub(crate) struct TakeRow {
    /// The port that it was at.
    pub(crate) port: Port,
    /// How many bytes it had room for.
    pub(crate) room: usize,
    /// What it answered.
    pub(crate) answer: TakeAnswer,
    /// Whether that was handed in as the end of an application.
    pub(crate) ended: bool,
}

/// One rest that a wire was asked for.
#[derive(Clone, Copy, Debug, PartialEq, Eq)]
pub struct Rest {
    /// How many takes came before it.
    pub takes: usize,
    /// How long it may have been at most, in microseconds.
    pub most: u64,
}

/// One give. Its bytes follow those of the gives before in the wire's list.
#[derive(Clone, Copy)]
pub(crate) struct GiveRow {
    /// The port that it left from.
    pub(crate) port: Port,
    /// Where it went.
    pub(crate) to: Place,
    /// How many bytes it has.
    pub(crate) len: usize,
    /// Whether the wire failed at it.
    pub(crate) failed: bool,
}
