//! What a wire fails to take.

use crate::port::Port;
use crate::socket_fault::SocketFault;

/// A take at which the wire failed.
#[derive(Clone, Copy, Debug, PartialEq, Eq)]
pub struct Unread {
    /// The port at which it was made.
    pub port: Port,
    /// Why nothing was taken.
    pub fault: SocketFault,
}
