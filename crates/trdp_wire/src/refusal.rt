//! What a wire refuses.

use crate::port::Port;
use crate::socket_fault::SocketFault;
use trdp_base::Place;

/// A give that the wire refused.
#[derive(Clone, Copy, Debug, PartialEq, Eq)]
pub struct GiveRefusal {
    /// The port that the datagram was to leave from.
    pub port: Port,
    /// Where it was to go.
    pub to: Place,
    /// Why it wasn't sent.
    pub fault: SocketFault,
}
