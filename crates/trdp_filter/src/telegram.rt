//! Telegrams as they reach the objects of a slot.

use trdp_base::Place;
use trdp_head::{MdView, PdView};

/// A telegram with the socket addresses that its datagram came from and was sent to.
#[derive(Clone, Copy, Debug)]
pub enum Telegram<'a> {
    /// Process data.
    Pd {
        /// The address and port that its datagram came from.
        src: Place,
        /// The address and port that its datagram was sent to.
        dst: Place,
        /// Its header and payload, within the datagram.
        view: PdView<'a>,
    },
    /// Message data.
    Md {
        /// The address and port that its datagram came from.
        src: Place,
        /// The address and port that its datagram was sent to.
        dst: Place,
        /// Its header and payload, within the datagram.
        view: MdView<'a>,
    },
}
