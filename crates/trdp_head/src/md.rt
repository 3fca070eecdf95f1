//! Message data telegrams (IEC 61375-2-3:2015, Annex A): a header of 116 bytes, the payload, and
//! zeros up to a multiple of four.
//!
//! | Offset | Field | Type |
//! |---|---|---|
//! | 0 | as all headers begin, 24 bytes | |
//! | 24 | replyStatus | i32 |
//! | 28 | sessionId | 16 bytes |
//! | 44 | replyTimeout | u32, microseconds |
//! | 48 | sourceURI | 32 bytes, zeros after the text |
//! | 80 | destinationURI | 32 bytes, zeros after the text |
//! | 112 | headerFcs | u32, least significant byte first |

mod layout;
pub mod reading;
pub mod writing;

use trdp_base::{MD_PAYLOAD_MAX, SessionId, Topo, Uri};

/// The length in bytes of a message data header (IEC 61375-2-3).
pub const MD_HEAD: usize = 116;

/// The length in bytes of the longest message data telegram, a header and the longest payload
/// (IEC 61375-2-3).
pub const MD_TELEGRAM_MAX: usize = 65504;

const _: () = prove!(MD_TELEGRAM_MAX == MD_HEAD + MD_PAYLOAD_MAX);

/// The message types of message data (IEC 61375-2-3, Annex A); a telegram carries the two letters
/// in ASCII.
#[derive(Clone, Copy, Debug, PartialEq, Eq)]
pub enum MdKind {
    /// `Mn`, a message that expects no reply.
    Notify,
    /// `Mr`, a message that expects a reply.
    Request,
    /// `Mp`, a reply that expects no confirmation.
    Reply,
    /// `Mq`, a reply that expects a confirmation.
    Query,
    /// `Mc`, the confirmation of a reply.
    Confirm,
    /// `Me`, an error in place of a reply.
    Error,
}

/// The fields of a message data header that a node chooses (IEC 61375-2-3); the others follow from
/// the standard and the payload. Numbers are in host order.
#[derive(Clone, Copy, Debug, PartialEq, Eq)]
pub struct MdHead {
    /// sequenceCounter.
    pub counter: u32,
    /// msgType: what kind of message this is.
    pub kind: MdKind,
    /// comId: what data this is.
    pub com_id: u32,
    /// etbTopoCnt and opTrnTopoCnt: the counters for which the telegram is valid, each 0 for any.
    pub topo: Topo,
    /// replyStatus: of a reply, what its sender says of it; below 0 the standard's faults, 0 or
    /// more the application's.
    pub status: i32,
    /// sessionId: what ties a request, its replies and their confirmations.
    pub session: SessionId,
    /// replyTimeout: of a request or query, within how many microseconds an answer is expected, as
    /// the header has it: 0 stays 0.
    pub timeout: u32,
    /// sourceURI: the text that names the sender.
    pub source_uri: Uri,
    /// destinationURI: the text that names the receiver.
    pub dest_uri: Uri,
}

/// A message data telegram in the bytes that were received.
#[derive(Clone, Copy, Debug)]
pub struct MdView<'a> {
    /// The header's fields.
    pub head: MdHead,
    /// The dataset, without the zeros that follow it; at most 65388 bytes.
    pub payload: &'a [u8],
}
