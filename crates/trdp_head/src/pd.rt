//! Process data telegrams (IEC 61375-2-3:2015, Annex A): a header of 40 bytes, the payload, and
//! zeros up to a multiple of four.
//!
//! | Offset | Field | Type |
//! |---|---|---|
//! | 0 | as all headers begin, 24 bytes | |
//! | 24 | reserved | u32, 0 |
//! | 28 | replyComId | u32 |
//! | 32 | replyIpAddress | u32 |
//! | 36 | headerFcs | u32, least significant byte first |

mod layout;
pub mod reading;
pub mod writing;

use trdp_base::{Ip, Topo};

/// The length in bytes of a process data header (IEC 61375-2-3).
pub const PD_HEAD: usize = 40;

/// The most bytes of payload that a process data telegram carries (IEC 61375-2-3).
pub const PD_PAYLOAD_MAX: usize = 1432;

/// The length in bytes of the longest process data telegram, a header and the longest payload
/// (IEC 61375-2-3).
pub const PD_TELEGRAM_MAX: usize = 1472;

const _: () = prove!(PD_TELEGRAM_MAX == PD_HEAD + PD_PAYLOAD_MAX);

/// The message types of process data (IEC 61375-2-3, Annex A); a telegram carries the two letters
/// in ASCII.
#[derive(Clone, Copy, Debug, PartialEq, Eq)]
pub enum PdKind {
    /// `Pd`, data that a publisher sends in its cycle.
    Data,
    /// `Pp`, data as the answer to a pull request.
    PullReply,
    /// `Pr`, a pull request.
    PullRequest,
    /// `Pe`, an error.
    Error,
}

/// The fields of a process data header that a node chooses (IEC 61375-2-3); the others follow from
/// the standard and the payload. Numbers are in host order.
#[derive(Clone, Copy, Debug, PartialEq, Eq)]
pub struct PdHead {
    /// sequenceCounter: one more with each telegram of its sender, modulo 2^32.
    pub counter: u32,
    /// msgType: what kind of telegram this is.
    pub kind: PdKind,
    /// comId: what data this is.
    pub com_id: u32,
    /// etbTopoCnt and opTrnTopoCnt: the counters for which the telegram is valid, each 0 for any.
    pub topo: Topo,
    /// replyComId: of a pull request, the comId that it asks for, 0 for its own.
    pub reply_com_id: u32,
    /// replyIpAddress: of a pull request, where the reply is to be sent, 0 for its sender.
    pub reply_ip: Ip,
}

/// A process data telegram in the bytes that were received.
#[derive(Clone, Copy, Debug)]
pub struct PdView<'a> {
    /// The header's fields.
    pub head: PdHead,
    /// The dataset, without the zeros that follow it; at most 1432 bytes.
    pub payload: &'a [u8],
}
