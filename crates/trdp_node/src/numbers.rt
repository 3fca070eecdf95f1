//! The numbers of the C header's enums.

ghost use Rattle.std.specs.Prelude.{◌≡◌, IfSome, Some};
ghost use Rattle.trdp_node.specs.Codes.{message_code, reason_code, refusal_code, value_code};
ghost use Rattle.trdp_node.specs.Codes.{status_of_fault, status_of_line_fault};

use trdp_engine::{MdKind, NodeFault, Reason, Refusal, ValueState};
use trdp_text::LineFault;

/// The function did what it says.
pub const OK: u32 = 0;

/// There is no memory for the event or for the line; nothing has changed.
pub const OUT_OF_MEMORY: u32 = 5;

/// The event was processed, and there is no memory for the text of its records.
pub const TEXT_LOST: u32 = 20;

/// The number of the event is none.
pub const NO_EVENT: u32 = 21;

/// A flag is neither 0 nor 1.
pub const BAD_FLAG: u32 = 22;

/// A quota is above its limit.
pub const BAD_QUOTA: u32 = 23;

/// There is no record of that index: what the header answers where `what` is 0.
pub const NO_RECORD: u32 = 24;

/// Nothing has that number.
pub const NO_CODE: u32 = 25;

/// The configuration has a fault: what the header answers where its number isn't 0.
pub const BAD_CONFIG: u32 = 26;

/// The node isn't open: what the header finds by itself.
pub const NO_NODE: u32 = 31;

/// A pointer is null: what the header finds by itself.
pub const BAD_POINTER: u32 = 32;

/// The bytes are the node's own: what the header finds by itself.
pub const OWN_BYTES: u32 = 33;

/// The status of an event that the node rejects for this fault.
pub fn fault_number(fault: NodeFault) -> u32
    ensures { result ≡ status_of_fault fault }
{
    match fault {
        NodeFault::NoSlot => 1,
        NodeFault::Past => 2,
        NodeFault::TooLate => 3,
        NodeFault::NoGroup => 4,
        NodeFault::OutOfMemory => OUT_OF_MEMORY,
        NodeFault::SlotsFull => 6,
    }
}

/// The node's fault of that number; None where it is none.
pub fn fault_of(number: u32) -> Option<NodeFault>
    ensures some { IfSome result (λ it. number ≡ status_of_fault it) }
    ensures found { (it : NodeFault) → number ≡ status_of_fault it → result ≡ Some it }
{
    match number {
        1 => Some(NodeFault::NoSlot),
        2 => Some(NodeFault::Past),
        3 => Some(NodeFault::TooLate),
        4 => Some(NodeFault::NoGroup),
        5 => Some(NodeFault::OutOfMemory),
        6 => Some(NodeFault::SlotsFull),
        _ => None,
    }
}

/// The status of a line that has this fault.
pub fn line_fault_number(fault: LineFault) -> u32
    ensures { result ≡ status_of_line_fault fault }
{
    match fault {
        LineFault::TooLong => 11,
        LineFault::Unknown => 12,
        LineFault::Count => 13,
        LineFault::BadWord => 14,
        LineFault::OutOfMemory => OUT_OF_MEMORY,
    }
}

/// The number of a refusal.
pub fn refusal_number(refusal: Refusal) -> u32
    ensures { result ≡ refusal_code refusal }
{
    match refusal {
        Refusal::NoHandle => 1,
        Refusal::WrongKind => 2,
        Refusal::State => 3,
        Refusal::Cycle => 4,
        Refusal::Timeout => 5,
        Refusal::Expected => 6,
        Refusal::Status => 7,
        Refusal::Range => 8,
        Refusal::NoDataset => 9,
        Refusal::TooLong => 10,
        Refusal::Shape => 11,
        Refusal::SessionOpen => 12,
        Refusal::Quota => 13,
        Refusal::Exhausted => 14,
        Refusal::Retries => 15,
    }
}

/// The refusal of that number; None where it is none.
pub fn refusal_of(number: u32) -> Option<Refusal>
    ensures some { IfSome result (λ it. number ≡ refusal_code it) }
    ensures found { (it : Refusal) → number ≡ refusal_code it → result ≡ Some it }
{
    match number {
        1 => Some(Refusal::NoHandle),
        2 => Some(Refusal::WrongKind),
        3 => Some(Refusal::State),
        4 => Some(Refusal::Cycle),
        5 => Some(Refusal::Timeout),
        6 => Some(Refusal::Expected),
        7 => Some(Refusal::Status),
        8 => Some(Refusal::Range),
        9 => Some(Refusal::NoDataset),
        10 => Some(Refusal::TooLong),
        11 => Some(Refusal::Shape),
        12 => Some(Refusal::SessionOpen),
        13 => Some(Refusal::Quota),
        14 => Some(Refusal::Exhausted),
        15 => Some(Refusal::Retries),
        _ => None,
    }
}

/// The number of a reason.
pub fn reason_number(reason: Reason) -> u32
    ensures { result ≡ reason_code reason }
{
    match reason {
        Reason::Done => 0,
        Reason::NoReply => 1,
        Reason::NotAllReplies => 2,
        Reason::NotConfirmed => 3,
        Reason::ReplyMissed => 4,
        Reason::NoConfirm => 5,
    }
}

/// The reason of that number; None where it is none.
pub fn reason_of(number: u32) -> Option<Reason>
    ensures some { IfSome result (λ it. number ≡ reason_code it) }
    ensures found { (it : Reason) → number ≡ reason_code it → result ≡ Some it }
{
    match number {
        0 => Some(Reason::Done),
        1 => Some(Reason::NoReply),
        2 => Some(Reason::NotAllReplies),
        3 => Some(Reason::NotConfirmed),
        4 => Some(Reason::ReplyMissed),
        5 => Some(Reason::NoConfirm),
        _ => None,
    }
}

/// The number of how good a value is.
pub fn value_number(state: ValueState) -> u32
    ensures { result ≡ value_code state }
{
    match state {
        ValueState::Never => 0,
        ValueState::Valid => 1,
        ValueState::Silent => 2,
    }
}

/// The number of a message type.
pub fn message_number(kind: MdKind) -> u32
    ensures { result ≡ message_code kind }
{
    match kind {
        MdKind::Notify => 0,
        MdKind::Request => 1,
        MdKind::Reply => 2,
        MdKind::Query => 3,
        MdKind::Confirm => 4,
        MdKind::Error => 5,
    }
}
