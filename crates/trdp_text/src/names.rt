//! The words that the program prints for faults, refusals, states, reasons and message types.

ghost use Rattle.std.specs.Prelude.{◌≡◌, ◌≤◌, length};
ghost use Rattle.trdp_text.specs.RecordText.{name_of_fault, name_of_refusal, name_of_state};
ghost use Rattle.trdp_text.specs.RecordText.{name_of_line_fault, name_of_reason};
ghost use Rattle.trdp_text.specs.RecordText.{letters_of_kind};

use crate::fault::LineFault;
use trdp_head::MdKind;
use trdp_model::{NodeFault, Refusal};
use trdp_pd::{Reason, ValueState};

/// The word for a node's fault.
pub fn fault_name(fault: NodeFault) -> &'static [u8]
    ensures word { result.now ≡ name_of_fault fault }
    ensures length { length result.now ≤ 11 }
{
    match fault {
        NodeFault::NoSlot => b"NoSlot",
        NodeFault::Past => b"Past",
        NodeFault::TooLate => b"TooLate",
        NodeFault::NoGroup => b"NoGroup",
        NodeFault::OutOfMemory => b"OutOfMemory",
        NodeFault::SlotsFull => b"SlotsFull",
    }
}

/// The word for a refusal.
pub fn refusal_name(refusal: Refusal) -> &'static [u8]
    ensures word { result.now ≡ name_of_refusal refusal }
    ensures length { length result.now ≤ 11 }
{
    match refusal {
        Refusal::NoHandle => b"NoHandle",
        Refusal::WrongKind => b"WrongKind",
        Refusal::State => b"State",
        Refusal::Cycle => b"Cycle",
        Refusal::Timeout => b"Timeout",
        Refusal::Expected => b"Expected",
        Refusal::Status => b"Status",
        Refusal::Range => b"Range",
        Refusal::NoDataset => b"NoDataset",
        Refusal::TooLong => b"TooLong",
        Refusal::Shape => b"Shape",
        Refusal::SessionOpen => b"SessionOpen",
        Refusal::Quota => b"Quota",
        Refusal::Exhausted => b"Exhausted",
        Refusal::Retries => b"Retries",
    }
}

/// The word for how good a subscription's value is.
pub(crate) fn state_name(state: ValueState) -> &'static [u8]
    ensures word { result.now ≡ name_of_state state }
    ensures length { length result.now ≤ 11 }
{
    match state {
        ValueState::Never => b"Never",
        ValueState::Valid => b"Valid",
        ValueState::Silent => b"Silent",
    }
}

/// The word for why a request or an answer is over.
pub fn reason_name(reason: Reason) -> &'static [u8]
    ensures word { result.now ≡ name_of_reason reason }
    ensures length { length result.now ≤ 13 }
{
    match reason {
        Reason::Done => b"Done",
        Reason::NoReply => b"NoReply",
        Reason::NotAllReplies => b"NotAllReplies",
        Reason::NotConfirmed => b"NotConfirmed",
        Reason::ReplyMissed => b"ReplyMissed",
        Reason::NoConfirm => b"NoConfirm",
    }
}

/// The two letters of a message type (IEC 61375-2-3).
pub(crate) fn kind_letters(kind: MdKind) -> &'static [u8]
    ensures letters { result.now ≡ letters_of_kind kind }
    ensures length { length result.now ≡ 2 }
{
    match kind {
        MdKind::Notify => b"Mn",
        MdKind::Request => b"Mr",
        MdKind::Reply => b"Mp",
        MdKind::Query => b"Mq",
        MdKind::Confirm => b"Mc",
        MdKind::Error => b"Me",
    }
}

/// The word for a line's fault.
pub fn line_fault_name(fault: LineFault) -> &'static str
    ensures { result.now ≡ name_of_line_fault fault }
{
    match fault {
        LineFault::TooLong => "TooLong",
        LineFault::Unknown => "Unknown",
        LineFault::Count => "Count",
        LineFault::BadWord => "BadWord",
        LineFault::OutOfMemory => "OutOfMemory",
    }
}
