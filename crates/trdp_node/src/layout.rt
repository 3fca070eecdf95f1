//! What the library takes for the layout of the header's structs and for its numbers, so that a
//! test in C can compare both.

use crate::event::EventNumbers;
use crate::event_numbers::{
    ABORT, ADD_SLOT, CLOSE_PULL, CONFIRM, GET, LISTEN, MD, MOMENT, NOTIFY, OPEN_PULL, PD, PUBLISH,
    PULL, PUT, QUERY, REPLY, REPLY_ERROR, REQUEST, RESET, ROLE, SUBSCRIBE, TOPOLOGY, UNLISTEN,
    UNPUBLISH, UNSUBSCRIBE,
};
use crate::numbers::{
    BAD_CONFIG, BAD_FLAG, BAD_POINTER, BAD_QUOTA, NO_CODE, NO_EVENT, NO_NODE, NO_RECORD, OK,
    OWN_BYTES, TEXT_LOST, fault_number, line_fault_number, message_number, reason_number,
    refusal_number, value_number,
};
use crate::record::RecordNumbers;
use crate::record_numbers::{
    ALIVE, ASKED, CLOSED, CONFIRMED, DONE, HANDLE, NOTIFIED, OPENED, OVERRUN, REFUSED, REPLIED,
    SEND_MD, SEND_PD, SILENT, VALUE,
};
use crate::results::{Done, FAULT_ROOM, Fault, NAME_ROOM, Name, State, Text};
use std::mem::size_of;
use trdp_engine::{MdKind, NodeFault, Reason, Refusal, ValueState};
use trdp_text::LineFault;

/// The sizes of the structs in bytes, and the numbers of the header's first enum.
const SIZES: [usize; 12] = [
    size_of::<EventNumbers>(),
    size_of::<RecordNumbers>(),
    size_of::<Done>(),
    size_of::<Text>(),
    size_of::<State>(),
    size_of::<Fault>(),
    size_of::<Name>(),
    16,
    32,
    6,
    FAULT_ROOM,
    NAME_ROOM,
];

/// The numbers of events, and of records.
const WHATS: [u32; 40] = [
    MOMENT,
    TOPOLOGY,
    ROLE,
    PD,
    MD,
    ADD_SLOT,
    PUBLISH,
    PUT,
    UNPUBLISH,
    SUBSCRIBE,
    GET,
    UNSUBSCRIBE,
    OPEN_PULL,
    PULL,
    CLOSE_PULL,
    LISTEN,
    UNLISTEN,
    NOTIFY,
    REQUEST,
    REPLY,
    QUERY,
    REPLY_ERROR,
    CONFIRM,
    ABORT,
    RESET,
    HANDLE,
    DONE,
    VALUE,
    REFUSED,
    OPENED,
    SILENT,
    ALIVE,
    NOTIFIED,
    ASKED,
    OVERRUN,
    REPLIED,
    CONFIRMED,
    CLOSED,
    SEND_PD,
    SEND_MD,
];

/// The number of that index: the sizes, and then the numbers of the enums, in the header's order;
/// 2^64 - 1 past the last.
pub fn number_at(index: usize) -> u64 {
    if let Some(size) = SIZES.get(index) {
        return *size as u64;
    }
    let statuses = statuses();
    let numbers = codes();
    let rest = index - SIZES.len();
    let found = if rest < statuses.len() {
        statuses.get(rest)
    } else if rest < statuses.len() + WHATS.len() {
        WHATS.get(rest - statuses.len())
    } else {
        numbers.get(rest - statuses.len() - WHATS.len())
    };
    match found {
        Some(number) => u64::from(*number),
        None => u64::MAX,
    }
}

/// The numbers of statuses.
fn statuses() -> [u32; 21] {
    [
        OK,
        fault_number(NodeFault::NoSlot),
        fault_number(NodeFault::Past),
        fault_number(NodeFault::TooLate),
        fault_number(NodeFault::NoGroup),
        fault_number(NodeFault::OutOfMemory),
        fault_number(NodeFault::SlotsFull),
        line_fault_number(LineFault::TooLong),
        line_fault_number(LineFault::Unknown),
        line_fault_number(LineFault::Count),
        line_fault_number(LineFault::BadWord),
        TEXT_LOST,
        NO_EVENT,
        BAD_FLAG,
        BAD_QUOTA,
        NO_RECORD,
        NO_CODE,
        BAD_CONFIG,
        NO_NODE,
        BAD_POINTER,
        OWN_BYTES,
    ]
}

/// The numbers of values, refusals, reasons and message types.
fn codes() -> [u32; 30] {
    [
        value_number(ValueState::Never),
        value_number(ValueState::Valid),
        value_number(ValueState::Silent),
        refusal_number(Refusal::NoHandle),
        refusal_number(Refusal::WrongKind),
        refusal_number(Refusal::State),
        refusal_number(Refusal::Cycle),
        refusal_number(Refusal::Timeout),
        refusal_number(Refusal::Expected),
        refusal_number(Refusal::Status),
        refusal_number(Refusal::Range),
        refusal_number(Refusal::NoDataset),
        refusal_number(Refusal::TooLong),
        refusal_number(Refusal::Shape),
        refusal_number(Refusal::SessionOpen),
        refusal_number(Refusal::Quota),
        refusal_number(Refusal::Exhausted),
        refusal_number(Refusal::Retries),
        reason_number(Reason::Done),
        reason_number(Reason::NoReply),
        reason_number(Reason::NotAllReplies),
        reason_number(Reason::NotConfirmed),
        reason_number(Reason::ReplyMissed),
        reason_number(Reason::NoConfirm),
        message_number(MdKind::Notify),
        message_number(MdKind::Request),
        message_number(MdKind::Reply),
        message_number(MdKind::Query),
        message_number(MdKind::Confirm),
        message_number(MdKind::Error),
    ]
}

/// The field of that index, in the order of the struct, each member of an array by itself; 2^64 - 1
/// past the last.
pub fn field_at(event: &EventNumbers, field: usize) -> u64 {
    match field {
        0 => event.moment,
        1 => u64::from(event.what),
        2 => u64::from(event.handle),
        3 => u64::from(event.com_id),
        4 => u64::from(event.dataset),
        5 => u64::from(event.time),
        6 => u64::from(event.etb),
        7 => u64::from(event.op_trn),
        8 => u64::from(event.from_address),
        9 => u64::from(event.to_address),
        10 => u64::from(event.low),
        11 => u64::from(event.high),
        12 => u64::from(event.destination),
        13 => u64::from(event.reply_com_id),
        14 => u64::from(event.reply_address),
        15 => u64::from(event.status.cast_unsigned()),
        16 => u64::from(event.slot),
        17 => u64::from(event.from_port),
        18 => u64::from(event.to_port),
        19..=24 => u64::from(event.quotas[field - 19]),
        25 => u64::from(event.group),
        26 => u64::from(event.leader),
        27 => u64::from(event.keep),
        28 => u64::from(event.any),
        29 => u64::from(event.expected),
        30 => u64::from(event.retries),
        31..=46 => u64::from(event.session[field - 31]),
        47..=78 => u64::from(event.source_uri[field - 47]),
        79..=110 => u64::from(event.destination_uri[field - 79]),
        _ => u64::MAX,
    }
}

/// Writes 1, 2, 3 .. into the fields of each struct, in their order, and of an array into each of
/// its members.
pub fn number_fields(
    record: &mut RecordNumbers,
    done: &mut Done,
    text: &mut Text,
    state: &mut State,
    fault: &mut Fault,
    name: &mut Name,
) {
    number_record(record);
    done.records = 1;
    done.status = 2;
    text.len = 2;
    text.records = 3;
    text.status = 4;
    state.now = 1;
    state.next_due = 2;
    state.slots = 3;
    fault.number = 1;
    count_from(&mut fault.text, 2);
    count_from(&mut name.text, 1);
}

/// Numbers the fields of a record.
fn number_record(record: &mut RecordNumbers) {
    record.len = 2;
    record.what = 3;
    record.handle = 4;
    record.replier = 5;
    record.code = 6;
    record.counter = 7;
    record.com_id = 8;
    record.address = 9;
    record.status = 10;
    record.slot = 11;
    record.port = 12;
    count_from(&mut record.session, 13);
    count_from(&mut record.source_uri, 29);
    count_from(&mut record.destination_uri, 61);
}

/// Writes that number, the next one and so on.
fn count_from(room: &mut [u8], first: u8) {
    let mut number = first;
    for byte in room.iter_mut() {
        *byte = number;
        number = number.wrapping_add(1);
    }
}
