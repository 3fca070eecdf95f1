//! Telegrams whose bytes come from the standard's layout, and their frame checks from zlib.

ghost use Rattle.std.specs.Prelude.{◌≤◌};

use crate::same::same;
use std::test::Fail;
use trdp_base::{Ip, Topo};
use trdp_head::{
    HeadFault, PD_PAYLOAD_MAX, PD_TELEGRAM_MAX, PdHead, PdKind, pd_length, push_pd, read_pd,
    write_pd,
};

/// `Pd` of comId 100 with the dataset `0a0b`.
const DATA: [u8; 44] = [
    0, 0, 0, 0, 1, 0, 0x50, 0x64, 0, 0, 0, 0x64, 0, 0, 0, 0, 0, 0, 0, 0, 0, 0, 0, 2, 0, 0, 0, 0, 0,
    0, 0, 0, 0, 0, 0, 0, 0xec, 0x17, 0x9c, 0x94, 0x0a, 0x0b, 0, 0,
];

/// Its header.
const DATA_HEAD: PdHead = PdHead {
    counter: 0,
    kind: PdKind::Data,
    com_id: 100,
    topo: Topo { etb: 0, op_trn: 0 },
    reply_com_id: 0,
    reply_ip: Ip(0),
};

/// `Pr` with a number of its own in each field, and the dataset `0a0b0c`.
const REQUEST: [u8; 44] = [
    1, 2, 3, 4, 1, 0, 0x50, 0x72, 0x11, 0x12, 0x13, 0x14, 0x21, 0x22, 0x23, 0x24, 0x31, 0x32, 0x33,
    0x34, 0, 0, 0, 3, 0, 0, 0, 0, 0x41, 0x42, 0x43, 0x44, 10, 0, 0, 7, 0x10, 0x1a, 0x60, 0xe1,
    0x0a, 0x0b, 0x0c, 0,
];

const REQUEST_HEAD: PdHead = PdHead {
    counter: 0x0102_0304,
    kind: PdKind::PullRequest,
    com_id: 0x1112_1314,
    topo: Topo {
        etb: 0x2122_2324,
        op_trn: 0x3132_3334,
    },
    reply_com_id: 0x4142_4344,
    reply_ip: Ip(0x0a00_0007),
};

/// Whether the bytes are a telegram with this header and payload.
fn reads(bytes: &[u8], head: PdHead, payload: &[u8]) -> bool {
    match read_pd(bytes) {
        Ok(view) => view.head == head && view.payload == payload,
        Err(_) => false,
    }
}

#[test]
fn telegrams_are_read(rt: HostRuntime) {
    assert!(rt; reads(&DATA, DATA_HEAD, b"\x0a\x0b"));
    assert!(rt; reads(&REQUEST, REQUEST_HEAD, b"\x0a\x0b\x0c"));
}

// rule: telegram.layout: all bytes of a Pd and a Pr
// rule: telegram.written: version 0x0100, and 0 in the reserved field
#[test]
fn telegrams_are_written(rt: HostRuntime) {
    let mut room = [0xff; 44];
    same(
        &rt,
        "Pd",
        write_pd(&DATA_HEAD, &[0x0a, 0x0b], &mut room),
        44,
    );
    same(&rt, "Pd", room.as_slice(), &DATA);
    same(
        &rt,
        "Pr",
        write_pd(&REQUEST_HEAD, &[0x0a, 0x0b, 0x0c], &mut room),
        44,
    );
    same(&rt, "Pr", room.as_slice(), &REQUEST);
}

#[test]
fn a_longest_telegram_is_written_and_read(rt: HostRuntime) {
    let payload = [7; PD_PAYLOAD_MAX];
    let mut room = [0xff; PD_TELEGRAM_MAX];
    assert!(rt; write_pd(&DATA_HEAD, &payload, &mut room) == 1472);
    assert!(rt; reads(&room, DATA_HEAD, &payload));
}

#[test]
fn telegrams_are_added_to_a_list(rt: HostRuntime) -> Result<(), Fail> {
    let mut list = Vec::with_capacity(rt.alloc(), 88)?;
    same(&rt, "Pd", push_pd(&DATA_HEAD, &[0x0a, 0x0b], &mut list), 44);
    same(
        &rt,
        "Pr",
        push_pd(&REQUEST_HEAD, &[0x0a, 0x0b, 0x0c], &mut list),
        44,
    );
    let (first, second) = list.split_at(44);
    same(&rt, "Pd", first, DATA.as_slice());
    same(&rt, "Pr", second, REQUEST.as_slice());
    Ok(())
}

/// The length of the payload that is read of the bytes.
fn payload_length(bytes: &[u8]) -> Result<usize, HeadFault> {
    match read_pd(bytes) {
        Ok(view) => Ok(view.payload.len()),
        Err(fault) => Err(fault),
    }
}

/// A telegram with two other bytes at an offset, its frame check, and what is read of it: the
/// length of its payload.
pub(crate) struct Changed {
    pub offset: usize,
    pub bytes: [u8; 2],
    pub check: [u8; 4],
    pub read: Result<usize, HeadFault>,
}

/// The telegram of comId 100, changed.
static CHANGED: [Changed; 6] = [
    // The frame check with its highest byte first.
    Changed {
        offset: 6,
        bytes: [0x50, 0x64],
        check: [0x94, 0x9c, 0x17, 0xec],
        read: Err(HeadFault::Fcs),
    },
    Changed {
        offset: 4,
        bytes: [2, 0],
        check: [0x53, 0x1f, 0x83, 0x5d],
        read: Err(HeadFault::Version),
    },
    Changed {
        offset: 4,
        bytes: [1, 0xff],
        check: [0x64, 0x13, 0xce, 0x33],
        read: Ok(2),
    },
    Changed {
        offset: 6,
        bytes: [0x4d, 0x6e],
        check: [0x2d, 0x2d, 0x36, 0x79],
        read: Err(HeadFault::Kind),
    },
    Changed {
        offset: 22,
        bytes: [0, 4],
        check: [0x31, 0xc8, 0x79, 0x34],
        read: Ok(4),
    },
    Changed {
        offset: 22,
        bytes: [0, 5],
        check: [0xb4, 0x11, 0xef, 0xe9],
        read: Err(HeadFault::Length),
    },
];

/// The telegram of comId 100 with other bytes at an offset, and with another frame check.
fn data_with(offset: usize, bytes: [u8; 2], check: [u8; 4]) -> [u8; 44]
    requires { offset ≤ 38 }
{
    let mut telegram = DATA;
    telegram[offset] = bytes[0];
    telegram[offset + 1] = bytes[1];
    telegram[36..40].copy_from_slice(&check);
    telegram
}

// rule: telegram.version: version 2 is a fault, 0x01ff is none
// rule: telegram.check: a frame check with its highest byte first is a fault
#[test]
fn changed_telegrams_have_their_faults(rt: HostRuntime) {
    for row in &CHANGED {
        let offset = row.offset;
        assert!(rt; offset <= 38);
        let telegram = data_with(offset, row.bytes, row.check);
        same(&rt, offset, payload_length(&telegram), row.read);
    }
}

/// What is read of that many bytes of the telegram: the length of its payload.
fn cut_to(length: usize) -> Result<usize, HeadFault> {
    match length {
        0..=39 => Err(HeadFault::Short),
        40 | 41 => Err(HeadFault::Length),
        _ => Ok(2),
    }
}

// rule: telegram.length: without the last byte of its dataset it is a fault
// rule: telegram.fault: Short comes first
#[test]
fn a_telegram_is_cut(rt: HostRuntime) {
    for length in 0..DATA.len() + 1 {
        let (front, _) = DATA.split_at(length);
        same(&rt, length, payload_length(front), cut_to(length));
    }
}

/// Changes one bit of the bytes, counted from the first byte's lowest.
pub(crate) fn change_bit(bytes: &mut [u8], bit: usize) {
    if let Some(byte) = bytes.get_mut(bit / 8) {
        *byte ^= 1 << (bit % 8);
    }
}

// rule: telegram.fault: Fcs comes before Version, Kind and Length
#[test]
fn each_changed_bit_of_the_header_is_found(rt: HostRuntime) {
    for bit in 0..320 {
        let mut telegram = DATA;
        change_bit(&mut telegram, bit);
        same(&rt, bit, payload_length(&telegram), Err(HeadFault::Fcs));
    }
}

// rule: telegram.fault: TooLong comes before Fcs
// rule: telegram.tail: 1473 bytes are TooLong
#[test]
fn telegrams_have_at_most_1472_bytes(rt: HostRuntime) {
    let zeros = [0; PD_TELEGRAM_MAX + 1];
    let (longest, _) = zeros.split_at(PD_TELEGRAM_MAX);
    for (bytes, fault) in [
        (longest, HeadFault::Fcs),
        (zeros.as_slice(), HeadFault::TooLong),
    ] {
        same(&rt, bytes.len(), payload_length(bytes), Err(fault));
    }
}

// rule: telegram.padding: 1 byte makes 44, 1432 make 1472
#[test]
fn lengths_are_multiples_of_four(rt: HostRuntime) {
    for (payload, length) in [(0, 40), (1, 44), (4, 44), (1432, 1472)] {
        assert!(rt; payload <= 1432);
        same(&rt, payload, pd_length(payload), length);
    }
}
