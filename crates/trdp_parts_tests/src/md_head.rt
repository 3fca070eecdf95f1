//! Message data telegrams whose bytes come from the standard's layout, and their frame checks from
//! zlib.

ghost use Rattle.std.specs.Prelude.{◌≤◌};

use crate::head::{Changed, change_bit};
use crate::same::same;
use std::test::Fail;
use trdp_base::{SessionId, Topo, Uri};
use trdp_head::{
    HeadFault, MD_TELEGRAM_MAX, MdHead, MdKind, md_length, push_md, read_md, write_md,
};

/// `Mn` of comId 300 with the dataset `0d`.
const NOTIFY: [u8; 120] = [
    0, 0, 0, 0, 1, 0, 0x4d, 0x6e, 0, 0, 1, 0x2c, 0, 0, 0, 0, 0, 0, 0, 0, 0, 0, 0, 1, 0, 0, 0, 0, 0,
    0, 0, 0, 0, 0, 0, 0, 0, 0, 0, 0, 0, 0, 0, 0, 0, 0, 0, 0, 0, 0, 0, 0, 0, 0, 0, 0, 0, 0, 0, 0, 0,
    0, 0, 0, 0, 0, 0, 0, 0, 0, 0, 0, 0, 0, 0, 0, 0, 0, 0, 0, 0, 0, 0, 0, 0, 0, 0, 0, 0, 0, 0, 0, 0,
    0, 0, 0, 0, 0, 0, 0, 0, 0, 0, 0, 0, 0, 0, 0, 0, 0, 0, 0, 0x6d, 0x6f, 0x3c, 0x7c, 0x0d, 0, 0, 0,
];

/// Its header.
fn notify_head() -> MdHead {
    MdHead {
        counter: 0,
        kind: MdKind::Notify,
        com_id: 300,
        topo: Topo { etb: 0, op_trn: 0 },
        status: 0,
        session: SessionId(0),
        timeout: 0,
        source_uri: Uri::empty(),
        dest_uri: Uri::empty(),
    }
}

/// `Mq` with a number of its own in each field, and the dataset `0a0b0c`.
const QUERY: [u8; 120] = [
    1, 2, 3, 4, 1, 0, 0x4d, 0x71, 0x11, 0x12, 0x13, 0x14, 0x21, 0x22, 0x23, 0x24, 0x31, 0x32, 0x33,
    0x34, 0, 0, 0, 3, 0xff, 0xff, 0xff, 0xfb, 0x51, 0x52, 0x53, 0x54, 0x55, 0x56, 0x57, 0x58, 0x59,
    0x5a, 0x5b, 0x5c, 0x5d, 0x5e, 0x5f, 0x60, 0x61, 0x62, 0x63, 0x64, 0x61, 0x2e, 0x62, 0, 0, 0, 0,
    0, 0, 0, 0, 0, 0, 0, 0, 0, 0, 0, 0, 0, 0, 0, 0, 0, 0, 0, 0, 0, 0, 0, 0, 0, 0x65, 0x76, 0x65,
    0x72, 0x79, 0x6f, 0x6e, 0x65, 0x40, 0x61, 0x6c, 0x6c, 0, 0, 0, 0, 0, 0, 0, 0, 0, 0, 0, 0, 0, 0,
    0, 0, 0, 0, 0, 0, 0x1c, 0xeb, 0x35, 0x37, 0x0a, 0x0b, 0x0c, 0,
];

/// Its header.
fn query_head() -> MdHead {
    MdHead {
        counter: 0x0102_0304,
        kind: MdKind::Query,
        com_id: 0x1112_1314,
        topo: Topo {
            etb: 0x2122_2324,
            op_trn: 0x3132_3334,
        },
        status: -5,
        session: SessionId(0x5152_5354_5556_5758_595a_5b5c_5d5e_5f60),
        timeout: 0x6162_6364,
        source_uri: Uri::from_field(b"a.b"),
        dest_uri: Uri::from_field(b"everyone@all"),
    }
}

/// A telegram with two other bytes at an offset, and with another frame check.
fn with_change(telegram: &[u8; 120], offset: usize, bytes: [u8; 2], check: [u8; 4]) -> [u8; 120]
    requires { offset ≤ 110 }
{
    let mut telegram = *telegram;
    telegram[offset] = bytes[0];
    telegram[offset + 1] = bytes[1];
    telegram[112..116].copy_from_slice(&check);
    telegram
}

/// Whether the bytes are a telegram with this header and payload.
fn reads(bytes: &[u8], head: MdHead, payload: &[u8]) -> bool {
    match read_md(bytes) {
        Ok(view) => view.head == head && view.payload == payload,
        Err(_) => false,
    }
}

// rule: telegram.uri: bytes after the first zero byte are ignored
// rule: telegram.verbatim: status and timeout of a query are read as they are
#[test]
fn telegrams_are_read(rt: HostRuntime) {
    assert!(rt; reads(&QUERY, query_head(), &[0x0a, 0x0b, 0x0c]));
    // What follows the first zero byte of the source URI is ignored.
    let tail = with_change(&QUERY, 52, *b"zz", [0x9c, 0x42, 0x71, 0x19]);
    assert!(rt; reads(&tail, query_head(), &[0x0a, 0x0b, 0x0c]));
}

// rule: telegram.layout: all bytes of a query
#[test]
fn telegrams_are_written(rt: HostRuntime) {
    let mut room = [0xff; 120];
    assert!(rt; write_md(&query_head(), &[0x0a, 0x0b, 0x0c], &mut room) == 120);
    same(&rt, "Mq", room.as_slice(), &QUERY);
}

#[test]
fn telegrams_are_added_to_a_list(rt: HostRuntime) -> Result<(), Fail> {
    let mut list = Vec::with_capacity(rt.alloc(), 120)?;
    assert!(rt; push_md(&notify_head(), &[0x0d], &mut list) == 120);
    same(&rt, "Mn", list.as_slice(), &NOTIFY);
    Ok(())
}

/// The telegram of comId 300, changed.
static CHANGED: [Changed; 5] = [
    Changed {
        offset: 4,
        bytes: [2, 0],
        check: [0xe4, 0x28, 0x92, 0xed],
        read: Err(HeadFault::Version),
    },
    Changed {
        offset: 4,
        bytes: [1, 0xff],
        check: [0x1e, 0xa8, 0x58, 0x6e],
        read: Ok(1),
    },
    Changed {
        offset: 6,
        bytes: [0x50, 0x64],
        check: [0x17, 0x4f, 0xfb, 0x65],
        read: Err(HeadFault::Kind),
    },
    Changed {
        offset: 22,
        bytes: [0, 4],
        check: [0x84, 0xb2, 0x80, 0x53],
        read: Ok(4),
    },
    Changed {
        offset: 22,
        bytes: [0, 5],
        check: [0x0c, 0xdf, 0xbc, 0x37],
        read: Err(HeadFault::Length),
    },
];

/// The length of the payload that is read of the bytes.
fn payload_length(bytes: &[u8]) -> Result<usize, HeadFault> {
    match read_md(bytes) {
        Ok(view) => Ok(view.payload.len()),
        Err(fault) => Err(fault),
    }
}

#[test]
fn changed_telegrams_have_their_faults(rt: HostRuntime) {
    for row in &CHANGED {
        let offset = row.offset;
        assert!(rt; offset <= 110);
        let telegram = with_change(&NOTIFY, offset, row.bytes, row.check);
        same(&rt, offset, payload_length(&telegram), row.read);
    }
}

/// What is read of that many bytes of the telegram: the length of its payload.
fn cut_to(length: usize) -> Result<usize, HeadFault> {
    match length {
        0..=115 => Err(HeadFault::Short),
        116 => Err(HeadFault::Length),
        _ => Ok(1),
    }
}

#[test]
fn a_telegram_is_cut(rt: HostRuntime) {
    for length in 0..NOTIFY.len() + 1 {
        same(
            &rt,
            length,
            payload_length(&NOTIFY[..length]),
            cut_to(length),
        );
    }
}

// rule: telegram.fault: Fcs comes before Version, Kind and Length
#[test]
fn each_changed_bit_of_the_header_is_found(rt: HostRuntime) {
    for bit in 0..928 {
        let mut telegram = NOTIFY;
        change_bit(&mut telegram, bit);
        same(&rt, bit, payload_length(&telegram), Err(HeadFault::Fcs));
    }
}

// rule: telegram.fault: TooLong comes before Fcs
// rule: telegram.tail: 65,505 bytes are TooLong
#[test]
fn telegrams_have_at_most_65504_bytes(rt: HostRuntime) {
    let zeros = [0; MD_TELEGRAM_MAX + 1];
    let (longest, _) = zeros.split_at(MD_TELEGRAM_MAX);
    for (bytes, fault) in [
        (longest, HeadFault::Fcs),
        (zeros.as_slice(), HeadFault::TooLong),
    ] {
        same(&rt, bytes.len(), payload_length(bytes), Err(fault));
    }
}

// rule: telegram.padding: 1 byte makes 120, 65,388 make 65,504
#[test]
fn lengths_are_multiples_of_four(rt: HostRuntime) {
    for (payload, length) in [(0, 116), (1, 120), (65388, 65504)] {
        assert!(rt; payload <= 65388);
        same(&rt, payload, md_length(payload), length);
    }
}
