//! Frame checks that were published, or that zlib computes.

ghost use Rattle.std.specs.Prelude.{◌≤◌};

use crate::plain;
use crate::same::same;
use trdp_fcs::{Running, frame_check};

// rule: telegram.crc: three texts have the published CRC-32
#[test]
fn texts_have_the_published_checks(rt: HostRuntime) {
    for (text, check) in [("", 0), ("a", 0xe8b7_be43), ("123456789", 0xcbf4_3926)] {
        same(&rt, text, frame_check(text.as_bytes()), check);
    }
}

#[test]
fn pieces_have_the_check_of_the_whole(rt: HostRuntime) {
    let mut running = Running::start();
    running.feed(b"1234");
    running.feed(b"");
    running.feed(b"56789");
    same(&rt, "three pieces", running.finish(), 0xcbf4_3926);
}

// The 36 bytes of a process data header with comId 100.
#[test]
fn a_header_has_its_check(rt: HostRuntime) {
    let header = [
        0, 0, 0, 0, 1, 0, 0x50, 0x64, 0, 0, 0, 0x64, 0, 0, 0, 0, 0, 0, 0, 0, 0, 0, 0, 2, 0, 0, 0,
        0, 0, 0, 0, 0, 0, 0, 0, 0,
    ];
    same(&rt, "comId 100", frame_check(&header), 0x949c_17ec);
}

// Each number of eights, of fours and of single bytes up to 19 bytes.
#[test]
fn tables_agree_with_single_bits(rt: HostRuntime) {
    let text = b"0123456789 ABCDEFGH";
    for length in 0..20usize {
        let (bytes, _) = text.split_at(length);
        same(&rt, length, frame_check(bytes), plain::frame_check(bytes));
    }
}

/// The check of that many bytes `i * 7 + 3` modulo 256.
fn check_of_pattern(length: usize) -> u32
    requires { length ≤ 1472 }
{
    let mut bytes = [0u8; 1472];
    let mut next = 3u8;
    for byte in bytes.iter_mut() {
        *byte = next;
        next = next.wrapping_add(7);
    }
    let (front, _) = bytes.split_at(length);
    frame_check(front)
}

// The values are those of zlib.
#[test]
fn patterns_have_the_checks_of_zlib(rt: HostRuntime) {
    for (length, check) in [
        (0, 0),
        (1, 0x4b0b_be37),
        (35, 0x4b77_0677),
        (36, 0xaf4e_063a),
        (40, 0xe730_b7ea),
        (255, 0x8af1_eb92),
        (1432, 0xb917_10b3),
        (1472, 0xc3ee_5c27),
    ] {
        assert!(rt; length <= 1472);
        same(&rt, length, check_of_pattern(length), check);
    }
}
