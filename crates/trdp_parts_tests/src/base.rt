//! Texts and numbers from other sources, and the limits of what they mean.

use crate::same::same;
use std::alloc::AllocError;
use std::process::Abort;
use std::test::Fail;
use trdp_base::{
    Ip, MOMENT_MAX, Moment, Place, QUOTA_LIMIT, Quotas, SessionId, TextFault, Topo, URI_LIMIT, Uri,
    push_hex, push_ip, push_number, push_place, push_session, push_status, read_hex, read_ip,
    read_number, read_place, read_session, read_status, read_uri,
};

const ADDRESS: Ip = Ip(0x0a00_0002);

const PLACE: Place = Place {
    ip: ADDRESS,
    port: 17224,
};

const LAST_PLACE: Place = Place {
    ip: Ip(u32::MAX),
    port: u16::MAX,
};

static PLACES: [(&str, Place); 2] = [
    ("10.0.0.2:17224", PLACE),
    ("255.255.255.255:65535", LAST_PLACE),
];

static NO_PLACES: [&str; 7] = [
    "",
    "10.0.0.1",
    "10.0.0.1:",
    "10.0.0.1:01",
    "10.0.0.1:65536",
    "10.0.0.256:1",
    "010.0.0.1:1",
];

// rule: text.address: 10.0.0.2 is read; 256 and 010 are not
// rule: text.place: port 65535 is read; 65536, 01 and no port are not
#[test]
fn reads_addresses_and_places(rt: HostRuntime) {
    same(&rt, "an address", read_ip(b"10.0.0.2"), Ok(ADDRESS));
    for (text, place) in &PLACES {
        same(&rt, *text, read_place(text.as_bytes()), Ok(*place));
    }
    for text in &NO_PLACES {
        same(
            &rt,
            *text,
            read_place(text.as_bytes()),
            Err(TextFault::BadText),
        );
    }
}

/// Numbers, each the last that is read.
static NUMBERS: [(&str, u64); 3] = [
    ("0", 0),
    ("7", 7),
    ("18446744073709551615", 18_446_744_073_709_551_615),
];

/// No numbers of 0 to 7.
static NO_NUMBERS: [&str; 7] = ["", "00", "07", "+7", "-7", "8", "18446744073709551616"];

// rule: text.number: signs and leading zeros are not read
#[test]
fn reads_numbers(rt: HostRuntime) {
    for (text, number) in &NUMBERS {
        same(
            &rt,
            *text,
            read_number(text.as_bytes(), *number),
            Ok(*number),
        );
    }
    for text in &NO_NUMBERS {
        same(
            &rt,
            *text,
            read_number(text.as_bytes(), 7),
            Err(TextFault::BadText),
        );
    }
}

/// Texts, and the bytes that each is read as.
static HEX: [(&str, Result<&[u8], TextFault>); 7] = [
    ("0a0b", Ok(b"\x0a\x0b")),
    ("-", Ok(b"")),
    ("", Err(TextFault::BadText)),
    ("0A", Err(TextFault::BadText)),
    ("0a0", Err(TextFault::BadText)),
    ("0g", Err(TextFault::BadText)),
    ("--", Err(TextFault::BadText)),
];

/// The text is read as these bytes, or isn't.
fn reads_as(rt: &(impl Abort + AllocGlobal), text: &str, wanted: Result<&[u8], TextFault>) {
    match read_hex(rt.alloc(), text.as_bytes()) {
        Ok(bytes) => same(rt, text, Ok(bytes.as_slice()), wanted),
        Err(fault) => same(rt, text, Err(fault), wanted),
    }
}

// rule: text.hex: a dash is no bytes; capitals and half a pair are not read
#[test]
fn reads_bytes(rt: HostRuntime) {
    for (text, wanted) in &HEX {
        reads_as(&rt, *text, *wanted);
    }
}

/// How many of the bytes are 255.
fn ones(bytes: &[u8]) -> usize {
    let mut count = 0usize;
    for byte in bytes {
        if *byte == 255 {
            count = count.saturating_add(1);
        }
    }
    count
}

// More digits than a line of 140,000 bytes can hold after its first word.
#[test]
fn reads_the_bytes_of_a_longest_line(rt: HostRuntime) -> Result<(), Fail> {
    let digits = vec![in rt.alloc(); b'f'; 139_998]?;
    let bytes = read_hex(rt.alloc(), &digits)?;
    same(&rt, "bytes", (bytes.len(), ones(&bytes)), (69_999, 69_999));
    Ok(())
}

/// Appends one of each.
fn print_all(out: &mut Vec<u8>) -> Result<(), AllocError> {
    push_number(out, u64::MAX)?;
    push_hex(out, &[])?;
    push_ip(out, ADDRESS)?;
    push_hex(out, &[10, 11])?;
    push_place(out, LAST_PLACE)?;
    push_status(out, i32::MIN)?;
    push_session(out, SessionId(1))
}

/// The result.
const PRINTED: &[u8] = b"18446744073709551615-10.0.0.20a0b255.255.255.255:65535\
    -214748364800000000-0000-0000-0000-000000000001";

#[test]
fn prints(rt: HostRuntime) -> Result<(), Fail> {
    let mut out = Vec::new(rt.alloc());
    print_all(&mut out)?;
    same(&rt, "all that is printed", out.as_slice(), PRINTED);
    Ok(())
}

/// The moment of a number.
fn moment(number: u64) -> Option<u64> {
    Some(Moment::new(number)?.get())
}

// rule: time.range: 2^62 is a time, and 2^62 + 1 is none
#[test]
fn moments_have_a_last(rt: HostRuntime) {
    let ends = (
        moment(4_611_686_018_427_387_904),
        moment(4_611_686_018_427_387_905),
    );
    let wanted = (Some(4_611_686_018_427_387_904), None);
    same(&rt, "the last and the next", ends, wanted);
}

/// The first of these quotas and the last.
fn quotas(first: u16, last: u16) -> Option<(u16, u16)> {
    let quotas = Quotas::new([first, 0, 1, 2, 3, last])?;
    Some((quotas.get(0), quotas.get(5)))
}

// rule: slot.quota: 256 is a quota, and 257 is none
#[test]
fn quotas_have_a_limit(rt: HostRuntime) {
    let found = [quotas(256, 4), quotas(257, 0), quotas(0, 257)];
    same(&rt, "256 and 257", found, [Some((256, 4)), None, None]);
}

// rule: text.uri: 33 bytes and a zero byte are no URI
#[test]
fn uris_have_a_limit(rt: HostRuntime) {
    assert!(rt; Uri::new(&[0x61; 32]) == Some(Uri::from_field(&[0x61; 32])));
    assert!(rt; Uri::new(&[0x61; 33]).is_none() && Uri::new(b"a\0b").is_none());
}

// rule: telegram.uri: bytes after the first zero byte are ignored
#[test]
fn uris_end_at_a_zero(rt: HostRuntime) {
    let uri = Uri::from_field(b"ab\0c");
    same(&rt, "up to the zero", uri.bytes(), b"ab".as_slice());
    assert!(rt; uri.field().starts_with(b"ab\0\0"));
    assert!(rt; !uri.is_empty());
    assert!(rt; Uri::empty().is_empty());
}

static NO_URIS: [&str; 5] = ["", "6", "6A", "00", "610062"];

#[test]
fn reads_uris(rt: HostRuntime) {
    same(&rt, "6162", read_uri(b"6162"), Ok(Uri::from_field(b"ab")));
    same(&rt, "-", read_uri(b"-"), Ok(Uri::empty()));
    for text in &NO_URIS {
        same(
            &rt,
            *text,
            read_uri(text.as_bytes()),
            Err(TextFault::BadText),
        );
    }
}

static STATUSES: [(&str, i32); 4] = [
    ("-5", -5),
    ("0", 0),
    ("2147483647", i32::MAX),
    ("-2147483648", i32::MIN),
];

static NO_STATUSES: [&str; 7] = ["", "-", "-0", "01", "+1", "2147483648", "-2147483649"];

// rule: text.status: the least and the greatest status are read
#[test]
fn reads_statuses(rt: HostRuntime) {
    for (text, status) in &STATUSES {
        same(&rt, *text, read_status(text.as_bytes()), Ok(*status));
    }
    for text in &NO_STATUSES {
        same(
            &rt,
            *text,
            read_status(text.as_bytes()),
            Err(TextFault::BadText),
        );
    }
}

/// One identifier in its four forms (RFC 9562).
static SESSIONS: [&str; 4] = [
    "f81d4fae7dec11d0a76500a0c91e6bf6",
    "f81d4fae-7dec-11d0-a765-00a0c91e6bf6",
    "{F81D4FAE-7DEC-11D0-A765-00A0C91E6BF6}",
    "urn:uuid:f81d4fae-7dec-11d0-a765-00a0c91e6bf6",
];

static NO_SESSIONS: [&str; 3] = [
    "",
    "f81d4fae-7dec-11d0-a765-00a0c91e6bf",
    "(f81d4fae-7dec-11d0-a765-00a0c91e6bf6)",
];

// rule: text.session: four forms are read as one identifier
#[test]
fn reads_sessions(rt: HostRuntime) {
    for text in &SESSIONS {
        same(
            &rt,
            *text,
            read_session(text.as_bytes()),
            Ok(SessionId(0xf81d4fae_7dec_11d0_a765_00a0c91e6bf6)),
        );
    }
    for text in &NO_SESSIONS {
        same(
            &rt,
            *text,
            read_session(text.as_bytes()),
            Err(TextFault::BadText),
        );
    }
}
