//! Addresses and places as text: four numbers joined by dots, and a port after a colon.

ghost use Rattle.std.specs.Prelude.{◌≡◌, ◌≢◌, ℕ, ◌+◌, ◌^◌, ◌<◌, ◌≤◌, ◌++◌, ◌∷◌, IfOk, IfErr, OnOk};
ghost use Rattle.std.specs.Prelude.{OnErr, IsOk, IfSome, IfNone, All, vec_len, vec_capacity};
ghost use Rattle.trdp_base.specs.AddressText.{text_of_ip, text_of_place, ip_length, place_length};
ghost use Rattle.trdp_base.specs.NumberText.{text_of_number};
ghost use Rattle.trdp_base.specs.declared.place.Ip.{Ip};
ghost use Rattle.trdp_base.specs.declared.place.Place.{Place};
ghost use Rattle.trdp_base.specs.declared.text.TextFault.TheVariants.{BadText};

use crate::number::{put_number, read_number};
use crate::place::{Ip, Place};
use crate::text::TextFault;
use std::alloc::AllocError;
use std::net::Ipv4Addr;

/// The length in bytes of the longest written address, that of 255.255.255.255.
pub const IP_LENGTH: usize = 15;

/// The length in bytes of the longest written place, that of 255.255.255.255:65535.
pub const PLACE_LENGTH: usize = 21;

/// Reads an IPv4 address: four numbers of 0 to 255 joined by dots, without leading zeros
/// (profile).
///
/// # Errors
/// [`TextFault::BadText`] at any other text.
pub fn read_ip(text: &[u8]) -> Result<Ip, TextFault>
    ensures value { IfOk result (λ ip. text.now ≡ text_of_ip ip) }
    ensures found { (ip : Ip) → ip.0 < 2 ^ 32 → text.now ≡ text_of_ip ip → result ≡ Ok ip }
    ensures fault { IfErr result (λ fault. fault ≡ BadText) }
{
    match Ipv4Addr::parse_ascii(text) {
        Ok(address) => Ok(Ip(address.to_bits())),
        Err(_) => Err(TextFault::BadText),
    }
}

/// Reads a place: an address, a colon and a port of 0 to 65535, without leading zeros (profile).
///
/// # Errors
/// [`TextFault::BadText`] at any other text.
pub fn read_place(text: &[u8]) -> Result<Place, TextFault>
    ensures value { IfOk result (λ place. text.now ≡ text_of_place place) }
    ensures found { (place : Place) → place.ip.0 < 2 ^ 32 → place.port < 2 ^ 16
        → text.now ≡ text_of_place place → result ≡ Ok place }
    ensures fault { IfErr result (λ fault. fault ≡ BadText) }
{
    let (address, port) = split_at_colon(text).ok_or(TextFault::BadText)?;
    let ip = read_ip(address)?;
    let port = read_port(port)?;
    Ok(Place { ip, port })
}

/// Reads a port of 0 to 65535.
fn read_port(text: &[u8]) -> Result<u16, TextFault>
    ensures value { IfOk result (λ port. text.now ≡ text_of_number port) }
    ensures found { (port : ℕ) → port < 2 ^ 16
        → text.now ≡ text_of_number port → result ≡ Ok port }
    ensures fault { IfErr result (λ fault. fault ≡ BadText) }
{
    let port = read_number(text, u64::from(u16::MAX))?;
    Ok(port as u16)
}

/// The parts of a text before and after its first colon.
fn split_at_colon(text: &[u8]) -> Option<(&[u8], &[u8])>
    ensures parts { IfSome result (λ parts. text.now ≡ parts.0.now ++ 58 ∷ parts.1.now) }
    ensures first { IfSome result (λ parts. All (λ byte. byte ≢ 58) parts.0.now) }
    ensures none { IfNone result (All (λ byte. byte ≢ 58) text.now) }
{
    let colon = text.iter().position(|byte| *byte == b':')?;
    let (before, behind) = text.split_at(colon);
    Some((before, &behind[1..]))
}

/// Appends the written form of an address (profile).
///
/// It needs no memory where there is room for [`IP_LENGTH`] more bytes.
///
/// # Errors
/// [`AllocError`] where there is no memory; the list's items stay as they were.
pub fn push_ip(out: &mut Vec<u8>, ip: Ip) -> Result<(), AllocError>
    ensures ok { OnOk result (out.new.items ≡ out.old.items ++ text_of_ip ip) }
    ensures err { OnErr result (out.new.items ≡ out.old.items) }
    ensures length { vec_len out.new ≤ vec_len out.old + ip_length }
    ensures succeeds { vec_len out.old + ip_length ≤ vec_capacity out.old → IsOk result }
    ensures capacity { vec_capacity out.old ≤ vec_capacity out.new }
{
    out.reserve(IP_LENGTH)?;
    put_ip(out, ip);
    Ok(())
}

/// Appends the written form of a place (profile).
///
/// It needs no memory where there is room for [`PLACE_LENGTH`] more bytes.
///
/// # Errors
/// [`AllocError`] where there is no memory; the list's items stay as they were.
pub fn push_place(out: &mut Vec<u8>, place: Place) -> Result<(), AllocError>
    ensures ok { OnOk result (out.new.items ≡ out.old.items ++ text_of_place place) }
    ensures err { OnErr result (out.new.items ≡ out.old.items) }
    ensures length { vec_len out.new ≤ vec_len out.old + place_length }
    ensures succeeds { vec_len out.old + place_length ≤ vec_capacity out.old → IsOk result }
    ensures capacity { vec_capacity out.old ≤ vec_capacity out.new }
{
    out.reserve(PLACE_LENGTH)?;
    put_ip(out, place.ip);
    out.push_reserved(b':');
    put_port(out, place.port);
    Ok(())
}

/// Appends the written form of an address to a list that has room for it.
fn put_ip(out: &mut Vec<u8>, ip: Ip)
    requires room { vec_len out.old + ip_length ≤ vec_capacity out.old }
    ensures items { out.new.items ≡ out.old.items ++ text_of_ip ip }
    ensures length { vec_len out.new ≤ vec_len out.old + ip_length }
    ensures capacity { vec_capacity out.old ≤ vec_capacity out.new }
{
    let [first, second, third, fourth] = ip.0.to_be_bytes();
    put_octet(out, first);
    out.push_reserved(b'.');
    put_octet(out, second);
    out.push_reserved(b'.');
    put_octet(out, third);
    out.push_reserved(b'.');
    put_octet(out, fourth);
}

/// Appends the written form of one number of an address to a list that has room for it.
fn put_octet(out: &mut Vec<u8>, octet: u8)
    requires room { vec_len out.old + 3 ≤ vec_capacity out.old }
    ensures items { out.new.items ≡ out.old.items ++ text_of_number octet }
    ensures length { vec_len out.new ≤ vec_len out.old + 3 }
    ensures capacity { vec_capacity out.old ≤ vec_capacity out.new }
{
    // A single digit needs no division.
    if octet < 10 {
        out.push_reserved(b'0' + octet);
    } else {
        put_number(out, u64::from(octet));
    }
}

/// Appends the written form of a port to a list that has room for it.
fn put_port(out: &mut Vec<u8>, port: u16)
    requires room { vec_len out.old + 5 ≤ vec_capacity out.old }
    ensures items { out.new.items ≡ out.old.items ++ text_of_number port }
    ensures length { vec_len out.new ≤ vec_len out.old + 5 }
    ensures capacity { vec_capacity out.old ≤ vec_capacity out.new }
{
    put_number(out, u64::from(port));
}
