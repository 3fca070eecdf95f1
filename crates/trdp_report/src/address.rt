//! Addresses, as they are printed.

use std::net::Ipv4Addr;
use trdp_base::Ip;

/// An address as it is printed.
pub(crate) fn shown(ip: Ip) -> Ipv4Addr {
    Ipv4Addr::from_bits(ip.0)
}
