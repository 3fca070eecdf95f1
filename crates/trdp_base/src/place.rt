//! The socket addresses that a telegram comes from and goes to.

/// An IPv4 address.
#[derive(Clone, Copy, Debug, PartialEq, Eq, PartialOrd, Ord)]
pub struct Ip(
    /// The four bytes as a number in host order: 10.0.0.1 is `0x0a000001`.
    pub u32,
);

/// A socket address: an IPv4 address with a UDP port.
#[derive(Clone, Copy, Debug, PartialEq, Eq)]
pub struct Place {
    /// The address.
    pub ip: Ip,
    /// The UDP port, in host order.
    pub port: u16,
}
