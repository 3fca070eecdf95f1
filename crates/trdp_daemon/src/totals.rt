//! What a daemon counts.

/// What a daemon has counted since it was made (profile): at first nothing. Each number stops at
/// 2^64 - 1.
#[derive(Clone, Copy, Debug, Default, PartialEq, Eq)]
pub struct Totals {
    /// How many takes found something: a datagram, a line, or the end of an application.
    pub taken: u64,
    /// How many datagrams were offered to the wire, those included at which it failed.
    pub offered: u64,
    /// The number of offered datagrams at which the wire failed.
    pub lost: u64,
    /// The number of takes at which the wire failed.
    pub unread: u64,
    /// How many moments, events, lines and texts were lost because an allocation failed.
    pub memory: u64,
}
