//! Limits that several crates keep.

/// The most bytes of a line (profile): of a script's line without its end, and of a line at a
/// control connection with it. Rooms for lines have as many.
pub const LINE_MAX: usize = 140_000;

/// The most bytes of payload that a message data telegram carries (IEC 61375-2-3), and so the most
/// of a dataset's value.
pub const MD_PAYLOAD_MAX: usize = 65_388;
