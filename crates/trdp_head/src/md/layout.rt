//! Offsets of the fields of a message data header after the first ones, in bytes from its start.

/// replyStatus, 4 bytes.
pub const STATUS: usize = 24;

/// sessionId, 16 bytes.
pub const SESSION: usize = 28;

/// replyTimeout, 4 bytes.
pub const TIMEOUT: usize = 44;

/// sourceURI, 32 bytes.
pub const SOURCE_URI: usize = 48;

/// destinationURI, 32 bytes.
pub const DEST_URI: usize = 80;

/// headerFcs, 4 bytes: the frame check of all bytes before it.
pub const FCS: usize = 112;
