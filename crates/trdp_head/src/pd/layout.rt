//! Offsets of the fields of a process data header after the first ones, in bytes from its start.

/// The reserved field, 4 bytes.
pub const RESERVED: usize = 24;

/// replyComId, 4 bytes.
pub const REPLY_COM_ID: usize = 28;

/// replyIpAddress, 4 bytes.
pub const REPLY_IP: usize = 32;

/// headerFcs, 4 bytes: the frame check of all bytes before it.
pub const FCS: usize = 36;
