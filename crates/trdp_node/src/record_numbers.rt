//! The numbers of records: `enum trdp_node_record_what` of the header.

/// A new object has a handle.
pub const HANDLE: u32 = 1;

/// A call took effect.
pub const DONE: u32 = 2;

/// What a subscription shows.
pub const VALUE: u32 = 3;

/// A call was refused.
pub const REFUSED: u32 = 4;

/// A slot was added.
pub const OPENED: u32 = 5;

/// A subscription is silent.
pub const SILENT: u32 = 6;

/// A subscription is alive again.
pub const ALIVE: u32 = 7;

/// A listener heard a notification.
pub const NOTIFIED: u32 = 8;

/// A listener heard a request.
pub const ASKED: u32 = 9;

/// A slot had no room for a replier.
pub const OVERRUN: u32 = 10;

/// A caller accepted an answer.
pub const REPLIED: u32 = 11;

/// A replier was confirmed.
pub const CONFIRMED: u32 = 12;

/// A caller or a replier is over.
pub const CLOSED: u32 = 13;

/// A telegram to send from the port of process data.
pub const SEND_PD: u32 = 14;

/// A telegram to send from the port of message data.
pub const SEND_MD: u32 = 15;
