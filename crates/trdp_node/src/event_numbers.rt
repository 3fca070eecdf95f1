//! The numbers of events: `enum trdp_node_what` of the header.

/// Time has come to a moment.
pub const MOMENT: u32 = 1;

/// The topology counters.
pub const TOPOLOGY: u32 = 2;

/// A role in a redundancy group.
pub const ROLE: u32 = 3;

/// A datagram at the port of process data.
pub const PD: u32 = 4;

/// A datagram at the port of message data.
pub const MD: u32 = 5;

/// A slot is added.
pub const ADD_SLOT: u32 = 6;

/// The call `publish`.
pub const PUBLISH: u32 = 10;

/// The call `put`.
pub const PUT: u32 = 11;

/// The call `unpublish`.
pub const UNPUBLISH: u32 = 12;

/// The call `subscribe`.
pub const SUBSCRIBE: u32 = 13;

/// The call `get`.
pub const GET: u32 = 14;

/// The call `unsubscribe`.
pub const UNSUBSCRIBE: u32 = 15;

/// The call `openpull`.
pub const OPEN_PULL: u32 = 16;

/// The call `pull`.
pub const PULL: u32 = 17;

/// The call `closepull`.
pub const CLOSE_PULL: u32 = 18;

/// The call `listen`.
pub const LISTEN: u32 = 19;

/// The call `unlisten`.
pub const UNLISTEN: u32 = 20;

/// The call `notify`.
pub const NOTIFY: u32 = 21;

/// The call `request`.
pub const REQUEST: u32 = 22;

/// The call `reply`.
pub const REPLY: u32 = 23;

/// The call `query`.
pub const QUERY: u32 = 24;

/// The call `replyerror`.
pub const REPLY_ERROR: u32 = 25;

/// The call `confirm`.
pub const CONFIRM: u32 = 26;

/// The call `abort`.
pub const ABORT: u32 = 27;

/// The call `reset`.
pub const RESET: u32 = 28;
