//! What notifications and callers are made from.

use trdp_base::{Place, SessionId, Topo, Uri};

/// What a notification is about, and its sender and receiver.
#[derive(Clone, Copy, Debug, PartialEq, Eq)]
pub struct NotifyTerms {
    /// The comId of IEC 61375-2-3 that the telegram carries.
    pub com_id: u32,
    /// The topology counters that the telegram carries.
    pub topo: Topo,
    /// Where the telegram goes.
    pub to: Place,
    /// The source URI that the telegram carries: who sends it.
    pub source_uri: Uri,
    /// The destination URI that the telegram carries: whom it is for.
    pub dest_uri: Uri,
}

/// What a caller asks for, where, and for how long it waits.
#[derive(Clone, Copy, Debug, PartialEq, Eq)]
pub struct CallerTerms {
    /// The comId of IEC 61375-2-3 that the request and its confirmations carry.
    pub com_id: u32,
    /// The session of the request, its answers and its confirmations.
    pub session: SessionId,
    /// From how many places it expects answers, 1 to 8; 0 for any number (profile).
    pub expected: u8,
    /// Microseconds that it waits for answers, 1 or more; the request carries them.
    pub timeout: u32,
    /// How often the request is sent again at most while no answer came, 0 to 2 (profile).
    pub retries: u8,
    /// The topology counters that the request and its confirmations carry.
    pub topo: Topo,
    /// Where the request goes.
    pub to: Place,
    /// The source URI that the request and its confirmations carry: who sends them.
    pub source_uri: Uri,
    /// The destination URI that the request and its confirmations carry: whom they are for.
    pub dest_uri: Uri,
}
