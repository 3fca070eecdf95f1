//! Which ports of a configuration have sockets.

/// Which ports of a configuration have sockets.
#[derive(Clone, Copy, Debug, PartialEq, Eq)]
pub enum BoundPorts {
    /// All ports that it names.
    All,
    /// The ports of process data and message data. Lines don't come over UDP then.
    Network,
}
