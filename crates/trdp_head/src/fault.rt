//! What keeps bytes from being a telegram.

use thiserror::Error;

/// The first fault of bytes that are no telegram; the order of the variants is that of the tests
/// (profile).
#[derive(Clone, Copy, Debug, PartialEq, Eq, Error)]
pub enum HeadFault {
    /// There are fewer bytes than a header has: 40 for process data, 116 for message data.
    #[error("the bytes are fewer than a header has")]
    Short = 1,
    /// There are more bytes than the longest telegram has: 1472 for process data, 65504 for
    /// message data.
    #[error("the bytes are more than the longest telegram has")]
    TooLong = 2,
    /// The stored frame check is not that of the header.
    #[error("the frame check is not that of the header")]
    Fcs = 3,
    /// The high byte of the protocol version is not 1.
    #[error("the main protocol version is not 1")]
    Version = 4,
    /// The message type is not one of those that the reader knows.
    #[error("the message type is not one that is known here")]
    Kind = 5,
    /// The dataset would be longer than what follows the header.
    #[error("the dataset is longer than what follows the header")]
    Length = 6,
}
