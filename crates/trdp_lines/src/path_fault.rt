//! What fails at a path.

use thiserror::Error;

/// The system refused the next connection.
#[derive(Clone, Copy, Debug, PartialEq, Eq, Error)]
#[error("the next connection can't be accepted")]
pub struct AcceptFault;

/// A text found no room, and was dropped whole.
#[derive(Clone, Copy, Debug, PartialEq, Eq, Error)]
#[error("the text found no room")]
pub struct LostText;
