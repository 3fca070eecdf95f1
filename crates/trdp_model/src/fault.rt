//! Why an event is rejected, and why a call is refused.

ghost use Rattle.std.specs.Prelude.{◌≡◌, ◌≢◌, Err, true, false};

use crate::look::LookFault;
use std::alloc::AllocError;
use thiserror::Error;

/// Why an event is rejected: the first of these that applies (profile). Node and outbox stay as
/// they were.
#[derive(Clone, Copy, Debug, PartialEq, Eq, Error)]
pub enum NodeFault {
    /// The node has no slot of that number.
    #[error("the node has no slot of that number")]
    NoSlot = 1,
    /// The moment lies before the node's latest one.
    #[error("the moment lies before the node's latest one")]
    Past = 2,
    /// The moment lies above 2^62 microseconds.
    #[error("the moment lies above 2^62 microseconds")]
    TooLate = 3,
    /// There is no redundancy group 0.
    #[error("there is no redundancy group 0")]
    NoGroup = 4,
    /// There is no memory for what the event needs.
    #[error("there is no memory for what the event needs")]
    OutOfMemory = 5,
    /// The node has 16 slots, and opens no more; looked for before `OutOfMemory`.
    #[error("the node has 16 slots, and opens no more")]
    SlotsFull = 6,
}

impl From<AllocError> for NodeFault {
    ghost use Rattle.std.specs.Prelude.{◌≡◌};
    ghost use Rattle.trdp_model.specs.declared.fault.NodeFault.TheVariants.{OutOfMemory};

    ghost from_gives = { λ _ fault. fault ≡ OutOfMemory };

    fn from(_: AllocError) -> NodeFault {
        NodeFault::OutOfMemory
    }
}

/// Whether the answer is `OutOfMemory`.
pub fn is_out_of_memory(answer: &Result<(), NodeFault>) -> bool
    ensures yes { result ≡ true → answer.now ≡ Err NodeFault.OutOfMemory }
    ensures no { result ≡ false → answer.now ≢ Err NodeFault.OutOfMemory }
{
    match answer {
        Ok(()) => false,
        Err(fault) => *fault == NodeFault::OutOfMemory,
    }
}

/// Why a call is refused: the first of these that applies (profile). It is the one record of the
/// call, and nothing else changes.
#[derive(Clone, Copy, Debug, PartialEq, Eq, Error)]
pub enum Refusal {
    /// The slot has no object of that handle.
    #[error("the slot has no object of that handle")]
    NoHandle = 1,
    /// The object of that handle is of another kind.
    #[error("the object of that handle is of another kind")]
    WrongKind = 2,
    /// The object isn't in a state for the call.
    #[error("the object is not in a state for the call")]
    State = 3,
    /// A cycle other than 0 is below 1,000 microseconds.
    #[error("a cycle other than 0 is below 1,000 microseconds")]
    Cycle = 4,
    /// A time is outside its limits.
    #[error("a time is outside its limits")]
    Timeout = 5,
    /// More than 8 repliers are expected.
    #[error("more than 8 repliers are expected")]
    Expected = 6,
    /// The status has the wrong sign.
    #[error("the status has the wrong sign")]
    Status = 7,
    /// The low end of a source range is above the high end.
    #[error("the low end of the source range is above its high end")]
    Range = 8,
    /// The node has no dataset of that number.
    #[error("the node has no dataset of that number")]
    NoDataset = 9,
    /// The bytes are more than a telegram carries.
    #[error("the bytes are more than a telegram carries")]
    TooLong = 10,
    /// The bytes are no value of the dataset.
    #[error("the bytes are no value of the dataset")]
    Shape = 11,
    /// The slot has a session of that identifier open.
    #[error("the slot has a session of that identifier open")]
    SessionOpen = 12,
    /// The slot has as many objects of the kind as its quota allows.
    #[error("the slot has as many objects of the kind as its quota allows")]
    Quota = 13,
    /// The slot has given out its last handle.
    #[error("the slot has given out its last handle")]
    Exhausted = 14,
    /// The request is to be sent again more than twice.
    #[error("the request is to be sent again more than twice")]
    Retries = 15,
}

impl From<LookFault> for Refusal {
    ghost use Rattle.std.specs.Prelude.{◌≡◌};
    ghost use Rattle.trdp_model.specs.Calls.{look_refusal};

    ghost from_gives = { λ fault refusal. refusal ≡ look_refusal fault };

    fn from(fault: LookFault) -> Refusal {
        match fault {
            LookFault::NoHandle => Refusal::NoHandle,
            LookFault::WrongKind => Refusal::WrongKind,
        }
    }
}
