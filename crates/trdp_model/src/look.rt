//! Why there is nothing to see of a subscription.

use thiserror::Error;

/// Why a slot has no such subscription: the first of these that applies (profile).
#[derive(Clone, Copy, Debug, PartialEq, Eq)]
pub enum LookFault {
    /// The slot has no object of that handle.
    NoHandle,
    /// The object of that handle is no subscription.
    WrongKind,
}

/// Why there is nothing to see: the first of these that applies (profile).
#[derive(Clone, Copy, Debug, PartialEq, Eq, Error)]
pub enum PeekFault {
    /// The node has no slot of that number.
    #[error("the node has no slot of that number")]
    NoSlot = 1,
    /// The slot has no object of that handle.
    #[error("the slot has no object of that handle")]
    NoHandle = 2,
    /// The object of that handle is no subscription.
    #[error("the object of that handle is no subscription")]
    WrongKind = 3,
}

impl From<LookFault> for PeekFault {
    ghost use Rattle.std.specs.Prelude.{◌≡◌};
    ghost use Rattle.trdp_model.specs.Peeks.{peek_fault};

    ghost from_gives = { λ fault result. result ≡ peek_fault fault };

    fn from(fault: LookFault) -> PeekFault {
        match fault {
            LookFault::NoHandle => PeekFault::NoHandle,
            LookFault::WrongKind => PeekFault::WrongKind,
        }
    }
}

/// Why no item is shown: the first of these that applies (profile).
#[derive(Clone, Copy, Debug, PartialEq, Eq, Error)]
pub enum ValueFault {
    /// The node has no slot of that number.
    #[error("the node has no slot of that number")]
    NoSlot = 1,
    /// The slot has no object of that handle.
    #[error("the slot has no object of that handle")]
    NoHandle = 2,
    /// The object of that handle is no subscription.
    #[error("the object of that handle is no subscription")]
    WrongKind = 3,
    /// The subscription is of dataset 0, whose bytes are no item.
    #[error("the subscription is of dataset 0, whose bytes are no item")]
    NoDataset = 4,
    /// There is no memory for the item.
    #[error("there is no memory for the item")]
    OutOfMemory = 5,
}

impl From<LookFault> for ValueFault {
    ghost use Rattle.std.specs.Prelude.{◌≡◌};
    ghost use Rattle.trdp_model.specs.ShownItems.{shown_fault};

    ghost from_gives = { λ fault result. result ≡ shown_fault fault };

    fn from(fault: LookFault) -> ValueFault {
        match fault {
            LookFault::NoHandle => ValueFault::NoHandle,
            LookFault::WrongKind => ValueFault::WrongKind,
        }
    }
}
