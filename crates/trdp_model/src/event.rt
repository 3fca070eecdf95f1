//! What happens to a node, one event at a time.

use crate::record::Protocol;
use trdp_base::{Place, Quotas, Topo};
use trdp_filter::MdFilter;
use trdp_md::{CallerTerms, NotifyTerms};
use trdp_pd::{PublisherTerms, RequesterTerms, SubscriptionTerms};

/// The most slots of a node (profile).
pub const SLOTS_MAX: usize = 16;

/// A call of the application in a slot.
#[derive(Clone, Copy, Debug)]
pub enum Call<'a> {
    /// Makes a publisher, and answers its handle.
    ///
    /// # Errors
    /// Refused: the first that applies of `Cycle`, `NoDataset`, `TooLong` (the dataset's zero
    /// value is more than 1,432 bytes), `Quota` and `Exhausted`.
    Publish(PublisherTerms),
    /// Sets the value of the publisher of that handle.
    ///
    /// # Errors
    /// Refused: the first that applies of `NoHandle`, `WrongKind`, `TooLong` (above 1,432 bytes)
    /// and `Shape`.
    Put {
        /// The handle of the publisher.
        handle: u32,
        /// The value, at most 1,432 bytes.
        bytes: &'a [u8],
    },
    /// Ends the publisher of that handle.
    ///
    /// # Errors
    /// Refused: the first that applies of `NoHandle` and `WrongKind`.
    Unpublish {
        /// The handle of the publisher.
        handle: u32,
    },
    /// Makes a subscription, and answers its handle.
    ///
    /// # Errors
    /// Refused: the first that applies of `Timeout` (a supervision time other than 0 below 1,000
    /// microseconds), `Range`, `NoDataset`, `TooLong` (the dataset's zero value is more than 1,432
    /// bytes), `Quota` and `Exhausted`.
    Subscribe(SubscriptionTerms),
    /// Answers what the subscription of that handle shows.
    ///
    /// # Errors
    /// Refused: the first that applies of `NoHandle` and `WrongKind`.
    Get {
        /// The handle of the subscription.
        handle: u32,
    },
    /// Ends the subscription of that handle.
    ///
    /// # Errors
    /// Refused: the first that applies of `NoHandle` and `WrongKind`.
    Unsubscribe {
        /// The handle of the subscription.
        handle: u32,
    },
    /// Makes a requester, and answers its handle.
    ///
    /// # Errors
    /// Refused: the first that applies of `Quota` and `Exhausted`.
    OpenPull(RequesterTerms),
    /// Lets the requester of that handle send one pull request, after the answer.
    ///
    /// # Errors
    /// Refused: the first that applies of `NoHandle`, `WrongKind`, and `State` where its topology
    /// counters don't match the node's.
    Pull {
        /// The handle of the requester.
        handle: u32,
    },
    /// Ends the requester of that handle.
    ///
    /// # Errors
    /// Refused: the first that applies of `NoHandle` and `WrongKind`.
    ClosePull {
        /// The handle of the requester.
        handle: u32,
    },
    /// Makes a listener to the messages that the filter passes, and answers its handle.
    ///
    /// # Errors
    /// Refused: the first that applies of `Range`, `Quota` and `Exhausted`.
    Listen(MdFilter),
    /// Ends the listener of that handle.
    ///
    /// # Errors
    /// Refused: the first that applies of `NoHandle` and `WrongKind`.
    Unlisten {
        /// The handle of the listener.
        handle: u32,
    },
    /// Sends one notification, after the answer; nothing is opened.
    ///
    /// # Errors
    /// Refused: the first that applies of `State` where its topology counters don't match the
    /// node's, and `TooLong` (above 65,388 bytes).
    Notify {
        /// With which header it is sent, and where to.
        terms: NotifyTerms,
        /// What it says, at most 65,388 bytes.
        payload: &'a [u8],
    },
    /// Makes a caller, answers its handle, and sends its request; the caller sends it again at its
    /// deadlines, as often as its terms say, while no answer came.
    ///
    /// # Errors
    /// Refused: the first that applies of these.
    /// - `State`: its topology counters don't match the node's.
    /// - `Timeout`: it is below 1,000 microseconds.
    /// - `Expected`: more than 8 repliers are expected.
    /// - `TooLong`: the payload has more than 65,388 bytes.
    /// - `SessionOpen`: a caller of the slot has the session.
    /// - `Quota`, `Exhausted`, and `Retries` (above 2).
    Request {
        /// With which header it is sent, where to, and for what it waits.
        terms: CallerTerms,
        /// What it says, at most 65,388 bytes.
        payload: &'a [u8],
    },
    /// Lets the replier of that handle send its reply, after the answer; the replier ends.
    ///
    /// # Errors
    /// Refused: the first that applies of `NoHandle`, `WrongKind`, `State` where it awaits a
    /// confirmation, `Status` (below 0) and `TooLong` (above 65,388 bytes).
    Reply {
        /// The handle of the replier.
        handle: u32,
        /// The comId that the reply carries.
        com_id: u32,
        /// Its status, 0 or more.
        status: i32,
        /// What it says, at most 65,388 bytes.
        payload: &'a [u8],
    },
    /// Lets the replier of that handle send a reply that is to be confirmed, after the answer; the
    /// replier waits for that.
    ///
    /// # Errors
    /// Refused: the first that applies of `NoHandle`, `WrongKind`, `State` where it awaits a
    /// confirmation already, `Timeout` (below 1,000 microseconds), `Status` (below 0) and
    /// `TooLong` (above 65,388 bytes).
    Query {
        /// The handle of the replier.
        handle: u32,
        /// The comId that the query carries.
        com_id: u32,
        /// Its status, 0 or more.
        status: i32,
        /// For how long the confirmation is awaited, in microseconds, 1,000 or more.
        timeout: u32,
        /// What it says, at most 65,388 bytes.
        payload: &'a [u8],
    },
    /// Lets the replier of that handle send an error in place of a reply, after the answer; the
    /// replier ends.
    ///
    /// # Errors
    /// Refused: the first that applies of `NoHandle`, `WrongKind`, `State` where it awaits a
    /// confirmation, and `Status` (0 or above).
    ReplyError {
        /// The handle of the replier.
        handle: u32,
        /// The comId that the error carries.
        com_id: u32,
        /// Its status, below 0.
        status: i32,
    },
    /// Lets the caller of that handle confirm the query of a place, after the answer. A caller
    /// that has all that it waits for is over.
    ///
    /// # Errors
    /// Refused: the first that applies of `NoHandle`, `WrongKind`, `State` where no query of that
    /// place awaits a confirmation, and `Status` (below 0).
    Confirm {
        /// The handle of the caller.
        handle: u32,
        /// The address and port that the query came from.
        place: Place,
        /// The status of the confirmation, 0 or more.
        status: i32,
    },
    /// Ends the caller or replier of that handle. It sends nothing.
    ///
    /// # Errors
    /// Refused: the first that applies of `NoHandle` and `WrongKind`.
    Abort {
        /// The handle of the caller or replier.
        handle: u32,
    },
    /// Resets the slot: all its objects end, and its next handle stays. Nothing is sent, and the
    /// only record is the answer `Done`. It is never refused.
    Reset,
}

/// One event, the atomic step of a node (profile).
#[derive(Clone, Copy, Debug)]
pub enum Event<'a> {
    /// Time has come to that moment, in microseconds since the node began, at most 2^62.
    ///
    /// # Errors
    /// `Past` before the node's latest moment, `TooLate` above 2^62.
    Moment(u64),
    /// The train's network has these topology counters.
    Topology(Topo),
    /// The node is the leader of that redundancy group, 1 to 255, from now on, or a follower in
    /// it.
    ///
    /// # Errors
    /// `NoGroup` for group 0.
    Role {
        /// The group, 1 to 255.
        group: u8,
        /// Whether the node leads it from now on.
        leader: bool,
    },
    /// These bytes were received at the protocol's port, from one socket address to another.
    Datagram {
        /// At which protocol's port.
        kind: Protocol,
        /// The address and port that it came from.
        src: Place,
        /// The address and port that it went to.
        dst: Place,
        /// Every byte of it.
        bytes: &'a [u8],
    },
    /// The application in that slot, numbered from 0, makes a call.
    ///
    /// # Errors
    /// `NoSlot` where the node has no such slot.
    Call {
        /// The slot's number.
        slot: u16,
        /// The call.
        call: Call<'a>,
    },
    /// An application starts that had no slot: the next slot is opened for it, empty, with these
    /// quotas, and gets the answer `Opened`. No other slot gets a record.
    ///
    /// # Errors
    /// `SlotsFull` where there are [`SLOTS_MAX`] slots.
    AddSlot(Quotas),
}
