//! What publishers, subscriptions and requesters are made from, and what a subscription shows.

use trdp_base::{Ip, Place, Topo};
use trdp_filter::PdFilter;
use trdp_head::PdKind;

/// What a publisher is to send, where to and how often.
#[derive(Clone, Copy, Debug, PartialEq, Eq)]
pub struct PublisherTerms {
    /// The comId of IEC 61375-2-3 that the telegrams carry.
    pub com_id: u32,
    /// The dataset that each value is one of; 0 for any bytes.
    pub dataset: u32,
    /// Microseconds from one telegram to the next: 1,000 or more, or 0 for a publisher that is
    /// never due (profile).
    pub cycle: u32,
    /// The redundancy group, 1 to 255, which the node must lead for the publisher to send; 0 for
    /// none (profile).
    pub group: u8,
    /// The topology counters that the telegrams carry.
    pub topo: Topo,
    /// Where the telegrams go.
    pub to: Place,
}

/// What a requester asks for, and where.
#[derive(Clone, Copy, Debug, PartialEq, Eq)]
pub struct RequesterTerms {
    /// The comId of IEC 61375-2-3 that the pull requests carry.
    pub com_id: u32,
    /// The comId that they ask for; 0 for `com_id`.
    pub reply_com_id: u32,
    /// Where the replies are to be sent; 0 for the requester's own node.
    pub reply_ip: Ip,
    /// The topology counters that the pull requests carry.
    pub topo: Topo,
    /// Where the pull requests go.
    pub to: Place,
}

/// What a time-out does to the value of a subscription.
#[derive(Clone, Copy, Debug, PartialEq, Eq)]
pub enum Behaviour {
    /// The value becomes the dataset's zero value, or, of dataset 0, as many zero bytes as it had.
    Zero,
    /// The value stays.
    Keep,
}

/// Which telegrams a subscription accepts, and for how long a value is good.
#[derive(Clone, Copy, Debug, PartialEq, Eq)]
pub struct SubscriptionTerms {
    /// Which telegrams are for it.
    pub filter: PdFilter,
    /// The dataset that each value is one of; 0 for any bytes.
    pub dataset: u32,
    /// Microseconds after which a value that isn't renewed times out: 1,000 or more, or 0 for
    /// never (profile).
    pub supervision: u32,
    /// What a time-out does to the value.
    pub behaviour: Behaviour,
}

/// How good the value of a subscription is.
#[derive(Clone, Copy, Debug, PartialEq, Eq)]
pub enum ValueState {
    /// No telegram has come yet.
    Never,
    /// The latest telegram came within the supervision time.
    Valid,
    /// The supervision time ran out.
    Silent,
}

/// Of the latest telegram that a subscription accepted, what the next one is compared with.
#[derive(Clone, Copy)]
pub struct Latest {
    /// Its source address.
    pub source: Ip,
    /// Its message type.
    pub kind: PdKind,
    /// Its sequence counter.
    pub counter: u32,
}

/// What a subscription shows.
#[derive(Clone, Copy, Debug)]
pub struct Peek<'a> {
    /// How good the value is.
    pub state: ValueState,
    /// The sequence counter of the latest telegram that was accepted; 0 before the first.
    pub counter: u32,
    /// The value, at most 1432 bytes.
    pub bytes: &'a [u8],
}
