//! What a node sends to a slot: answers, indications and telegrams.

ghost use Rattle.std.specs.Prelude.{◌≡◌};
ghost use Rattle.trdp_model.specs.Records.{message_model, reply_model};
ghost use Rattle.trdp_model.specs.Notices.{message_of};
ghost use Rattle.trdp_model.specs.Replies.{reply_of};

use crate::fault::Refusal;
use trdp_base::{Place, SessionId, Uri};
use trdp_head::{MdKind, MdView};
use trdp_pd::{Peek, Reason};

/// The two protocols of TRDP, each with a UDP port of its own (IEC 61375-2-3).
#[derive(Clone, Copy, Debug, PartialEq, Eq)]
pub enum Protocol {
    /// Process data.
    Pd,
    /// Message data.
    Md,
}

/// The result of a call, or of the opening of a slot.
#[derive(Clone, Copy, Debug)]
pub enum Answer<'a> {
    /// A new object has this handle.
    Handle(u32),
    /// The call took effect.
    Done,
    /// A subscription shows this.
    Value(Peek<'a>),
    /// The call was refused, and changed nothing.
    Refused(Refusal),
    /// The slot was opened, empty.
    Opened,
}

/// A message that was received, as a listener's slot gets it.
#[derive(Clone, Copy, Debug)]
pub struct Message<'a> {
    /// The address and port that it came from.
    pub src: Place,
    /// comId: what message this is (IEC 61375-2-3).
    pub com_id: u32,
    /// sourceURI: who says it; empty for no one in particular (IEC 61375-2-3).
    pub source_uri: Uri,
    /// destinationURI: to whom it is said; empty for no one in particular (IEC 61375-2-3).
    pub dest_uri: Uri,
    /// What it says, at most 65,388 bytes.
    pub payload: &'a [u8],
}

impl<'a> Message<'a> {
    /// A message from this place, as a listener's slot gets it.
    pub fn of(src: Place, view: &MdView<'a>) -> Message<'a>
        ensures { message_model result
            ≡ message_of src (record { head = view.now.head; payload = view.now.payload.now }) }
    {
        Message {
            src,
            com_id: view.head.com_id,
            source_uri: view.head.source_uri,
            dest_uri: view.head.dest_uri,
            payload: view.payload,
        }
    }
}

/// An answer to a request that was received, as its caller's slot gets it.
#[derive(Clone, Copy, Debug)]
pub struct Reply<'a> {
    /// The address and port that it came from.
    pub src: Place,
    /// Its message type: a reply, a query or an error (IEC 61375-2-3).
    pub kind: MdKind,
    /// replyStatus: below 0 an error, 0 good, above 0 of the user's own meaning (IEC 61375-2-3).
    pub status: i32,
    /// comId: what message this is (IEC 61375-2-3).
    pub com_id: u32,
    /// What it says, at most 65,388 bytes.
    pub payload: &'a [u8],
}

impl<'a> Reply<'a> {
    /// An answer from this place, as its caller's slot gets it.
    pub fn of(src: Place, view: &MdView<'a>) -> Reply<'a>
        ensures { reply_model result
            ≡ reply_of src (record { head = view.now.head; payload = view.now.payload.now }) }
    {
        Reply {
            src,
            kind: view.head.kind,
            status: view.head.status,
            com_id: view.head.com_id,
            payload: view.payload,
        }
    }
}

/// What a node reports to a slot without a call.
#[derive(Clone, Copy, Debug)]
pub enum Indication<'a> {
    /// The subscription of this handle had no telegram within its supervision time.
    Silent(u32),
    /// The subscription of this handle was silent, and has a telegram again.
    Alive(u32),
    /// The listener of this handle heard a notification.
    Notified(u32, Message<'a>),
    /// A listener heard a request, and a replier was made that is to answer it.
    Asked {
        /// The handle of the listener.
        listener: u32,
        /// The handle of the replier.
        replier: u32,
        /// The session of the request.
        session: SessionId,
        /// The request.
        message: Message<'a>,
    },
    /// The listener of this handle heard a request, and the slot has no room for another replier.
    Overrun(u32),
    /// The caller of this handle accepted an answer to its request.
    Replied(u32, Reply<'a>),
    /// The query of the replier of this handle was confirmed with this status; the replier is over.
    Confirmed(u32, i32),
    /// The caller or replier of this handle is over, for this reason.
    Closed(u32, Reason),
}

/// What a record says.
#[derive(Clone, Copy, Debug)]
pub enum What<'a> {
    /// The answer to a call, or to the opening of the slot.
    Answer(Answer<'a>),
    /// What happened to an object.
    Indication(Indication<'a>),
    /// A telegram to send to that place.
    Send {
        /// From which protocol's port.
        kind: Protocol,
        /// The address and port that it goes to.
        to: Place,
        /// Every byte of it, the header first.
        telegram: &'a [u8],
    },
}

/// One thing that a node sends to the slot of that number.
#[derive(Clone, Copy, Debug)]
pub struct Record<'a> {
    /// The number of the slot that it is for, from 0.
    pub slot: u16,
    /// What it says.
    pub what: What<'a>,
}
