//! Room in an outbox.

ghost use Rattle.std.specs.Prelude.{◌≡◌, ◌+◌, ◌<◌, ◌^◌};
ghost use Rattle.trdp_model.specs.Kinds.{kind_of};
ghost use Rattle.trdp_model.specs.Events.{call_model};
ghost use Rattle.trdp_outbox.specs.Rooms.{kind_room, no_room, call_room, message_room};
ghost use Rattle.trdp_outbox.specs.Rooms.{confirm_room};

use trdp_head::{MD_PAYLOAD_MAX, MD_TELEGRAM_MAX, PD_PAYLOAD_MAX, PD_TELEGRAM_MAX, md_length};
use trdp_model::{AnyObject, Call};

/// Room in an outbox: a number of records and a number of bytes.
#[derive(Clone, Copy)]
pub struct Room {
    /// How many records.
    pub rows: usize,
    /// How many bytes their telegrams and values have together.
    pub bytes: usize,
}

impl Room {
    /// No room.
    pub fn none() -> Room
        ensures { result ≡ no_room }
    {
        Room { rows: 0, bytes: 0 }
    }

    /// Both rooms together.
    pub fn plus(self, other: Room) -> Room
        requires rows { self.rows + other.rows < 2 ^ 64 }
        requires bytes { self.bytes + other.bytes < 2 ^ 64 }
        ensures { result
            ≡ record { rows = self.rows + other.rows; bytes = self.bytes + other.bytes } }
    {
        Room {
            rows: self.rows + other.rows,
            bytes: self.bytes + other.bytes,
        }
    }

    /// The most that the object records at a moment or a telegram.
    pub fn of(object: &AnyObject) -> Room
        ensures { result ≡ kind_room (kind_of object.now) }
    {
        match object {
            AnyObject::Publisher(_) => Room {
                rows: 1,
                bytes: PD_TELEGRAM_MAX,
            },
            AnyObject::Subscription(_) | AnyObject::Replier(_) => Room { rows: 1, bytes: 0 },
            AnyObject::Listener(_) => Room {
                rows: 1,
                bytes: MD_PAYLOAD_MAX,
            },
            AnyObject::Caller(_) => Room {
                rows: 2,
                bytes: MD_TELEGRAM_MAX,
            },
            AnyObject::Requester(_) => Room::none(),
        }
    }

    /// The most that a call records.
    pub fn of_call(call: &Call<'_>) -> Room
        ensures { result ≡ call_room (call_model call.now) }
    {
        match *call {
            Call::Notify { payload, .. } => Room::of_message(payload.len()),
            Call::Request { payload, .. } => Room::of_message(payload.len()),
            Call::Reply { payload, .. } => Room::of_message(payload.len()),
            Call::Query { payload, .. } => Room::of_message(payload.len()),
            Call::ReplyError { .. } => Room::of_message(0),
            Call::Confirm { .. } => Room::of_confirmation(),
            Call::Reset => Room { rows: 1, bytes: 0 },
            // A pull has two records, and the longest value is longer than a pull request.
            _ => Room {
                rows: 2,
                bytes: PD_PAYLOAD_MAX,
            },
        }
    }

    /// The most that a call records which sends a message with that many bytes of payload.
    fn of_message(len: usize) -> Room
        ensures { result ≡ message_room len }
    {
        let bytes = if len > MD_PAYLOAD_MAX {
            0
        } else {
            md_length(len)
        };
        Room { rows: 2, bytes }
    }

    /// The most that a confirmation records.
    fn of_confirmation() -> Room
        ensures { result ≡ confirm_room }
    {
        Room {
            rows: 3,
            bytes: md_length(0),
        }
    }
}
