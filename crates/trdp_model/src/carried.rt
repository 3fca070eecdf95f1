//! The bytes that an event carries.

ghost use Rattle.std.specs.Prelude.{◌≡◌, None, option_map};
ghost use Rattle.trdp_model.specs.CarriedBytes.{call_bytes, call_with_bytes};
ghost use Rattle.trdp_model.specs.CarriedBytes.{event_bytes, event_with_bytes};
ghost use Rattle.trdp_model.specs.Events.{call_model, event_model};

use crate::event::{Call, Event};

impl<'a> Event<'a> {
    /// The bytes of the datagram, the value or the payload; None where the event carries none.
    pub fn bytes(&self) -> Option<&'a [u8]>
        ensures { option_map (λ bytes. bytes.now) result ≡ event_bytes (event_model self.now) }
    {
        match self {
            Event::Datagram { bytes, .. } => Some(bytes),
            Event::Call { call, .. } => call.bytes(),
            _ => None,
        }
    }

    /// The event with these bytes in place of its own; as it is, where it carries none.
    pub fn with_bytes<'b>(&self, bytes: &'b [u8]) -> Event<'b>
        ensures { event_model result ≡ event_with_bytes bytes.now (event_model self.now) }
    {
        match self {
            Event::Moment(moment) => Event::Moment(*moment),
            Event::Topology(topo) => Event::Topology(*topo),
            Event::Role { group, leader } => Event::Role {
                group: *group,
                leader: *leader,
            },
            Event::Datagram { kind, src, dst, .. } => Event::Datagram {
                kind: *kind,
                src: *src,
                dst: *dst,
                bytes,
            },
            Event::Call { slot, call } => Event::Call {
                slot: *slot,
                call: call.with_bytes(bytes),
            },
            Event::AddSlot(quotas) => Event::AddSlot(*quotas),
        }
    }
}

impl<'a> Call<'a> {
    /// The bytes of the value or the payload; None where the call carries none.
    fn bytes(&self) -> Option<&'a [u8]>
        ensures { option_map (λ bytes. bytes.now) result ≡ call_bytes (call_model self.now) }
    {
        match *self {
            Call::Put { bytes, .. } => Some(bytes),
            Call::Notify { payload, .. }
            | Call::Request { payload, .. }
            | Call::Reply { payload, .. }
            | Call::Query { payload, .. } => Some(payload),
            _ => None,
        }
    }

    /// The call with these bytes in place of its own; as it is, where it carries none.
    fn with_bytes<'b>(&self, bytes: &'b [u8]) -> Call<'b>
        ensures { call_model result ≡ call_with_bytes bytes.now (call_model self.now) }
    {
        match *self {
            Call::Put { handle, .. } => Call::Put { handle, bytes },
            Call::Notify { terms, .. } => Call::Notify {
                terms,
                payload: bytes,
            },
            Call::Request { terms, .. } => Call::Request {
                terms,
                payload: bytes,
            },
            Call::Reply {
                handle,
                com_id,
                status,
                ..
            } => Call::Reply {
                handle,
                com_id,
                status,
                payload: bytes,
            },
            Call::Query {
                handle,
                com_id,
                status,
                timeout,
                ..
            } => Call::Query {
                handle,
                com_id,
                status,
                timeout,
                payload: bytes,
            },
            _ => self.without_bytes(),
        }
    }

    /// The same call, which carries no bytes. Each arm makes it anew, since the two borrow for
    /// different times.
    fn without_bytes<'b>(&self) -> Call<'b>
        requires { call_bytes (call_model self.now) ≡ None }
        ensures { call_model result ≡ call_model self.now }
    {
        match *self {
            Call::Publish(terms) => Call::Publish(terms),
            Call::Unpublish { handle } => Call::Unpublish { handle },
            Call::Subscribe(terms) => Call::Subscribe(terms),
            Call::Get { handle } => Call::Get { handle },
            Call::Unsubscribe { handle } => Call::Unsubscribe { handle },
            Call::OpenPull(terms) => Call::OpenPull(terms),
            Call::Pull { handle } => Call::Pull { handle },
            Call::ClosePull { handle } => Call::ClosePull { handle },
            Call::Listen(filter) => Call::Listen(filter),
            Call::Unlisten { handle } => Call::Unlisten { handle },
            Call::ReplyError {
                handle,
                com_id,
                status,
            } => Call::ReplyError {
                handle,
                com_id,
                status,
            },
            Call::Confirm {
                handle,
                place,
                status,
            } => Call::Confirm {
                handle,
                place,
                status,
            },
            Call::Abort { handle } => Call::Abort { handle },
            Call::Reset => Call::Reset,
            Call::Put { .. }
            | Call::Notify { .. }
            | Call::Request { .. }
            | Call::Reply { .. }
            | Call::Query { .. } => unreachable!(),
        }
    }
}
