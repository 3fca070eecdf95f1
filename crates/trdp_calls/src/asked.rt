//! Calls at one object: it does what is asked, and stays or ends.

ghost use Rattle.std.specs.Prelude.{◌≡◌, ◌<◌, ◌++◌};
ghost use Rattle.trdp_model.specs.Records.{labelled};
ghost use Rattle.trdp_model.specs.Calls.{ends};
ghost use Rattle.trdp_model.specs.Replies.{aborts};
ghost use Rattle.trdp_outbox.specs.Rooms.{HasRoom, answer_room};
ghost use Rattle.trdp_store.specs.Deeds.{object_left};

use crate::callers::confirm;
use crate::publishers::put;
use crate::repliers::{Inquiry, query, reply, reply_error};
use crate::requesters::pull;
use crate::subscriptions::show;
use trdp_model::{AnyObject, Call, Kind, Refusal};
use trdp_outbox::{Outbox, PlainAnswer};
use trdp_store::{Deed, Left, Setting};

/// The deed of a call: it asks something of an object.
#[derive(Clone, Copy)]
pub struct Asking<'a, 'b> {
    /// The call.
    pub call: &'a Call<'b>,
    /// The datasets, the time and the topology counters.
    pub setting: Setting<'a>,
}

/// Records the answer to a call that ends an object; for an object of another kind it is refused.
fn end(object: &AnyObject, kind: Kind, s: u16, out: &mut Outbox) -> Left
    requires { HasRoom out.old answer_room }
    ensures left { object_left result object.now ≡ (ends kind object.now).left }
    ensures records { out.new.records
        ≡ out.old.records ++ labelled s (ends kind object.now).records }
{
    if Kind::of(object).index() == kind.index() {
        out.push_plain_answer(s, PlainAnswer::Done);
        Left::Ended
    } else {
        out.push_plain_answer(s, PlainAnswer::Refused(Refusal::WrongKind));
        Left::Stays
    }
}

/// Records the answer to an Abort; for an object that is neither caller nor replier it is refused.
fn abort(object: &AnyObject, s: u16, out: &mut Outbox) -> Left
    requires { HasRoom out.old answer_room }
    ensures left { object_left result object.now ≡ (aborts object.now).left }
    ensures records { out.new.records ≡ out.old.records ++ labelled s (aborts object.now).records }
{
    match object {
        AnyObject::Caller(_) | AnyObject::Replier(_) => {
            out.push_plain_answer(s, PlainAnswer::Done);
            Left::Ended
        }
        _ => {
            out.push_plain_answer(s, PlainAnswer::Refused(Refusal::WrongKind));
            Left::Stays
        }
    }
}

impl Deed for Asking<'_, '_> {
    ghost use Rattle.std.specs.Prelude.{◌≤◌};
    ghost use Rattle.trdp_base.specs.Moments.{last_moment};
    ghost use Rattle.trdp_model.specs.Configs.{setup_of};
    ghost use Rattle.trdp_model.specs.Events.{call_model};
    ghost use Rattle.trdp_outbox.specs.Rooms.{HasRoom, call_room};
    ghost use Rattle.trdp_calls.specs.Asked.{asked_act};

    ghost act = { λ d handle object.
        asked_act (setup_of d.setting.config.now) d.setting.globals.now handle
        (call_model d.call.now) object };

    ghost may = { λ d _ _ out.
        (d.setting.globals.now.now ≤ last_moment)
        × HasRoom out (call_room (call_model d.call.now)) };

    ghost spends = { λ _ _ _ _. Unit {0} };

    ghost ends_still = { λ _. ⊥ };

    fn on(&self, object: &mut AnyObject, handle: u32, s: u16, out: &mut Outbox) -> Left {
        let setting = &self.setting;
        match *self.call {
            Call::Put { bytes, .. } => out.push_plain_answer(s, put(object, setting.config, bytes)),
            Call::Get { .. } => show(object, s, out),
            Call::Pull { .. } => pull(object, setting.globals, s, out),
            Call::Unpublish { .. } => return end(object, Kind::Publisher, s, out),
            Call::Unsubscribe { .. } => return end(object, Kind::Subscription, s, out),
            Call::ClosePull { .. } => return end(object, Kind::Requester, s, out),
            Call::Unlisten { .. } => return end(object, Kind::Listener, s, out),
            Call::Reply {
                com_id,
                status,
                payload,
                ..
            } => return reply(object, com_id, status, payload, s, out),
            Call::Query {
                com_id,
                status,
                timeout,
                payload,
                ..
            } => {
                let inquiry = Inquiry {
                    com_id,
                    status,
                    timeout,
                    payload,
                };
                query(object, &inquiry, setting.globals, s, out);
            }
            Call::ReplyError { com_id, status, .. } => {
                return reply_error(object, com_id, status, s, out);
            }
            Call::Confirm { place, status, .. } => {
                return confirm(object, handle, place, status, s, out);
            }
            Call::Abort { .. } => return abort(object, s, out),
            _ => {} // it concerns no single object
        }
        Left::Stays
    }
}
