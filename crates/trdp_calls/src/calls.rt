//! What a call does to the slot that makes it, and its answer.

ghost use Rattle.std.specs.Prelude.{◌≡◌, ◌<◌, ◌≤◌, length, OnOk, OnErr, IfOk, IfErr};
ghost use Rattle.std.specs.Prelude.{None, true, IfSome, IfNone};
ghost use Rattle.trdp_base.specs.Moments.{last_moment};
ghost use Rattle.trdp_marshal.specs.Items.{model_of};
ghost use Rattle.trdp_model.specs.Configs.{setup_of};
ghost use Rattle.trdp_model.specs.Events.{call_model};
ghost use Rattle.trdp_model.specs.Calls.{called, at_object};
ghost use Rattle.trdp_model.specs.Values.{item_bytes, item_refusal, valued};
ghost use Rattle.trdp_calls.specs.Spelled.{IsRefusedAs};
ghost use Rattle.trdp_model.specs.Slots.{entry_under};
ghost use Rattle.trdp_outbox.specs.Rooms.{CallMayLack, HasRoom, call_room, makes_buffer};
ghost use Rattle.trdp_calls.specs.Asked.{IsAskedOf, asked_act, concerns_no_object};
ghost use Rattle.trdp_store.specs.Acting.{slot_at, Becomes};

use crate::asked::Asking;
use crate::callers::request;
use crate::listeners::listen;
use crate::notices::notify;
use crate::publishers::publish;
use crate::requesters::open_pull;
use crate::subscriptions::subscribe;
use crate::value::{SpellFault, spell};
use std::alloc::AllocError;
use trdp_head::PD_PAYLOAD_MAX;
use trdp_marshal::Item;
use trdp_model::{Call, Refusal};
use trdp_outbox::{Outbox, PlainAnswer, Room};
use trdp_store::{Setting, Sought, Store, object_of};

/// The handle of the object that a call asks something of; None where it concerns no single
/// object.
fn handle_of(call: &Call<'_>) -> Option<u32>
    ensures asks { IfSome result (λ handle. IsAskedOf (call_model call.now) handle) }
    ensures none { IfNone result (concerns_no_object (call_model call.now) ≡ true) }
{
    match *call {
        Call::Put { handle, .. }
        | Call::Get { handle }
        | Call::Pull { handle }
        | Call::Unpublish { handle }
        | Call::Unsubscribe { handle }
        | Call::ClosePull { handle }
        | Call::Unlisten { handle }
        | Call::Reply { handle, .. }
        | Call::Query { handle, .. }
        | Call::ReplyError { handle, .. }
        | Call::Confirm { handle, .. }
        | Call::Abort { handle } => Some(handle),
        Call::Publish(_)
        | Call::Subscribe(_)
        | Call::OpenPull(_)
        | Call::Listen(_)
        | Call::Notify { .. }
        | Call::Request { .. }
        | Call::Reset => None,
    }
}

/// Serves a call of slot `s` that concerns no single object, and records its answer.
///
/// # Errors
/// [`AllocError`] where there is no memory for a new object; nothing has changed.
fn serve_slot(
    store: &mut Store,
    s: u16,
    call: &Call<'_>,
    setting: &Setting<'_>,
    out: &mut Outbox,
) -> Result<(), AllocError>
    requires slot { s < length store.old }
    requires now { setting.now.globals.now.now ≤ last_moment }
    requires none { concerns_no_object (call_model call.now) ≡ true }
    requires room { HasRoom out.old (call_room (call_model call.now)) }
    ensures becomes { OnOk result (Becomes s
        (called (setup_of setting.now.config.now) (slot_at s store.old) setting.now.globals.now
        (call_model call.now)) store.old store.new out.old out.new) }
    ensures kept { OnErr result (store.new ≡ store.old) }
    ensures same { OnErr result (out.new ≡ out.old) }
    ensures makes { OnErr result (makes_buffer (call_model call.now) ≡ true) }
{
    let Setting {
        alloc,
        config,
        globals,
    } = *setting;
    let answer = match *call {
        Call::Publish(terms) => publish(store, s, alloc, config, &terms, globals)?,
        Call::Subscribe(terms) => subscribe(store, s, alloc, config, &terms, globals)?,
        Call::OpenPull(terms) => open_pull(store, s, &terms),
        Call::Listen(filter) => listen(store, s, &filter),
        Call::Notify { terms, payload } => {
            notify(&terms, payload, globals, s, out);
            return Ok(());
        }
        Call::Request { terms, payload } => {
            request(store, s, &terms, payload, setting, out)?;
            return Ok(());
        }
        Call::Reset => {
            store.reset(s);
            PlainAnswer::Done
        }
        _ => return Ok(()),
    };
    out.push_plain_answer(s, answer);
    Ok(())
}

/// Has the object of that handle in slot `s` do what a call asks, and adds its records; where there
/// is none, the call is refused.
fn ask(store: &mut Store, s: u16, handle: u32, asking: &Asking<'_, '_>, out: &mut Outbox)
    requires slot { s < length store.old }
    requires now { asking.now.setting.globals.now.now ≤ last_moment }
    requires room { HasRoom out.old (call_room (call_model asking.now.call.now)) }
    ensures { Becomes s
        (at_object (slot_at s store.old) handle
        (asked_act (setup_of asking.now.setting.config.now) asking.now.setting.globals.now handle
        (call_model asking.now.call.now))) store.old store.new out.old out.new }
{
    let sought = Sought {
        slot: s,
        handle,
        key: None,
    };
    if store.act(sought, asking, out).is_none() {
        out.push_plain_answer(s, PlainAnswer::Refused(Refusal::NoHandle));
    }
}

/// Serves a call of slot `s` and records its answer. A refused call changes nothing.
///
/// # Errors
/// [`AllocError`] where there is no memory for the answer or a new object; nothing has changed.
pub fn serve(
    store: &mut Store,
    s: u16,
    call: &Call<'_>,
    setting: &Setting<'_>,
    out: &mut Outbox,
) -> Result<(), AllocError>
    requires slot { s < length store.old }
    requires now { setting.now.globals.now.now ≤ last_moment }
    ensures becomes { OnOk result (Becomes s
        (called (setup_of setting.now.config.now) (slot_at s store.old) setting.now.globals.now
        (call_model call.now)) store.old store.new out.old out.new) }
    ensures kept { OnErr result (store.new ≡ store.old) }
    ensures unrecorded { OnErr result (out.new.records ≡ out.old.records) }
    ensures full { OnErr result (CallMayLack out.old (call_model call.now)) }
    ensures still { OnErr result (CallMayLack out.new (call_model call.now)) }
{
    let room = Room::of_call(call);
    out.reserve(room.rows, room.bytes)?;
    let Some(handle) = handle_of(call) else {
        return serve_slot(store, s, call, setting, out);
    };
    let asking = Asking {
        call,
        setting: *setting,
    };
    ask(store, s, handle, &asking, out);
    Ok(())
}

/// The bytes of an item as a value of the object of that handle in slot `s`.
///
/// # Errors
/// Refused: the first that applies of `NoHandle`, `WrongKind`, `NoDataset` (dataset 0), `Shape`
/// and `TooLong`. `NoMemory` comes last.
fn spelled(
    store: &Store,
    s: u16,
    handle: u32,
    item: &Item,
    setting: &Setting<'_>,
) -> Result<Vec<u8>, SpellFault>
    requires { s < length store.now }
    ensures bytes { IfOk result
        (λ bytes. bytes.items ≡ item_bytes (setup_of setting.now.config.now) (model_of item.now)
        (entry_under handle (slot_at s store.now).objects)) }
    ensures spelled { IfOk result
        (λ bytes.
        item_refusal (setup_of setting.now.config.now) (model_of item.now)
        (entry_under handle (slot_at s store.now).objects) ≡ None) }
    ensures refused { IfErr result
        (IsRefusedAs
        (item_refusal (setup_of setting.now.config.now) (model_of item.now)
        (entry_under handle (slot_at s store.now).objects))) }
{
    match object_of(store, s, handle) {
        None => Err(SpellFault::Refused(Refusal::NoHandle)),
        Some(object) => spell(setting.alloc, setting.config, object, item),
    }
}

/// Puts an item in the publisher of that handle in slot `s` and records the answer; an item that
/// has no bytes as a value of the publisher's dataset is refused.
///
/// # Errors
/// [`AllocError`] where there is no memory for the item's bytes or the answer; nothing has
/// changed.
pub fn put_value(
    store: &mut Store,
    s: u16,
    handle: u32,
    item: &Item,
    setting: &Setting<'_>,
    out: &mut Outbox,
) -> Result<(), AllocError>
    requires slot { s < length store.old }
    requires now { setting.now.globals.now.now ≤ last_moment }
    ensures becomes { OnOk result (Becomes s
        (valued (setup_of setting.now.config.now) (slot_at s store.old) handle
        (model_of item.now)) store.old store.new out.old out.new) }
    ensures kept { OnErr result (store.new ≡ store.old) }
    ensures unrecorded { OnErr result (out.new.records ≡ out.old.records) }
{
    store.sound();
    out.reserve(2, PD_PAYLOAD_MAX)?;
    match spelled(store, s, handle, item, setting) {
        Err(SpellFault::NoMemory) => Err(AllocError),
        Err(SpellFault::Refused(refusal)) => {
            out.push_plain_answer(s, PlainAnswer::Refused(refusal));
            Ok(())
        }
        Ok(bytes) => {
            let call = Call::Put {
                handle,
                bytes: &bytes,
            };
            let asking = Asking {
                call: &call,
                setting: *setting,
            };
            ask(store, s, handle, &asking, out);
            Ok(())
        }
    }
}
