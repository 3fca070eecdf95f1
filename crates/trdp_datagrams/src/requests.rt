//! Requests that come in: what a slot does with one that its listener hears.

ghost use Rattle.std.specs.Prelude.{◌≡◌, ℕ, ◌≤◌, ◌<◌, ◌+◌, length, slice_get, Some};
ghost use Rattle.std.specs.Prelude.{◌*◌, ◌^◌, true};
ghost use Rattle.std.specs.List.{flat_map};
ghost use Rattle.trdp_base.specs.Moments.{last_moment};
ghost use Rattle.trdp_base.specs.Limits.{md_payload_limit};
ghost use Rattle.trdp_filter.specs.Telegrams.{telegram_model, IsWithinLimit};
ghost use Rattle.trdp_table.specs.Tables.{room_of};
ghost use Rattle.trdp_model.specs.Slots.{SlotState};
ghost use Rattle.trdp_store.specs.TableSlots.{slots_of};
ghost use Rattle.trdp_model.specs.Datagrams.{is_request, requested, acting, hearing};
ghost use Rattle.trdp_model.specs.NodeModels.{HasOutcome, Appends};
ghost use Rattle.trdp_outbox.specs.Rooms.{HasRoom, entries_room};
ghost use Rattle.trdp_store.specs.Acting.{slot_at, Becomes};
ghost use Rattle.trdp_datagrams.specs.Noted.{noted_from};

use crate::addressees::Addressee;
use trdp_filter::{Globals, Telegram};
use trdp_md::Replier;
use trdp_model::{AnyObject, Kind, Message};
use trdp_outbox::{Outbox, RowForm};
use trdp_store::{Counts, Sought, Store, has_session};

/// Records what a slot does with a request that its listener heard: unless a replier of the
/// session is open, it opens one, or reports that there is no room for one.
fn ask(
    store: &mut Store,
    listener: Sought,
    telegram: &Telegram<'_>,
    globals: &Globals,
    out: &mut Outbox,
    counts: &mut Counts,
)
    requires slot { listener.slot < length store.old }
    requires heard { hearing (telegram_model telegram.now) globals.now
        (slot_at listener.slot store.old).objects ≡ Some listener.handle }
    requires now { globals.now.now ≤ last_moment }
    requires limit { IsWithinLimit (telegram_model telegram.now) }
    requires row { 1 ≤ out.old.row_room }
    requires bytes { md_payload_limit ≤ out.old.byte_room }
    ensures becomes { Becomes listener.slot
        (requested (slot_at listener.slot store.old) globals.entry.now
        (telegram_model telegram.now)) store.old store.new out.old out.new }
    ensures row_room { out.old.row_room ≤ out.new.row_room + 1 }
    ensures byte_room { out.old.byte_room ≤ out.new.byte_room + md_payload_limit }
    ensures room { room_of store.new ≡ room_of store.old }
    ensures comparisons { (b : ℕ) → room_of store.old < 2 ^ b
        → counts.new.comparisons ≤ counts.old.comparisons + (2 * b + 2) }
    ensures tests { counts.new.tests ≡ counts.old.tests }
    ensures look_ups { counts.new.look_ups ≤ counts.old.look_ups + 2 }
{
    let Telegram::Md { src, view, .. } = telegram else {
        return;
    };
    let s = listener.slot;
    let session = view.head.session;
    counts.looked_up();
    if has_session(store, s, Kind::Replier, session) {
        return;
    }
    let replier = Replier::new(*src, &view.head, globals.now);
    match store.add(s, AnyObject::Replier(replier), counts) {
        Ok(handle) => {
            counts.looked_up();
            out.push_asked(
                s,
                listener.handle,
                handle,
                session,
                &Message::of(*src, view),
            );
        }
        Err(_) => out.push(s, RowForm::Overrun(listener.handle)),
    }
}

/// Records what the slots do with a telegram that is a request: each slot whose listener was noted
/// is asked, in turn, and the others stay.
pub fn ask_all(
    store: &mut Store,
    noted: &[Addressee],
    telegram: &Telegram<'_>,
    globals: &Globals,
    out: &mut Outbox,
    counts: &mut Counts,
)
    requires noted { noted.now
        ≡ noted_from 0 (telegram_model telegram.now) globals.now (slots_of store.old) }
    requires asks { is_request (telegram_model telegram.now) ≡ true }
    requires now { globals.now.now ≤ last_moment }
    requires limit { IsWithinLimit (telegram_model telegram.now) }
    requires room { HasRoom out.old (entries_room
        (flat_map (λ slot. acting (telegram_model telegram.now) globals.now slot.objects)
        (slots_of store.old))) }
    ensures count { length store.new ≡ length store.old }
    ensures parts { (s : ℕ) (slot : SlotState) → slice_get (slots_of store.old) s ≡ Some slot
        → HasOutcome (slots_of store.new) out.old.records out.new.records s
        (requested slot globals.entry.now (telegram_model telegram.now)) }
    ensures appends { Appends (slots_of store.old) out.old.records out.new.records }
    ensures room { room_of store.new ≡ room_of store.old }
    ensures comparisons { (b : ℕ) → room_of store.old < 2 ^ b
        → counts.new.comparisons ≤ counts.old.comparisons + length noted.now * (2 * b + 2) }
    ensures tests { counts.new.tests ≡ counts.old.tests }
    ensures look_ups { counts.new.look_ups ≤ counts.old.look_ups + 2 * length store.old }
{
    store.sound();
    for listener in noted {
        ask(store, listener.sought(), telegram, globals, out, counts);
    }
}
