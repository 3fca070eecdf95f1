//! The objects that act at a telegram: each that it is for, but of the listeners of a slot only
//! the first.

ghost use Rattle.std.specs.Prelude.{◌≡◌, ◌+◌, ◌*◌, ◌<◌, ◌≤◌, ◌++◌, length};
ghost use Rattle.std.specs.Prelude.{vec_len, vec_capacity, Some, None, true, slice_index_or};
ghost use Rattle.std.specs.Prelude.{ℕ, ◌^◌};
ghost use Rattle.std.specs.List.{flat_map};
ghost use Rattle.trdp_base.specs.Limits.{md_payload_limit};
ghost use Rattle.trdp_filter.specs.Telegrams.{telegram_model};
ghost use Rattle.trdp_table.specs.Tables.{room_of};
ghost use Rattle.trdp_store.specs.TableSlots.{slots_of};
ghost use Rattle.trdp_model.specs.Datagrams.{acting};
ghost use Rattle.trdp_outbox.specs.Rooms.{entries_room, room_rows_limit, room_bytes_limit};
ghost use Rattle.trdp_store.specs.Acting.{slot_at};
ghost use Rattle.trdp_datagrams.specs.Noted.{noted_as, noted_from};
ghost use Rattle.trdp_store.specs.Indexed.{rows_from};
ghost use Rattle.trdp_base.specs.declared.session.SessionId.{SessionId};
ghost use Rattle.trdp_index.specs.declared.session_row.Role.{Role};
ghost use Rattle.trdp_datagrams.specs.Sought.{hits, noted_rows, part_of};
ghost use Rattle.trdp_datagrams.specs.Sought.{comes_unasked, noted_listener, listener_room};
ghost use Rattle.trdp_datagrams.specs.Sought.{rows_heard};
ghost use Rattle.trdp_datagrams.specs.Meant.{meant_in, meant_of};

use crate::first_listeners::{Heard, hearers};
use std::marker::Model;
use trdp_base::SessionId;
use trdp_filter::{Globals, Telegram};
use trdp_head::{MD_PAYLOAD_MAX, MdKind, PdKind};
use trdp_index::Role;
use trdp_outbox::Room;
use trdp_pd::Object;
use trdp_store::{Counts, Sought, Store};

/// An object that will act. It is seen as its slot and its handle there: the key that it was found
/// under saves a search, and decides nothing.
#[derive(Drop)]
pub struct Addressee {
    /// The number of its slot.
    slot: u16,
    /// Its handle there.
    handle: u32,
    /// Its key as it was found.
    key: usize,
}

impl Model for Addressee {
    ghost use Rattle.trdp_datagrams.specs.Noted.{Addressed};

    ghost Value = { Addressed };

    ghost view = { λ a. record { slot = a.slot; handle = a.handle } };
}

impl Addressee {
    /// The object of that handle in that slot, found under that key.
    pub fn new(slot: u16, handle: u32, key: usize) -> Addressee
        ensures { result ≡ record { slot = slot; handle = handle } }
    {
        Addressee { slot, handle, key }
    }

    /// The slot, handle and key by which the store looks for it.
    pub fn sought(&self) -> Sought
        ensures slot { result.slot ≡ self.now.slot }
        ensures handle { result.handle ≡ self.now.handle }
    {
        Sought {
            slot: self.slot,
            handle: self.handle,
            key: Some(self.key),
        }
    }
}

/// The session of the telegram, if it is a message that an object of the session awaits, and the
/// role of that object; None for any other telegram.
fn part_of(telegram: &Telegram<'_>) -> Option<(SessionId, Role)>
    ensures { result ≡ part_of (telegram_model telegram.now) }
{
    match telegram {
        Telegram::Pd { .. } => None,
        Telegram::Md { view, .. } => match view.head.kind {
            MdKind::Notify | MdKind::Request => None,
            MdKind::Reply | MdKind::Query | MdKind::Error => {
                Some((view.head.session, Role::Caller))
            }
            MdKind::Confirm => Some((view.head.session, Role::Replier)),
        },
    }
}

/// A message that an object awaits.
#[derive(Clone, Copy)]
struct Awaited<'a, 'b> {
    /// The session of the object.
    session: SessionId,
    /// The role of the object in the session.
    role: Role,
    /// The message.
    telegram: &'a Telegram<'b>,
    /// The time, the topology counters and the redundancy groups that the node leads.
    globals: &'a Globals,
}

/// Notes the object of slot `s` that awaits the message, if it is for it, after what is noted, and
/// returns the room for what it may record.
fn note_part(
    store: &Store,
    s: u16,
    awaited: &Awaited<'_, '_>,
    noted: &mut Vec<Addressee>,
    counts: &mut Counts,
) -> Room
    requires slot { s < length store.now }
    requires part { part_of (telegram_model awaited.now.telegram.now)
        ≡ Some (awaited.now.session, awaited.now.role) }
    requires capacity { vec_len noted.old
        + meant_in (telegram_model awaited.now.telegram.now) (slot_at s store.now).objects
        ≤ vec_capacity noted.old }
    ensures noted { noted.new.items ≡ noted.old.items ++ noted_as s
        (acting (telegram_model awaited.now.telegram.now) awaited.now.globals.now
        (slot_at s store.now).objects) }
    ensures room { result ≡ entries_room
        (acting (telegram_model awaited.now.telegram.now) awaited.now.globals.now
        (slot_at s store.now).objects) }
    ensures rows { result.rows ≤ room_rows_limit }
    ensures bytes { result.bytes ≤ room_bytes_limit }
    ensures capacity { vec_capacity noted.new ≡ vec_capacity noted.old }
    ensures length { vec_len noted.new ≤ vec_len noted.old + 1 }
    ensures few { vec_len noted.new ≤ vec_len noted.old
        + meant_in (telegram_model awaited.now.telegram.now) (slot_at s store.now).objects }
    ensures comparisons { counts.new.comparisons ≡ counts.old.comparisons }
    ensures tests { counts.new.tests ≤ counts.old.tests
        + meant_in (telegram_model awaited.now.telegram.now) (slot_at s store.now).objects }
    ensures look_ups { counts.new.look_ups ≤ counts.old.look_ups + 1 }
{
    let Awaited {
        session,
        role,
        telegram,
        globals,
    } = *awaited;
    store.sound();
    counts.looked_up();
    let Some((handle, key)) = store.find_in(s, session, role) else {
        return Room::none();
    };
    let Some(object) = store.get(key) else {
        return Room::none();
    };
    counts.tested();
    if !object.addressed(telegram, globals) {
        return Room::none();
    }
    noted.push_reserved(Addressee::new(s, handle, key));
    Room::of(object)
}

/// Notes those objects of the rows of a comId that the telegram is for, and returns the room for
/// what they may record.
fn note_run(
    store: &Store,
    com_id: u32,
    telegram: &Telegram<'_>,
    globals: &Globals,
    noted: &mut Vec<Addressee>,
    counts: &mut Counts,
) -> Room
    requires capacity { vec_len noted.old + length (rows_from 0 (Some com_id) store.now)
        ≤ vec_capacity noted.old }
    ensures noted { noted.new.items ≡ noted.old.items
        ++ noted_rows (telegram_model telegram.now) globals.entry.now store.now
        (rows_from 0 (Some com_id) store.now) }
    ensures room { result ≡ entries_room (hits (telegram_model telegram.now) globals.entry.now
        store.now (rows_from 0 (Some com_id) store.now)) }
    ensures capacity { vec_capacity noted.new ≡ vec_capacity noted.old }
    ensures few { vec_len noted.new
        ≤ vec_len noted.old + length (rows_from 0 (Some com_id) store.now) }
    ensures comparisons { (b : ℕ) → room_of store.now < 2 ^ b
        → counts.new.comparisons ≤ counts.old.comparisons + 2 * b }
    ensures tests { counts.new.tests
        ≤ counts.old.tests + length (rows_from 0 (Some com_id) store.now) }
    ensures look_ups { counts.new.look_ups ≡ counts.old.look_ups }
{
    let mut comparisons = 0;
    let rows = store.run(Some(com_id), &mut comparisons);
    let mut room = Room::none();
    for row in rows {
        if let Some(object) = store.get(row.key) {
            counts.tested();
            if object.addressed(telegram, globals) {
                noted.push_reserved(Addressee::new(row.slot, row.handle, row.key));
                room = room.plus(Room::of(object));
            }
        }
    }
    counts.compared(comparisons);
    room
}

/// Notes in each slot the object that awaits the message, if it is for it, and returns the room
/// for what they may record.
fn note_parts(
    store: &Store,
    awaited: &Awaited<'_, '_>,
    noted: &mut Vec<Addressee>,
    counts: &mut Counts,
) -> Room
    requires capacity { meant_of (telegram_model awaited.now.telegram.now) (slots_of store.now)
        ≤ vec_capacity noted.old }
    requires part { part_of (telegram_model awaited.now.telegram.now)
        ≡ Some (awaited.now.session, awaited.now.role) }
    ensures noted { noted.new.items
        ≡ noted_from 0 (telegram_model awaited.now.telegram.now) awaited.now.globals.now
        (slots_of store.now) }
    ensures room { result ≡ entries_room
        (flat_map (λ slot.
        acting (telegram_model awaited.now.telegram.now) awaited.now.globals.now slot.objects)
        (slots_of store.now)) }
    ensures capacity { vec_capacity noted.new ≡ vec_capacity noted.old }
    ensures few { vec_len noted.new
        ≤ meant_of (telegram_model awaited.now.telegram.now) (slots_of store.now) }
    ensures comparisons { counts.new.comparisons ≡ counts.old.comparisons }
    ensures tests { counts.new.tests
        ≤ counts.old.tests
        + meant_of (telegram_model awaited.now.telegram.now) (slots_of store.now) }
    ensures look_ups { counts.new.look_ups ≤ counts.old.look_ups + length store.now }
{
    noted.clear();
    let mut room = Room::none();
    for s in 0..store.slots() {
        let own = note_part(store, s as u16, awaited, noted, counts);
        room = room.plus(own);
    }
    room
}

/// Notes the listener of slot `s` that hears a message, if one does, and returns the room for what
/// it may record.
fn note_listener(heard: &Heard, s: u16, noted: &mut Vec<Addressee>) -> Room
    requires { vec_len noted.old + length (noted_listener s (slice_index_or heard.now s None))
        ≤ vec_capacity noted.old }
    ensures noted { noted.new.items
        ≡ noted.old.items ++ noted_listener s (slice_index_or heard.now s None) }
    ensures room { result ≡ listener_room (slice_index_or heard.now s None) }
    ensures rows { result.rows ≤ 1 }
    ensures bytes { result.bytes ≤ md_payload_limit }
    ensures capacity { vec_capacity noted.new ≡ vec_capacity noted.old }
    ensures length { vec_len noted.new ≤ vec_len noted.old + 1 }
{
    match heard.first(s) {
        None => Room::none(),
        Some((handle, key)) => {
            noted.push_reserved(Addressee::new(s, handle, key));
            Room {
                rows: 1,
                bytes: MD_PAYLOAD_MAX,
            }
        }
    }
}

/// Notes in each slot the listener that hears a message which comes unasked (a notification or a
/// request), and returns the room for what they may record.
fn note_hearers(
    store: &Store,
    telegram: &Telegram<'_>,
    globals: &Globals,
    noted: &mut Vec<Addressee>,
    counts: &mut Counts,
) -> Room
    requires capacity { meant_of (telegram_model telegram.now) (slots_of store.now)
        ≤ vec_capacity noted.old }
    requires unasked { comes_unasked (telegram_model telegram.now) ≡ true }
    ensures noted { noted.new.items
        ≡ noted_from 0 (telegram_model telegram.now) globals.entry.now (slots_of store.now) }
    ensures room { result ≡ entries_room
        (flat_map (λ slot. acting (telegram_model telegram.now) globals.entry.now slot.objects)
        (slots_of store.now)) }
    ensures capacity { vec_capacity noted.new ≡ vec_capacity noted.old }
    ensures few { vec_len noted.new
        ≤ meant_of (telegram_model telegram.now) (slots_of store.now) }
    ensures comparisons { (b : ℕ) → room_of store.now < 2 ^ b
        → counts.new.comparisons ≤ counts.old.comparisons + 4 * b }
    ensures tests { counts.new.tests
        ≤ counts.old.tests + rows_heard (telegram_model telegram.now) store.now }
    ensures look_ups { counts.new.look_ups ≡ counts.old.look_ups }
{
    store.sound();
    let heard = hearers(store, telegram, globals, counts);
    noted.clear();
    let mut room = Room::none();
    for s in 0..store.slots() {
        room = room.plus(note_listener(&heard, s as u16, noted));
    }
    room
}

/// Notes the objects that act at the telegram, by slot and handle, and returns the room for what
/// they may record. Those of process data, and listeners, are found by the comId, callers and
/// repliers by the session. A pull request is for the publishers of the comId that it asks for.
pub fn note_all(
    store: &Store,
    telegram: &Telegram<'_>,
    globals: &Globals,
    noted: &mut Vec<Addressee>,
    counts: &mut Counts,
) -> Room
    requires capacity { room_of store.now ≤ vec_capacity noted.old }
    ensures noted { noted.new.items
        ≡ noted_from 0 (telegram_model telegram.now) globals.entry.now (slots_of store.now) }
    ensures room { result ≡ entries_room
        (flat_map (λ slot. acting (telegram_model telegram.now) globals.entry.now slot.objects)
        (slots_of store.now)) }
    ensures capacity { vec_capacity noted.new ≡ vec_capacity noted.old }
    ensures few { vec_len noted.new
        ≤ meant_of (telegram_model telegram.now) (slots_of store.now) }
    ensures comparisons { (b : ℕ) → room_of store.now < 2 ^ b
        → counts.new.comparisons ≤ counts.old.comparisons + 4 * b }
    ensures tests { counts.new.tests
        ≤ counts.old.tests + meant_of (telegram_model telegram.now) (slots_of store.now) }
    ensures look_ups { counts.new.look_ups ≤ counts.old.look_ups + length store.now }
    ensures unasked { comes_unasked (telegram_model telegram.now) ≡ true
        → counts.new.look_ups ≡ counts.old.look_ups }
{
    store.sound();
    match telegram {
        Telegram::Pd { view, .. } => {
            noted.clear();
            let head = &view.head;
            let com_id = match head.kind {
                PdKind::PullRequest if head.reply_com_id != 0 => head.reply_com_id,
                _ => head.com_id,
            };
            note_run(store, com_id, telegram, globals, noted, counts)
        }
        Telegram::Md { .. } => match part_of(telegram) {
            None => note_hearers(store, telegram, globals, noted, counts),
            Some((session, role)) => {
                let awaited = Awaited {
                    session,
                    role,
                    telegram,
                    globals,
                };
                note_parts(store, &awaited, noted, counts)
            }
        },
    }
}
