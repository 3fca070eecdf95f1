//! The listener of each slot that hears a message: the first that it is for.

ghost use Rattle.std.specs.Prelude.{◌≡◌, ℕ, ◌<◌, ◌≤◌, length, None, slice_index_or};
ghost use Rattle.std.specs.Prelude.{◌+◌, ◌*◌, ◌^◌, slice_set, option_map, replicate};
ghost use Rattle.trdp_filter.specs.Telegrams.{telegram_model};
ghost use Rattle.trdp_table.specs.Tables.{room_of};
ghost use Rattle.trdp_model.specs.Datagrams.{hearing};
ghost use Rattle.trdp_store.specs.Acting.{slot_at};
ghost use Rattle.trdp_store.specs.Indexed.{rows_from};
ghost use Rattle.trdp_datagrams.specs.Sought.{hit, earlier, first_handle, hit_in, first_in};
ghost use Rattle.trdp_datagrams.specs.Sought.{rows_heard};

use std::marker::Model;
use trdp_filter::{Globals, Telegram};
use trdp_index::ComRow;
use trdp_pd::Object;
use trdp_store::{Counts, Store};

/// The lesser of two handles, each of which may be None; None where both are.
fn earlier(known: Option<u32>, found: Option<u32>) -> Option<u32>
    ensures { result ≡ earlier known found }
{
    match known {
        None => found,
        Some(first) => match found {
            None => Some(first),
            Some(other) => Some(first.min(other)),
        },
    }
}

/// The handle of the object of a row, if the telegram is for it; None where it isn't.
fn handle_hit(
    store: &Store,
    row: &ComRow,
    telegram: &Telegram<'_>,
    globals: &Globals,
    counts: &mut Counts,
) -> Option<u32>
    ensures found { result
        ≡ first_handle (hit (telegram_model telegram.now) globals.entry.now store.now row.now) }
    ensures comparisons { counts.new.comparisons ≡ counts.old.comparisons }
    ensures tests { counts.new.tests ≤ counts.old.tests + 1 }
    ensures look_ups { counts.new.look_ups ≡ counts.old.look_ups }
{
    match store.get(row.key) {
        None => None,
        Some(object) => {
            counts.tested();
            if object.addressed(telegram, globals) {
                Some(row.handle)
            } else {
                None
            }
        }
    }
}

/// For each of 16 slots the first object that was found to hear a telegram, if one was. It is seen
/// as their handles.
#[derive(Drop)]
pub struct Heard {
    /// The handle of each slot's object; None where none was found.
    handles: [Option<u32>; 16],
    /// The key of each object as it was found; where there is no handle it says nothing.
    keys: [usize; 16],
}

impl Model for Heard {
    ghost use Rattle.std.specs.Prelude.{ℕ, List, Option};

    ghost Value = { List (Option ℕ) };

    ghost view = { λ h. h.handles };
}

impl Heard {
    /// No slot has one.
    fn none() -> Heard
        ensures { result ≡ replicate 16 None }
    {
        Heard {
            handles: [None; 16],
            keys: [0; 16],
        }
    }

    /// Notes for a slot the handle that was found under that key, if it comes before the noted
    /// one.
    fn note(&mut self, slot: u16, found: Option<u32>, key: usize)
        requires { slot < 16 }
        ensures { self.new ≡ slice_set self.old slot
            (earlier (slice_index_or self.old slot None) found) }
    {
        let slot = usize::from(slot);
        let first = earlier(self.handles[slot], found);
        if first != self.handles[slot] {
            self.keys[slot] = key;
        }
        self.handles[slot] = first;
    }

    /// The handle that is noted for a slot, and its key as it was found; None where none is noted.
    pub fn first(&self, slot: u16) -> Option<(u32, usize)>
        ensures { option_map (λ found. found.0) result ≡ slice_index_or self.now slot None }
    {
        let slot = usize::from(slot);
        let handle = (*self.handles.get(slot)?)?;
        Some((handle, self.keys[slot]))
    }
}

/// Notes the object of a row for its slot, if the telegram is for it and none before it is noted.
fn hear_row(
    store: &Store,
    row: &ComRow,
    telegram: &Telegram<'_>,
    globals: &Globals,
    heard: &mut Heard,
    counts: &mut Counts,
)
    requires slot { row.now.slot < 16 }
    requires length { length heard.old ≡ 16 }
    ensures heard { (s : ℕ) → slice_index_or heard.new s None
        ≡ earlier (slice_index_or heard.old s None)
        (hit_in (telegram_model telegram.now) globals.entry.now store.now s row.now) }
    ensures length { length heard.new ≡ 16 }
    ensures comparisons { counts.new.comparisons ≡ counts.old.comparisons }
    ensures tests { counts.new.tests ≤ counts.old.tests + 1 }
    ensures look_ups { counts.new.look_ups ≡ counts.old.look_ups }
{
    let found = handle_hit(store, row, telegram, globals, counts);
    heard.note(row.slot, found, row.key);
}

/// Notes for each slot the first of the objects that telegrams look for under a comId, or under
/// any, that the telegram is for, if none before it is noted.
fn hear_run(
    store: &Store,
    com_id: Option<u32>,
    telegram: &Telegram<'_>,
    globals: &Globals,
    heard: &mut Heard,
    counts: &mut Counts,
)
    requires { length heard.old ≡ 16 }
    ensures heard { (s : ℕ) → slice_index_or heard.new s None
        ≡ earlier (slice_index_or heard.old s None)
        (first_in (telegram_model telegram.now) globals.entry.now store.now s
        (rows_from 0 com_id store.now)) }
    ensures length { length heard.new ≡ 16 }
    ensures comparisons { (b : ℕ) → room_of store.now < 2 ^ b
        → counts.new.comparisons ≤ counts.old.comparisons + 2 * b }
    ensures tests { counts.new.tests ≤ counts.old.tests + length (rows_from 0 com_id store.now) }
    ensures look_ups { counts.new.look_ups ≡ counts.old.look_ups }
{
    store.sound();
    let mut comparisons = 0;
    let rows = store.run(com_id, &mut comparisons);
    for row in rows {
        hear_row(store, row, telegram, globals, heard, counts);
    }
    counts.compared(comparisons);
}

/// For each slot its listener that hears the telegram, if one does. Its row is in the run of the
/// message's comId or in that of any.
pub fn hearers(
    store: &Store,
    telegram: &Telegram<'_>,
    globals: &Globals,
    counts: &mut Counts,
) -> Heard
    ensures heard { (s : ℕ) → s < length store.now → slice_index_or result s None
        ≡ hearing (telegram_model telegram.now) globals.entry.now (slot_at s store.now).objects }
    ensures comparisons { (b : ℕ) → room_of store.now < 2 ^ b
        → counts.new.comparisons ≤ counts.old.comparisons + 4 * b }
    ensures tests { counts.new.tests
        ≤ counts.old.tests + rows_heard (telegram_model telegram.now) store.now }
    ensures look_ups { counts.new.look_ups ≡ counts.old.look_ups }
{
    store.sound();
    let mut heard = Heard::none();
    if let Telegram::Md { view, .. } = telegram {
        hear_run(
            store,
            Some(view.head.com_id),
            telegram,
            globals,
            &mut heard,
            counts,
        );
        hear_run(store, None, telegram, globals, &mut heard, counts);
    }
    heard
}
