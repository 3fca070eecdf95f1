//! What the objects of all slots do at a moment.

ghost use Rattle.std.specs.Prelude.{◌≡◌, ◌+◌, ◌*◌, ◌^◌, ◌<◌, ◌≤◌, ◌++◌, ℕ, length};
ghost use Rattle.std.specs.Prelude.{Some, slice_get};
ghost use Rattle.trdp_base.specs.Moments.{last_moment};
ghost use Rattle.trdp_head.specs.declared.pd.TheConstants.{PD_TELEGRAM_MAX};
ghost use Rattle.trdp_head.specs.declared.md.TheConstants.{MD_TELEGRAM_MAX};
ghost use Rattle.trdp_table.specs.Tables.{room_of};
ghost use Rattle.trdp_model.specs.Records.{labelled};
ghost use Rattle.trdp_model.specs.Slots.{SlotState};
ghost use Rattle.trdp_store.specs.TableSlots.{slots_of};
ghost use Rattle.trdp_model.specs.Moments.{sends_data, sends_again, moved_to};
ghost use Rattle.trdp_model.specs.NodeModels.{HasOutcome, Appends, due_in};
ghost use Rattle.trdp_outbox.specs.Rooms.{HasRoom, moment_room};
ghost use Rattle.trdp_model.specs.Fitting.{EachSound};

use trdp_filter::Globals;
use trdp_head::{MD_TELEGRAM_MAX, MdHead, PD_TELEGRAM_MAX, PdHead};
use trdp_model::AnyObject;
use trdp_outbox::{Outbox, RowForm};
use trdp_pd::{Fired, Object};
use trdp_store::{Counts, Deed, Left, Store, count_act};

/// Records the data of a publisher, with its value, under this header.
fn push_data(object: &AnyObject, head: &PdHead, s: u16, out: &mut Outbox)
    requires row { 0 < out.old.row_room }
    requires bytes { PD_TELEGRAM_MAX ≤ out.old.byte_room }
    ensures records { out.new.records
        ≡ out.old.records ++ labelled s (sends_data object.now head.now) }
    ensures row_room { out.old.row_room ≤ out.new.row_room + 1 }
    ensures byte_room { out.old.byte_room ≤ out.new.byte_room + PD_TELEGRAM_MAX }
{
    if let AnyObject::Publisher(publisher) = object {
        if let Some(value) = publisher.value() {
            out.push_pd(s, publisher.to(), head, value);
        }
    }
}

/// Records the request of a caller again, with its payload, under this header.
fn push_again(object: &AnyObject, head: &MdHead, s: u16, out: &mut Outbox)
    requires row { 0 < out.old.row_room }
    requires bytes { MD_TELEGRAM_MAX ≤ out.old.byte_room }
    ensures records { out.new.records
        ≡ out.old.records ++ labelled s (sends_again object.now head.now) }
    ensures row_room { out.old.row_room ≤ out.new.row_room + 1 }
    ensures byte_room { out.old.byte_room ≤ out.new.byte_room + MD_TELEGRAM_MAX }
{
    if let AnyObject::Caller(caller) = object {
        out.push_md(s, caller.to(), head, caller.payload());
    }
}

/// The deed of a moment: an object that is due fires.
#[derive(Clone, Copy)]
pub struct Firing<'a> {
    /// The moment, the topology counters and the redundancy groups that the node leads.
    pub globals: &'a Globals,
}

impl Deed for Firing<'_> {
    ghost use Rattle.std.specs.Prelude.{◌≡◌, ◌≤◌, true};
    ghost use Rattle.trdp_base.specs.Moments.{last_moment};
    ghost use Rattle.trdp_pd.specs.Due.{has_come_by};
    ghost use Rattle.trdp_model.specs.Kinds.{kind_of};
    ghost use Rattle.trdp_model.specs.Objects.{due_of};
    ghost use Rattle.trdp_model.specs.Moments.{firing_act};
    ghost use Rattle.trdp_model.specs.Slots.{entry_at};
    ghost use Rattle.trdp_outbox.specs.Rooms.{HasRoom, kind_room};
    ghost use Rattle.trdp_store.specs.Acting.{TookWithin};

    ghost act = { λ d handle object. firing_act d.globals.now (entry_at handle object) };

    ghost may = { λ d _ object out.
        (has_come_by d.globals.now.now (due_of object) ≡ true)
        × (d.globals.now.now ≤ last_moment) × HasRoom out (kind_room (kind_of object)) };

    ghost spends = { λ _ object before after.
        TookWithin before after (kind_room (kind_of object)) };

    ghost ends_still = { λ _. ⊥ };

    fn on(&self, object: &mut AnyObject, handle: u32, s: u16, out: &mut Outbox) -> Left {
        match object.fire(self.globals) {
            Fired::Nothing => {}
            Fired::Data(head) => push_data(object, &head, s, out),
            Fired::Again(head) => push_again(object, &head, s, out),
            Fired::Silent => out.push(s, RowForm::Silent(handle)),
            Fired::Closed(reason) => {
                out.push(s, RowForm::Closed(handle, reason));
                return Left::Ended;
            }
        }
        Left::Stays
    }
}

/// Fires the objects of all slots that are due, once each, each slot's in the order of their due
/// moments and handles. One that ends leaves the store, which counts as a look-up.
pub fn fire_all(store: &mut Store, globals: &Globals, out: &mut Outbox, counts: &mut Counts)
    requires now { globals.now.now ≤ last_moment }
    requires sound { EachSound (slots_of store.old) }
    requires room { HasRoom out.old (moment_room globals.now.now (slots_of store.old)) }
    ensures count { length store.new ≡ length store.old }
    ensures parts { (s : ℕ) (slot : SlotState) → slice_get (slots_of store.old) s ≡ Some slot
        → HasOutcome (slots_of store.new) out.old.records out.new.records s
        (moved_to slot globals.entry.now) }
    ensures appends { Appends (slots_of store.old) out.old.records out.new.records }
    ensures room { room_of store.new ≡ room_of store.old }
    ensures comparisons { (b : ℕ) → room_of store.old < 2 ^ b
        → counts.new.comparisons ≤ counts.old.comparisons
        + (due_in globals.entry.now.now (slots_of store.old) * (4 * b + 5) + 1) }
    ensures tests { counts.new.tests ≡ counts.old.tests }
    ensures look_ups { counts.new.look_ups
        ≤ counts.old.look_ups + due_in globals.entry.now.now (slots_of store.old) }
{
    store.sound();
    counts.compared(1);
    while let Some(next) = store.next_due(globals.now) {
        count_act(store.act(next, &Firing { globals }, out), counts);
        counts.compared(1);
    }
}
