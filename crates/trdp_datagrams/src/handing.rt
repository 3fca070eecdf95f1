//! The objects that were noted receive a telegram.

ghost use Rattle.std.specs.Prelude.{◌≡◌, ℕ, ◌+◌, ◌*◌, ◌^◌, ◌<◌, ◌≤◌, length, Some, slice_get};
ghost use Rattle.std.specs.List.{flat_map};
ghost use Rattle.trdp_base.specs.Moments.{last_moment};
ghost use Rattle.trdp_filter.specs.Telegrams.{telegram_model, IsWithinLimit};
ghost use Rattle.trdp_table.specs.Tables.{room_of};
ghost use Rattle.trdp_model.specs.Configs.{setup_of};
ghost use Rattle.trdp_model.specs.Slots.{SlotState};
ghost use Rattle.trdp_store.specs.TableSlots.{slots_of};
ghost use Rattle.trdp_model.specs.Datagrams.{fits_object, acting, handed};
ghost use Rattle.trdp_model.specs.NodeModels.{HasOutcome, Appends};
ghost use Rattle.trdp_outbox.specs.Rooms.{HasRoom, entries_room};
ghost use Rattle.trdp_datagrams.specs.Noted.{noted_from};

use crate::addressees::Addressee;
use crate::messages::{push_heard, push_replied};
use crate::pull::{answer_place, push_answer};
use trdp_dataset::NodeConfig;
use trdp_filter::Telegram;
use trdp_marshal::fits;
use trdp_model::AnyObject;
use trdp_outbox::{Outbox, RowForm};
use trdp_pd::{Object, Reason, Taken};
use trdp_store::{Counts, Deed, Left, Setting, Store, count_act};

/// Whether the payload is a value of the object's dataset; where it has none, any payload is.
fn fits_object(config: &NodeConfig, telegram: &Telegram<'_>, object: &AnyObject) -> bool
    ensures { result ≡ fits_object (setup_of config.now) (telegram_model telegram.now) object.now }
{
    let payload = match telegram {
        Telegram::Pd { view, .. } => view.payload,
        Telegram::Md { view, .. } => view.payload,
    };
    match object {
        AnyObject::Publisher(publisher) => fits(config.registry(), publisher.dataset(), payload),
        AnyObject::Subscription(subscription) => {
            fits(config.registry(), subscription.dataset(), payload)
        }
        _ => true,
    }
}

/// The deed of a telegram: it is given to an object that it is for.
#[derive(Clone, Copy)]
struct Handing<'a, 'b> {
    /// The telegram.
    telegram: &'a Telegram<'b>,
    /// The datasets, the time, the topology counters and the redundancy groups that the node
    /// leads.
    setting: Setting<'a>,
}

impl Deed for Handing<'_, '_> {
    ghost use Rattle.std.specs.Prelude.{◌≡◌, ◌≤◌, true};
    ghost use Rattle.trdp_base.specs.Moments.{last_moment};
    ghost use Rattle.trdp_filter.specs.Telegrams.{telegram_model, IsWithinLimit};
    ghost use Rattle.trdp_model.specs.Kinds.{kind_of};
    ghost use Rattle.trdp_model.specs.Objects.{is_addressed};
    ghost use Rattle.trdp_model.specs.Configs.{setup_of};
    ghost use Rattle.trdp_model.specs.Datagrams.{taking_act};
    ghost use Rattle.trdp_model.specs.Slots.{entry_at};
    ghost use Rattle.trdp_outbox.specs.Rooms.{HasRoom, kind_room};
    ghost use Rattle.trdp_store.specs.Acting.{TookWithin};

    ghost act = { λ d handle object.
        taking_act (setup_of d.setting.config.now) (telegram_model d.telegram.now)
        d.setting.globals.now (entry_at handle object) };

    ghost may = { λ d _ object out.
        (d.setting.globals.now.now ≤ last_moment) × IsWithinLimit (telegram_model d.telegram.now)
        × (is_addressed object (telegram_model d.telegram.now) d.setting.globals.now ≡ true)
        × HasRoom out (kind_room (kind_of object)) };

    ghost spends = { λ _ object before after.
        TookWithin before after (kind_room (kind_of object)) };

    ghost ends_still = { λ _. Unit {0} };

    fn on(&self, object: &mut AnyObject, handle: u32, s: u16, out: &mut Outbox) -> Left {
        let Handing { telegram, setting } = *self;
        let fits = fits_object(setting.config, telegram, object);
        match object.take(telegram, setting.globals, fits) {
            Taken::Nothing | Taken::Stored => {}
            Taken::Alive => out.push(s, RowForm::Alive(handle)),
            Taken::Pulled(head) => {
                push_answer(
                    object,
                    answer_place(setting.config, telegram),
                    &head,
                    s,
                    out,
                );
            }
            Taken::Heard => push_heard(telegram, handle, s, out),
            Taken::Replied => push_replied(telegram, handle, s, out),
            Taken::RepliedLast => {
                push_replied(telegram, handle, s, out);
                out.push(s, RowForm::Closed(handle, Reason::Done));
                return Left::Ended;
            }
            Taken::Confirmed(status) => {
                out.push(s, RowForm::Confirmed(handle, status));
                return Left::Ended;
            }
        }
        Left::Stays
    }
}

/// Gives the telegram to each object that was noted, in turn; one that ends leaves the store. Each
/// object's own filter test is counted, and a look-up for each that ends.
pub fn take_all(
    store: &mut Store,
    noted: &[Addressee],
    telegram: &Telegram<'_>,
    setting: &Setting<'_>,
    out: &mut Outbox,
    counts: &mut Counts,
)
    requires noted { noted.now
        ≡ noted_from 0 (telegram_model telegram.now) setting.now.globals.now (slots_of store.old) }
    requires now { setting.now.globals.now.now ≤ last_moment }
    requires limit { IsWithinLimit (telegram_model telegram.now) }
    requires room { HasRoom out.old (entries_room
        (flat_map (λ slot.
        acting (telegram_model telegram.now) setting.now.globals.now slot.objects)
        (slots_of store.old))) }
    ensures count { length store.new ≡ length store.old }
    ensures parts { (s : ℕ) (slot : SlotState) → slice_get (slots_of store.old) s ≡ Some slot
        → HasOutcome (slots_of store.new) out.old.records out.new.records s
        (handed (setup_of setting.now.config.now) slot setting.now.globals.now
        (telegram_model telegram.now)) }
    ensures appends { Appends (slots_of store.old) out.old.records out.new.records }
    ensures room { room_of store.new ≡ room_of store.old }
    ensures comparisons { (b : ℕ) → room_of store.old < 2 ^ b
        → counts.new.comparisons ≤ counts.old.comparisons + length noted.now * (2 * b + 2) }
    ensures tests { counts.new.tests ≤ counts.old.tests + length noted.now }
    ensures look_ups { counts.new.look_ups ≤ counts.old.look_ups + length noted.now }
{
    store.sound();
    let handing = Handing {
        telegram,
        setting: *setting,
    };
    for addressee in noted {
        counts.tested();
        count_act(store.act(addressee.sought(), &handing, out), counts);
    }
}
