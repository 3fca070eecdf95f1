//! Calls about listeners.

ghost use Rattle.std.specs.Prelude.{◌≡◌, ◌<◌, length, slice_set};
ghost use Rattle.trdp_md.specs.Listeners.{listening};
ghost use Rattle.trdp_store.specs.TableSlots.{slots_of};
ghost use Rattle.trdp_model.specs.Calls.{listen_refusal};
ghost use Rattle.trdp_model.specs.Openings.{opened_unless, answered};
ghost use Rattle.trdp_outbox.specs.Outboxes.{plain_answer_model};
ghost use Rattle.trdp_store.specs.Acting.{slot_at};

use crate::opening::open;
use trdp_filter::MdFilter;
use trdp_md::Listener;
use trdp_model::{AnyObject, Refusal};
use trdp_outbox::PlainAnswer;
use trdp_store::{Counts, Store};

/// Makes a listener of the messages that the filter lets in, in slot `s`. It needs no memory.
pub fn listen(store: &mut Store, s: u16, filter: &MdFilter) -> PlainAnswer
    requires { s < length store.old }
    ensures outcome { opened_unless (listen_refusal (slot_at s store.old) filter.now)
        (slot_at s store.old) (AnyObject.Listener (listening filter.now))
        ≡ answered (slot_at s store.new) (plain_answer_model result) }
    ensures others { slots_of store.new ≡ slice_set (slots_of store.old) s (slot_at s store.new) }
{
    if filter.low > filter.high {
        return PlainAnswer::Refused(Refusal::Range);
    }
    open(
        store,
        s,
        AnyObject::Listener(Listener::new(filter)),
        &mut Counts::none(),
    )
}
