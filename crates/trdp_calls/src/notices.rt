//! How a notification is sent.

ghost use Rattle.std.specs.Prelude.{◌≡◌, ◌++◌, ◌∷◌, [], length};
ghost use Rattle.trdp_model.specs.Records.{labelled};
ghost use Rattle.trdp_model.specs.Slots.{SlotState};
ghost use Rattle.trdp_model.specs.Calls.{told_unless};
ghost use Rattle.trdp_model.specs.Notices.{notify_refusal, notice};
ghost use Rattle.trdp_outbox.specs.Rooms.{HasRoom, message_room};

use trdp_filter::{Globals, topo_valid};
use trdp_head::MD_PAYLOAD_MAX;
use trdp_md::{NotifyTerms, notification};
use trdp_model::Refusal;
use trdp_outbox::{Outbox, PlainAnswer};

/// Why a notification isn't sent; None where it is.
fn notify_refusal(terms: &NotifyTerms, payload: &[u8], globals: &Globals) -> Option<Refusal>
    ensures { result ≡ notify_refusal globals.entry.now terms.now payload.now }
{
    if !topo_valid(terms.topo, globals.topo) {
        return Some(Refusal::State);
    }
    if payload.len() > MD_PAYLOAD_MAX {
        return Some(Refusal::TooLong);
    }
    None
}

/// Records the answer of slot `s` to a call Notify, and the notification where it is sent.
pub fn notify(terms: &NotifyTerms, payload: &[u8], globals: &Globals, s: u16, out: &mut Outbox)
    requires { HasRoom out.old (message_room (length payload.now)) }
    ensures { (slot : SlotState) → out.new.records
        ≡ out.old.records ++ labelled s
        (told_unless (notify_refusal globals.entry.now terms.now payload.now) slot
        (notice terms.now payload.now ∷ [])).records }
{
    if let Some(refusal) = notify_refusal(terms, payload, globals) {
        out.push_plain_answer(s, PlainAnswer::Refused(refusal));
        return;
    }
    out.push_plain_answer(s, PlainAnswer::Done);
    out.push_md(s, terms.to, &notification(terms), payload);
}
