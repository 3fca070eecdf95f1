//! What is recorded for a slot of a message that its object received.

ghost use Rattle.std.specs.Prelude.{◌≡◌, ◌≤◌, ◌+◌, ◌++◌};
ghost use Rattle.trdp_base.specs.Limits.{md_payload_limit};
ghost use Rattle.trdp_filter.specs.Telegrams.{telegram_model, IsWithinLimit};
ghost use Rattle.trdp_model.specs.Records.{labelled};
ghost use Rattle.trdp_model.specs.Notices.{heard};
ghost use Rattle.trdp_model.specs.Replies.{replied};

use trdp_filter::Telegram;
use trdp_head::MdKind;
use trdp_model::{Message, Reply};
use trdp_outbox::Outbox;

/// Records for the slot of a listener the telegram that the listener heard.
pub fn push_heard(telegram: &Telegram<'_>, handle: u32, s: u16, out: &mut Outbox)
    requires limit { IsWithinLimit (telegram_model telegram.now) }
    requires row { 1 ≤ out.old.row_room }
    requires bytes { md_payload_limit ≤ out.old.byte_room }
    ensures records { out.new.records
        ≡ out.old.records ++ labelled s (heard handle (telegram_model telegram.now)) }
    ensures row_room { out.old.row_room ≤ out.new.row_room + 1 }
    ensures byte_room { out.old.byte_room ≤ out.new.byte_room + md_payload_limit }
{
    if let Telegram::Md { src, view, .. } = telegram {
        if view.head.kind == MdKind::Notify {
            out.push_notified(s, handle, &Message::of(*src, view));
        }
    }
}

/// Records for the slot of a caller the answer that the caller received.
pub fn push_replied(telegram: &Telegram<'_>, handle: u32, s: u16, out: &mut Outbox)
    requires limit { IsWithinLimit (telegram_model telegram.now) }
    requires row { 1 ≤ out.old.row_room }
    requires bytes { md_payload_limit ≤ out.old.byte_room }
    ensures records { out.new.records
        ≡ out.old.records ++ labelled s (replied handle (telegram_model telegram.now)) }
    ensures row_room { out.old.row_room ≤ out.new.row_room + 1 }
    ensures byte_room { out.old.byte_room ≤ out.new.byte_room + md_payload_limit }
{
    if let Telegram::Md { src, view, .. } = telegram {
        out.push_replied(s, handle, &Reply::of(*src, view));
    }
}
