//! Notifications: messages that expect no reply.

ghost use Rattle.std.specs.Prelude.{◌≡◌};
ghost use Rattle.trdp_md.specs.Notifications.{notification_of};

use crate::terms::NotifyTerms;
use trdp_base::SessionId;
use trdp_head::{MdHead, MdKind};

/// The header of a notification: of no session, with sequence counter, status and timeout 0
/// (profile).
#[tactic(auto, unfolding(crate::specs::Notifications::notification_of))]
pub fn notification(terms: &NotifyTerms) -> MdHead
    ensures { result ≡ notification_of terms.now }
{
    MdHead {
        counter: 0,
        kind: MdKind::Notify,
        com_id: terms.com_id,
        topo: terms.topo,
        status: 0,
        session: SessionId(0),
        timeout: 0,
        source_uri: terms.source_uri,
        dest_uri: terms.dest_uri,
    }
}
