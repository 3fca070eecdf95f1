//! Whether a session is open in a slot.

ghost use Rattle.std.specs.Prelude.{◌≡◌, ◌<◌, length};
ghost use Rattle.trdp_model.specs.Requests.{has_session};
ghost use Rattle.trdp_store.specs.Acting.{slot_at};

use crate::store::Store;
use trdp_base::SessionId;
use trdp_index::Role;
use trdp_model::Kind;

/// Whether an object of the kind in that session is open in slot `s`.
pub fn has_session(store: &Store, s: u16, kind: Kind, session: SessionId) -> bool
    requires { s < length store.now }
    ensures { result ≡ has_session kind session (slot_at s store.now).objects }
{
    match kind {
        Kind::Caller => store.session(s, session, Role::Caller).is_some(),
        Kind::Replier => store.session(s, session, Role::Replier).is_some(),
        _ => false,
    }
}
