//! In which session an object is, and its key in the index by session.

ghost use Rattle.std.specs.Prelude.{◌≡◌, ℕ, ◌<◌, length, true, None, is_some};
ghost use Rattle.std.specs.Prelude.{IfSome, OnSome, ◌+◌};
ghost use Rattle.trdp_base.specs.declared.session.SessionId.{SessionId};
ghost use Rattle.trdp_index.specs.declared.session_row.Role.{Role};
ghost use Rattle.trdp_index.specs.SessionRows.{session_key};
ghost use Rattle.trdp_store.specs.Indexed.{one_if_some};
ghost use Rattle.trdp_store.specs.InSession.{own_session, key_with, key_without};

use trdp_base::SessionId;
use trdp_index::{Role, SessionIndex};
use trdp_model::AnyObject;

/// The session of a caller or replier, and its role there; None for all others.
pub fn session_of(object: &AnyObject) -> Option<(SessionId, Role)>
    ensures { result ≡ own_session object.now }
{
    match object {
        AnyObject::Caller(caller) => Some((caller.session(), Role::Caller)),
        AnyObject::Replier(replier) => Some((replier.session(), Role::Replier)),
        _ => None,
    }
}

/// Adds the key of a new object to the index, if it is in a session.
pub fn enter(sessions: &mut SessionIndex, own: Option<(SessionId, Role)>, slot: u16, key: usize)
    requires spare { OnSome own (length sessions.old.rows < sessions.old.room) }
    requires fresh { IfSome own (λ its. session_key its.0 slot its.1 sessions.old.rows ≡ None) }
    ensures keys { (other : SessionId × Role) (t : ℕ)
        → session_key other.0 t other.1 sessions.new.rows
        ≡ key_with own slot key other t (session_key other.0 t other.1 sessions.old.rows) }
    ensures count { length sessions.new.rows ≡ length sessions.old.rows + one_if_some own }
    ensures room { sessions.new.room ≡ sessions.old.room }
{
    if let Some((session, role)) = own {
        sessions.insert(session, slot, role, key);
    }
}

/// Takes the key of an object out of the index, if it is in a session.
pub fn leave(sessions: &mut SessionIndex, own: Option<(SessionId, Role)>, slot: u16)
    requires there { IfSome own
        (λ its. is_some (session_key its.0 slot its.1 sessions.old.rows) ≡ true) }
    ensures keys { (other : SessionId × Role) (t : ℕ)
        → session_key other.0 t other.1 sessions.new.rows
        ≡ key_without own slot other t (session_key other.0 t other.1 sessions.old.rows) }
    ensures count { length sessions.old.rows ≡ length sessions.new.rows + one_if_some own }
    ensures room { sessions.new.room ≡ sessions.old.room }
{
    if let Some((session, role)) = own {
        sessions.remove(session, slot, role);
    }
}
