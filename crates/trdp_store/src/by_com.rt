//! Under which comId telegrams look for an object, and its row in the index by comId.

ghost use Rattle.std.specs.Prelude.{◌≡◌, ℕ, ◌<◌, length, false, true, IfSome, OnSome, ◌+◌, Option};
ghost use Rattle.trdp_index.specs.ComRows.{run_of, has_com_row};
ghost use Rattle.trdp_store.specs.Indexed.{com_of, run_with, run_without, one_if_some};

use trdp_index::{ComIndex, ComRow};
use trdp_model::AnyObject;

/// The comId, or any, under which telegrams look for the object; None for one that isn't looked
/// for by comId.
pub fn com_of(object: &AnyObject) -> Option<Option<u32>>
    ensures { result ≡ com_of object.now }
{
    match object {
        AnyObject::Publisher(publisher) => Some(Some(publisher.com_id())),
        AnyObject::Subscription(subscription) => Some(Some(subscription.com_id())),
        AnyObject::Listener(listener) => Some(listener.com_id()),
        AnyObject::Requester(_) | AnyObject::Caller(_) | AnyObject::Replier(_) => None,
    }
}

/// Adds a row for a new object to the index, if telegrams look for it by comId.
pub fn enlist(coms: &mut ComIndex, sought: Option<Option<u32>>, slot: u16, handle: u32, key: usize)
    requires spare { OnSome sought (length coms.old.rows < coms.old.room) }
    requires fresh { IfSome sought
        (λ com_id. has_com_row com_id slot handle coms.old.rows ≡ false) }
    ensures runs { (com_id : Option ℕ) → run_of com_id coms.new.rows
        ≡ run_with sought slot handle key com_id (run_of com_id coms.old.rows) }
    ensures count { length coms.new.rows ≡ length coms.old.rows + one_if_some sought }
    ensures room { coms.new.room ≡ coms.old.room }
{
    if let Some(com_id) = sought {
        coms.insert(ComRow {
            com_id,
            slot,
            handle,
            key,
        });
    }
}

/// Takes the row of an object out of the index, if telegrams look for it by comId.
pub fn delist(coms: &mut ComIndex, sought: Option<Option<u32>>, slot: u16, handle: u32)
    requires there { IfSome sought (λ com_id. has_com_row com_id slot handle coms.old.rows ≡ true) }
    ensures runs { (com_id : Option ℕ) → run_of com_id coms.new.rows
        ≡ run_without sought slot handle (run_of com_id coms.old.rows) }
    ensures count { length coms.old.rows ≡ length coms.new.rows + one_if_some sought }
    ensures room { coms.new.room ≡ coms.old.room }
{
    if let Some(com_id) = sought {
        coms.remove(com_id, slot, handle);
    }
}
