//! The objects of a slot in the table.

ghost use Rattle.std.specs.Prelude.{◌≡◌, ◌<◌, length, option_copied, option_map};
ghost use Rattle.trdp_model.specs.Slots.{entry_under};
ghost use Rattle.trdp_store.specs.Acting.{slot_at};

use crate::store::Store;
use trdp_model::AnyObject;

/// The object of that handle in slot `s`; None where there is none.
pub fn object_of(store: &Store, s: u16, handle: u32) -> Option<&AnyObject>
    requires { s < length store.now }
    ensures { option_copied result
        ≡ option_map (λ entry. entry.object)
        (entry_under handle (slot_at s store.now).objects) }
{
    store.sound();
    let key = store.find(s, handle)?;
    store.get(key)
}
