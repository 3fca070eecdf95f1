//! The search for a handle.

ghost use Rattle.std.specs.Prelude.{◌≡◌, IfSome, None};
ghost use Rattle.trdp_table.specs.Entries.{entry_of, AreRising};
ghost use Rattle.trdp_table.specs.SlotKept.{IsIndexOfHandle};

use crate::entry::Entry;

/// The index of the entry of that handle, by a binary search: handles rise.
pub fn index_of(entries: &[Entry], handle: u32) -> Option<usize>
    requires { AreRising entries.now }
    ensures found { IfSome result (IsIndexOfHandle handle entries.now) }
    ensures absent { result ≡ None → entry_of handle entries.now ≡ None }
{
    entries
        .binary_search_by_key(&handle, |entry| entry.handle)
        .ok()
}
