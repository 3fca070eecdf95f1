//! A row is put in a list of rows, and the rows of a slot are taken out.

ghost use Rattle.std.specs.Prelude.{◌≡◌, ◌<◌, ◌≤◌, vec_len, vec_capacity, insert};
ghost use Rattle.trdp_index.specs.Rows.{without_slot};

use crate::ranked::Ranked;

/// Puts a row in at an index; those from there on move up by one. The list has room for it.
///
/// They move all at once: LLVM makes one `memmove` of this form, and of `Vec::insert` on rows like
/// these a move for each row.
pub fn put_in<R>(rows: &mut Vec<R>, place: usize, row: R)
    requires place { place ≤ vec_len rows.old }
    requires room { vec_len rows.old < vec_capacity rows.old }
    ensures items { rows.new.items ≡ insert rows.old.items place row }
    ensures capacity { vec_capacity rows.new ≡ vec_capacity rows.old }
{
    rows.push_reserved(row);
    let (_, behind) = rows.split_at_mut(place);
    behind.rotate_right(1);
}

/// Takes the rows of a slot out of the list; all others stay, in their order. It goes through the
/// list once.
pub fn take_out<R: Ranked + Drop>(rows: &mut Vec<R>, slot: u16)
    ensures items { rows.new.items ≡ without_slot R.rank_of slot rows.old.items }
    ensures capacity { vec_capacity rows.new ≡ vec_capacity rows.old }
{
    rows.retain(|row| row.rank().slot != slot);
}
