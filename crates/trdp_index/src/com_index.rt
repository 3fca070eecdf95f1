//! The index by comId.

ghost use Rattle.std.specs.Prelude.{◌≡◌, ℕ, ◌+◌, ◌*◌, ◌^◌, ◌<◌, ◌≤◌, length, max, false};
ghost use Rattle.std.specs.Prelude.{Option, if◌then◌else◌, IfOk, OnOk, OnErr, IsOk};
ghost use Rattle.trdp_index.specs.Rows.{IsRising, with_row, without_rank, without_slot};
ghost use Rattle.trdp_index.specs.ComRows.{com_rank, com_row_rank, is_same_com};
ghost use Rattle.trdp_index.specs.ComRows.{run_of, has_com_row};
ghost use Rattle.trdp_index.specs.ComIndexes.{empty_com_index};

use crate::com_row::{ComRow, com_end, com_rank, com_start};
use crate::ranked::Ranked;
use crate::row_list::{put_in, take_out};
use crate::search::{index_of, lower_bound, place_for};
use std::alloc::{AllocError, Global};
use std::marker::Model;

/// Which objects telegrams of a comId may be for: at most one row for each comId (or "any comId"),
/// slot and handle.
#[derive(Drop)]
pub struct ComIndex {
    /// The rows: those of any comId first, then by rising comId; those of one comId by slot and
    /// handle.
    rows: Vec<ComRow>,
    /// How many rows it may have; the list has room for them.
    room: usize,
}

impl Model for ComIndex {
    ghost use Rattle.std.specs.Prelude.{vec_capacity};
    ghost use Rattle.trdp_index.specs.Kept.{AreKept};
    ghost use Rattle.trdp_index.specs.ComRows.{com_row_rank};
    ghost use Rattle.trdp_index.specs.ComIndexes.{ComIndexState};

    ghost Value = { ComIndexState };

    ghost view = { λ i. record { rows = i.rows.items; room = i.room } };

    ghost invariant = { λ i. AreKept com_row_rank i.rows.items i.room (vec_capacity i.rows) };
}

impl ComIndex {
    /// An index without rows, with room for `room` of them.
    ///
    /// # Errors
    /// [`AllocError`] where there is no memory for them.
    pub fn with_room(alloc: Global, room: usize) -> Result<ComIndex, AllocError>
        ensures { IfOk result (λ index. index ≡ empty_com_index room) }
    {
        let rows = Vec::with_capacity(alloc, room)?;
        Ok(ComIndex { rows, room })
    }

    /// Makes the room at least this large; all rows stay. It takes no memory where the room is
    /// already.
    ///
    /// # Errors
    /// [`AllocError`] where there is no memory; nothing has changed.
    pub fn grow(&mut self, room: usize) -> Result<(), AllocError>
        ensures ok { OnOk result (self.new ≡ record self.old { room = max self.old.room room }) }
        ensures err { OnErr result (self.new ≡ self.old) }
        ensures succeeds { room ≤ self.old.room → IsOk result }
    {
        if room <= self.room {
            return Ok(());
        }
        self.rows.reserve_exact(room - self.rows.len())?;
        self.room = room;
        Ok(())
    }

    /// How many rows it may have.
    pub fn room(&self) -> usize
        ensures { result ≡ self.now.room }
    {
        self.room
    }

    /// How many rows it has, at most as many as its room.
    pub fn len(&self) -> usize
        ensures count { result ≡ length self.now.rows }
        ensures within { result ≤ self.now.room }
    {
        self.rows.len()
    }

    /// Whether it has a row of that comId, or any, with that slot and handle.
    pub fn has(&self, com_id: Option<u32>, slot: u16, handle: u32) -> bool
        ensures { result ≡ has_com_row com_id slot handle self.now.rows }
    {
        index_of(&self.rows, com_rank(com_id, slot, handle)).is_some()
    }

    /// Adds a row, in its place, also in the run of its comId, or of any; all other runs stay. It
    /// takes no memory.
    pub fn insert(&mut self, row: ComRow)
        requires spare { length self.old.rows < self.old.room }
        requires fresh { has_com_row row.com_id row.slot row.handle self.old.rows ≡ false }
        ensures rows { self.new
            ≡ record self.old { rows = with_row com_row_rank row self.old.rows } }
        ensures runs { (com_id : Option ℕ) → run_of com_id self.new.rows
            ≡ (if is_same_com row.com_id com_id
            then with_row com_row_rank row (run_of com_id self.old.rows)
            else run_of com_id self.old.rows) }
        ensures count { length self.new.rows ≡ length self.old.rows + 1 }
    {
        let place = place_for(&self.rows, row.rank());
        put_in(&mut self.rows, place, row);
    }

    /// Takes away the row of that comId, or any, with that slot and handle, and no other. Returns
    /// whether there was one.
    pub fn remove(&mut self, com_id: Option<u32>, slot: u16, handle: u32) -> bool
        ensures there { result ≡ has_com_row com_id slot handle self.old.rows }
        ensures rows { self.new
            ≡ record self.old {
              rows = without_rank com_row_rank (com_rank com_id slot handle) self.old.rows;
            } }
        ensures runs { (other : Option ℕ) → run_of other self.new.rows
            ≡ without_rank com_row_rank (com_rank com_id slot handle) (run_of other self.old.rows) }
        ensures count { length self.old.rows
            ≡ length self.new.rows + (if result then 1 else 0) }
    {
        match index_of(&self.rows, com_rank(com_id, slot, handle)) {
            Some(index) => {
                let _ = self.rows.remove(index);
                true
            }
            None => false,
        }
    }

    /// Takes away the rows of a slot, and no others, also in the run of each comId, and of any. It
    /// goes through the rows once.
    pub fn remove_slot(&mut self, slot: u16)
        ensures rows { self.new
            ≡ record self.old { rows = without_slot com_row_rank slot self.old.rows } }
        ensures runs { (com_id : Option ℕ) → run_of com_id self.new.rows
            ≡ without_slot com_row_rank slot (run_of com_id self.old.rows) }
    {
        take_out(&mut self.rows, slot);
    }

    /// The rows of a comId, or of any, by slot and handle. It adds its comparisons of two rows to
    /// the number.
    pub fn run(&self, com_id: Option<u32>, comparisons: &mut u64) -> &[ComRow]
        requires { comparisons.old ≤ 2 ^ 32 }
        ensures rows { result.now ≡ run_of com_id self.now.rows }
        ensures rising { IsRising com_row_rank result.now }
        ensures cost { (b : ℕ) → length self.now.rows < 2 ^ b
            → comparisons.new ≤ comparisons.old + 2 * b }
        ensures least { 0 < length self.now.rows → comparisons.old < comparisons.new }
        ensures kept { comparisons.old ≤ comparisons.new }
    {
        let start = lower_bound(&self.rows, com_start(com_id), comparisons);
        let (_, rest) = self.rows.split_at(start);
        let count = lower_bound(rest, com_end(com_id), comparisons);
        let (run, _) = rest.split_at(count);
        run
    }

    /// What holds of every index: a law for callers, which does nothing when it runs. The rows rise
    /// by comId, slot and handle, so none has the three of another, and there is room for all.
    pub fn sound(&self)
        ensures rising { IsRising com_row_rank self.now.rows }
        ensures room { length self.now.rows ≤ self.now.room }
    {
        let _ = &self.rows;
    }
}
