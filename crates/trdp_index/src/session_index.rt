//! The index by session.

ghost use Rattle.std.specs.Prelude.{◌≡◌, ◌==◌, ℕ, ◌+◌, ◌<◌, ◌≤◌, length, max, Some, None};
ghost use Rattle.std.specs.Prelude.{if◌then◌else◌, IfOk, OnOk, OnErr, IsOk, is_some};
ghost use Rattle.trdp_base.specs.declared.session.SessionId.{SessionId};
ghost use Rattle.trdp_index.specs.declared.session_row.Role.{Role};
ghost use Rattle.trdp_index.specs.Ranks.{is_same};
ghost use Rattle.trdp_index.specs.Rows.{IsRising, with_row, without_rank, without_slot};
ghost use Rattle.trdp_index.specs.SessionRows.{session_rank, session_row_rank};
ghost use Rattle.trdp_index.specs.SessionRows.{session_row, session_key};
ghost use Rattle.trdp_index.specs.SessionIndexes.{empty_session_index};

use crate::row_list::{put_in, take_out};
use crate::search::{index_of, place_for};
use crate::session_row::{Role, SessionRow, session_rank};
use std::alloc::{AllocError, Global};
use std::marker::Model;
use trdp_base::SessionId;

/// Which object of a slot is open for a session, as its caller and as its replier.
#[derive(Drop)]
pub struct SessionIndex {
    /// The rows, by identifier, slot and role.
    rows: Vec<SessionRow>,
    /// How many rows it may have; the list has room for them.
    room: usize,
}

impl Model for SessionIndex {
    ghost use Rattle.std.specs.Prelude.{vec_capacity};
    ghost use Rattle.trdp_index.specs.Kept.{AreKept};
    ghost use Rattle.trdp_index.specs.SessionRows.{session_row_rank};
    ghost use Rattle.trdp_index.specs.SessionIndexes.{SessionIndexState};

    ghost Value = { SessionIndexState };

    ghost view = { λ i. record { rows = i.rows.items; room = i.room } };

    ghost invariant = { λ i. AreKept session_row_rank i.rows.items i.room (vec_capacity i.rows) };
}

impl SessionIndex {
    /// An index without rows, with room for `room` of them.
    ///
    /// # Errors
    /// [`AllocError`] where there is no memory for them.
    pub fn with_room(alloc: Global, room: usize) -> Result<SessionIndex, AllocError>
        ensures { IfOk result (λ index. index ≡ empty_session_index room) }
    {
        let rows = Vec::with_capacity(alloc, room)?;
        Ok(SessionIndex { rows, room })
    }

    /// Makes the room at least this large; all rows stay. It takes no memory where the room is
    /// already.
    ///
    /// # Errors
    /// [`AllocError`] where there is no memory; nothing has changed.
    pub fn grow(&mut self, room: usize) -> Result<(), AllocError>
        ensures ok { OnOk result (self.new ≡ record self.old { room = max self.old.room room }) }
        ensures err { OnErr result (self.new ≡ self.old) }
        ensures succeeds { room ≤ self.old.room → IsOk result }
    {
        if room <= self.room {
            return Ok(());
        }
        self.rows.reserve_exact(room - self.rows.len())?;
        self.room = room;
        Ok(())
    }

    /// How many rows it may have.
    pub fn room(&self) -> usize
        ensures { result ≡ self.now.room }
    {
        self.room
    }

    /// How many rows it has, at most as many as its room.
    pub fn len(&self) -> usize
        ensures count { result ≡ length self.now.rows }
        ensures within { result ≤ self.now.room }
    {
        self.rows.len()
    }

    /// The key of a slot's object that is open for a session in a role; None where there is none.
    pub fn get(&self, session: SessionId, slot: u16, role: Role) -> Option<usize>
        ensures { result ≡ session_key session slot role self.now.rows }
    {
        let index = index_of(&self.rows, session_rank(session, slot, role))?;
        Some(self.rows[index].key)
    }

    /// Adds the key of a slot's object that is open for a session in a role; all others stay. It
    /// takes no memory.
    pub fn insert(&mut self, session: SessionId, slot: u16, role: Role, key: usize)
        requires spare { length self.old.rows < self.old.room }
        requires fresh { session_key session slot role self.old.rows ≡ None }
        ensures rows { self.new
            ≡ record self.old {
              rows = with_row session_row_rank (session_row session slot role key)
                  self.old.rows;
            } }
        ensures keys { (other : SessionId) (t : ℕ) (its : Role)
            → session_key other t its self.new.rows
            ≡ (if is_same (session_rank session slot role) (session_rank other t its)
            then Some key
            else session_key other t its self.old.rows) }
        ensures count { length self.new.rows ≡ length self.old.rows + 1 }
    {
        let place = place_for(&self.rows, session_rank(session, slot, role));
        let row = SessionRow {
            session,
            slot,
            role,
            key,
        };
        put_in(&mut self.rows, place, row);
    }

    /// Takes away the key of a slot's object for a session in a role, and no other. Returns
    /// whether there was one.
    pub fn remove(&mut self, session: SessionId, slot: u16, role: Role) -> bool
        ensures there { result ≡ is_some (session_key session slot role self.old.rows) }
        ensures rows { self.new
            ≡ record self.old {
              rows = without_rank session_row_rank (session_rank session slot role) self.old.rows;
            } }
        ensures keys { (other : SessionId) (t : ℕ) (its : Role)
            → session_key other t its self.new.rows
            ≡ (if is_same (session_rank session slot role) (session_rank other t its)
            then None
            else session_key other t its self.old.rows) }
        ensures count { length self.old.rows
            ≡ length self.new.rows + (if result then 1 else 0) }
    {
        match index_of(&self.rows, session_rank(session, slot, role)) {
            Some(index) => {
                let _ = self.rows.remove(index);
                true
            }
            None => false,
        }
    }

    /// Takes away the keys of a slot's objects, in all sessions and both roles, and no others. It
    /// goes through the rows once.
    pub fn remove_slot(&mut self, slot: u16)
        ensures rows { self.new
            ≡ record self.old { rows = without_slot session_row_rank slot self.old.rows } }
        ensures keys { (other : SessionId) (t : ℕ) (its : Role)
            → session_key other t its self.new.rows
            ≡ (if t == slot then None else session_key other t its self.old.rows) }
    {
        take_out(&mut self.rows, slot);
    }

    /// What holds of every index: a law for callers, which does nothing when it runs. The rows rise
    /// by identifier, slot and role, so none has the three of another, and there is room for all.
    pub fn sound(&self)
        ensures rising { IsRising session_row_rank self.now.rows }
        ensures room { length self.now.rows ≤ self.now.room }
    {
        let _ = &self.rows;
    }
}
