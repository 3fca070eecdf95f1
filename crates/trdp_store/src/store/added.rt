//! A slot is opened after the present ones.

ghost use Rattle.std.specs.Prelude.{◌≡◌, ◌<◌, ◌++◌, [], ◌∷◌, length, IfOk, OnOk, OnErr};
ghost use Rattle.trdp_model.specs.Slots.{slot_limit};
ghost use Rattle.trdp_table.specs.Tables.{opened_slot};

use crate::store::Store;
use std::alloc::AllocError;
use trdp_base::Quotas;
use trdp_outbox::Outbox;
use trdp_table::{Table, room_of};

/// Opens one more slot of a table that has fewer than 16, and returns its number.
fn add_slot(table: &mut Table, quotas: Quotas) -> Result<u16, AllocError>
    ensures slot { IfOk result (λ slot. slot ≡ length table.old) }
    ensures added { OnOk result (table.new ≡ table.old ++ opened_slot quotas ∷ []) }
    ensures kept { OnErr result (table.new ≡ table.old) }
{
    match table.add_slot(quotas) {
        Ok(slot) => Ok(slot),
        Err(_) => Err(AllocError),
    }
}

impl Store {
    /// Opens one more slot, empty, with these quotas, under the next number, and returns that
    /// number. It makes room for its record in the outbox. All memory is taken before the first
    /// change that shows: for the due moments, both indexes, the outbox, and last for the table,
    /// which opens the slot.
    ///
    /// # Errors
    /// [`AllocError`] where there is no such memory. What had grown before keeps its larger room,
    /// which nothing shows.
    pub fn open_slot(&mut self, quotas: Quotas, out: &mut Outbox) -> Result<u16, AllocError>
        requires { length self.old < slot_limit }
        ensures slot { IfOk result (λ slot. slot ≡ length self.old) }
        ensures opened { OnOk result (self.new ≡ self.old ++ opened_slot quotas ∷ []) }
        ensures kept { OnErr result (self.new ≡ self.old) }
        ensures records { out.new.records ≡ out.old.records }
        ensures room { OnOk result (0 < out.new.row_room) }
    {
        self.table.sound();
        let room = self.table.room() + room_of(quotas);
        self.schedule.grow(room)?;
        self.coms.grow(room)?;
        self.sessions.grow(room)?;
        out.reserve(1, 0)?;
        let slot = add_slot(&mut self.table, quotas)?;
        Ok(slot)
    }
}
