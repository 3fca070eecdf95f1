//! The lines of an event's records.

ghost use Rattle.std.specs.Prelude.{◌≡◌, ◌≢◌, ◌++◌, [], OnOk, OnErr};
ghost use Rattle.std.specs.List.{flat_map};
ghost use Rattle.trdp_text.specs.RecordText.{text_of_record};
ghost use Rattle.trdp_outbox.specs.SlotOrder.{by_slot};

use crate::print::print_record;
use std::alloc::AllocError;
use trdp_outbox::Outbox;

/// Appends the lines of records slot by slot, slots rising, each slot's in their order.
///
/// # Errors
/// `AllocError` where there is no room for one of them; the list's items are as before.
pub fn print_records(text: &mut Vec<u8>, records: &Outbox) -> Result<(), AllocError>
    ensures ok { OnOk result (text.new.items
        ≡ text.old.items ++ flat_map text_of_record (by_slot records.now.records)) }
    ensures err { OnErr result (text.new.items ≡ text.old.items) }
    ensures some { OnErr result (flat_map text_of_record (by_slot records.now.records) ≢ []) }
{
    let before = text.len();
    for record in records.by_slot() {
        if let Err(refused) = print_record(text, &record) {
            text.truncate(before);
            return Err(refused);
        }
    }
    Ok(())
}
