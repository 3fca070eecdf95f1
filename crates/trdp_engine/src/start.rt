//! The parts of a new node.

ghost use Rattle.std.specs.Prelude.{◌≡◌, ◌≤◌, length, IfOk, map, vec_capacity};
ghost use Rattle.trdp_table.specs.Tables.{room_of};
ghost use Rattle.trdp_model.specs.Slots.{empty_slot};
ghost use Rattle.trdp_store.specs.TableSlots.{slots_of};

use std::alloc::{AllocError, Global};
use trdp_base::Quotas;
use trdp_datagrams::Addressee;
use trdp_dataset::NodeConfig;
use trdp_store::Store;

/// The quotas of each slot of the configuration.
///
/// # Errors
/// [`AllocError`] where there is no memory for the list.
fn quotas_of(alloc: Global, config: &NodeConfig) -> Result<Vec<Quotas>, AllocError>
    ensures quotas { IfOk result
        (λ quotas. quotas.items ≡ map (λ slot. slot.quotas) config.now.slots) }
    ensures few { IfOk result (λ quotas. length quotas.items ≤ 16) }
{
    let mut quotas = Vec::new(alloc);
    for s in 0..config.slots() {
        quotas.push(config.quotas(s).unwrap())?;
    }
    Ok(quotas)
}

/// The empty store of a configuration, and room to note as many objects as its quotas allow.
///
/// # Errors
/// [`AllocError`] where there is no memory for one of them.
pub fn parts(alloc: Global, config: &NodeConfig) -> Result<(Store, Vec<Addressee>), AllocError>
    ensures slots { IfOk result
        (λ parts. slots_of parts.0 ≡ map (λ slot. empty_slot slot.quotas) config.now.slots) }
    ensures capacity { IfOk result (λ parts. room_of parts.0 ≤ vec_capacity parts.1) }
{
    let quotas = quotas_of(alloc, config)?;
    let store = Store::new(alloc, &quotas)?;
    let noted = Vec::with_capacity(alloc, store.room())?;
    Ok((store, noted))
}
