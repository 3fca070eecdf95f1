//! Handles, the last one too, keys and room of a table, and a slot that is added. Scripts show
//! which slots and objects a node accepts (`rows`).

use crate::same::same;
use std::alloc::{AllocError, Global};
use std::process::Abort;
use std::test::Fail;
use trdp_base::{Ip, Place, Quotas, Topo};
use trdp_model::{AnyObject, Kind};
use trdp_pd::{Requester, RequesterTerms};
use trdp_table::{Table, TableFault, room_of};

/// What is done to a table.
#[derive(Clone, Copy)]
enum Does {
    /// A slot for that many requesters is added, and this is its number.
    AddSlot(u16, u16),
    /// A requester of this comId is added to the slot, and this is the answer.
    Add(u16, u32, Result<u32, TableFault>),
    /// The slot's object of this handle is removed, and whether there was one.
    Remove(u16, u32, bool),
    /// The slot's next handle becomes at least this.
    Raise(u16, u32),
}

/// Two slots, and a third one that is added last; what is there stays. A key that is free again
/// gets the slot and the handle of its next object.
static ROWS: [Does; 14] = [
    Does::AddSlot(1, 0),
    Does::AddSlot(2, 1),
    Does::Add(0, 100, Ok(1)),
    Does::Add(0, 101, Err(TableFault::Quota)),
    Does::Remove(0, 1, true),
    Does::Remove(0, 1, false),
    Does::Add(1, 102, Ok(1)),
    Does::Raise(1, 4_294_967_295),
    Does::Add(1, 103, Ok(4_294_967_295)),
    Does::Remove(1, 1, true),
    Does::Add(1, 104, Err(TableFault::Exhausted)),
    Does::AddSlot(1, 2),
    Does::Add(2, 105, Ok(1)),
    Does::Remove(1, 4_294_967_295, true),
];

/// A requester of that comId.
fn requester(com_id: u32) -> AnyObject {
    AnyObject::Requester(Requester::new(&RequesterTerms {
        com_id,
        reply_com_id: 0,
        reply_ip: Ip(0),
        topo: Topo { etb: 0, op_trn: 0 },
        to: Place { ip: Ip(0), port: 0 },
    }))
}

/// The comId of a requester; None for another object.
fn com_id_of(object: &AnyObject) -> Option<u32> {
    match object {
        AnyObject::Requester(requester) => Some(requester.com_id()),
        _ => None,
    }
}

/// The comId of the requester of that key, to look at and to change.
fn com_ids(table: &mut Table, key: usize) -> Option<(Option<u32>, Option<u32>)> {
    let seen = com_id_of(table.get(key)?);
    let changed = com_id_of(table.get_mut(key)?);
    Some((seen, changed))
}

/// The requester of that handle and comId is the last of the slot, and is reached by its key.
fn stands_last(
    rt: &(impl Abort + AllocGlobal),
    table: &mut Table,
    slot: u16,
    handle: u32,
    com_id: u32,
) {
    assert!(rt; usize::from(slot) < table.slots());
    let last = table.count(slot).saturating_sub(1);
    let at = table.at(slot, last);
    let found = (table.find(slot, handle), table.find_near(slot, handle, at));
    same(rt, com_id, found, (at, at));
    let key = at.unwrap_or(table.room());
    same(rt, com_id, table.owner(key), Some((slot, handle)));
    let wanted = Some((Some(com_id), Some(com_id)));
    same(rt, com_id, com_ids(table, key), wanted);
}

/// Adds a requester, which gets a handle or comes back with the fault that `refuses` reported.
fn add(
    rt: &(impl Abort + AllocGlobal),
    table: &mut Table,
    slot: u16,
    com_id: u32,
) -> Result<u32, TableFault> {
    assert!(rt; usize::from(slot) < table.slots());
    let foretold = table.refuses(slot, Kind::Requester);
    match table.add(slot, requester(com_id)) {
        Ok(handle) => {
            stands_last(rt, table, slot, handle, com_id);
            Ok(handle)
        }
        Err((object, fault)) => {
            assert!(rt; foretold == Some(fault) && com_id_of(&object) == Some(com_id));
            Err(fault)
        }
    }
}

/// Removes an object, whose key belongs to no object then, and returns whether it was there.
fn remove(rt: &impl Abort, table: &mut Table, slot: u16, handle: u32) -> bool {
    assert!(rt; usize::from(slot) < table.slots());
    let key = table.find(slot, handle).unwrap_or(table.room());
    let removed = table.remove(slot, handle).is_some();
    removed && table.owner(key).is_none()
}

/// Adds a slot for that many requesters, for which the table gets room.
fn add_slot(table: &mut Table, requesters: u16) -> Option<(u16, bool)> {
    let quotas = Quotas::new([0, 0, requesters, 0, 0, 0])?;
    let room = table.room();
    let number = table.add_slot(quotas).ok()?;
    let more = table.room().saturating_sub(room);
    Some((number, more == room_of(quotas)))
}

/// Does this to the table, and asserts the result.
fn act(rt: &(impl Abort + AllocGlobal), table: &mut Table, case: usize, does: Does) {
    match does {
        Does::AddSlot(requesters, number) => {
            same(rt, case, add_slot(table, requesters), Some((number, true)));
        }
        Does::Add(slot, com_id, wanted) => same(rt, case, add(rt, table, slot, com_id), wanted),
        Does::Remove(slot, handle, there) => {
            same(rt, case, remove(rt, table, slot, handle), there);
        }
        Does::Raise(slot, next) => {
            assert!(rt; usize::from(slot) < table.slots());
            table.raise(slot, next);
        }
    }
}

/// Does all of it.
fn act_all(rt: &(impl Abort + AllocGlobal), table: &mut Table) {
    for (case, does) in ROWS.iter().enumerate() {
        act(rt, table, case, *does);
        table.sound();
    }
}

#[test]
fn tables_do_as_their_rows_say(rt: HostRuntime) -> Result<(), Fail> {
    let mut table = Table::new(rt.alloc(), &[])?;
    act_all(&rt, &mut table);
    Ok(())
}

/// The result of adding one more slot, again where memory was refused and nothing has changed.
fn added(rt: &impl Abort, table: &mut Table, quotas: Quotas) -> Result<u16, TableFault> {
    match table.add_slot(quotas) {
        Err(TableFault::OutOfMemory) => {
            assert!(rt; table.slots() == 2 && table.room() == 4);
            table.add_slot(quotas)
        }
        answer => answer,
    }
}

/// A table of two slots, made again where memory was refused.
fn two_slots(alloc: Global, two: Quotas) -> Result<Table, AllocError> {
    match Table::new(alloc, &[two, two]) {
        Ok(table) => Ok(table),
        Err(_) => Table::new(alloc, &[two, two]),
    }
}

/// It passes whichever single request for memory is refused.
#[test]
fn a_slot_is_added_again(rt: HostRuntime) -> Result<(), Fail> {
    let two = Quotas::new([2, 0, 0, 0, 0, 0]).ok_or("no quotas")?;
    let mut table = two_slots(rt.alloc(), two)?;
    same(&rt, "the third slot", added(&rt, &mut table, two), Ok(2));
    same(&rt, "slots and room", (table.slots(), table.room()), (3, 6));
    Ok(())
}
