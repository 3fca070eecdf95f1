//! Worked examples: runs by comId, sessions by slot and role, growth and removal.

use crate::same::same;
use std::process::Abort;
use std::test::Fail;
use trdp_base::SessionId;
use trdp_index::{ComIndex, ComRow, Role, SessionIndex};

/// Rows of four comIds, in no order: comId, slot, handle and key, which is the row's index in the
/// order of all.
static ROWS: [(Option<u32>, u16, u32, usize); 8] = [
    (Some(200), 0, 1, 5),
    (Some(100), 1, 1, 4),
    (None, 1, 7, 1),
    (Some(100), 0, 9, 3),
    (Some(4_294_967_295), 15, 4_294_967_295, 7),
    (None, 0, 8, 0),
    (Some(200), 0, 2, 6),
    (Some(0), 0, 3, 2),
];

/// A comId, the key of its first row, how many rows it has, and the comparisons of two searches,
/// each of which halves the rows that are left. They look for the first row of the comId, and for
/// the first after its rows among those from there on.
type Run = (Option<u32>, usize, usize, u64);

static RUNS: [Run; 8] = [
    // Of 8 rows, the middle being the fifth: 4 and 3.
    (None, 0, 2, 7),
    // 3, and 3 of 6 rows.
    (Some(0), 2, 1, 6),
    // 3, and 3 of 5 rows.
    (Some(1), 0, 0, 6),
    // 3, and 2 of 5 rows.
    (Some(100), 3, 2, 5),
    // 3, and 2 of 3 rows.
    (Some(101), 0, 0, 5),
    (Some(200), 5, 2, 5),
    // 3, and 1 of one row.
    (Some(4_294_967_294), 0, 0, 4),
    (Some(4_294_967_295), 7, 1, 4),
];

/// A row.
fn row(com_id: Option<u32>, slot: u16, handle: u32, key: usize) -> ComRow {
    ComRow {
        com_id,
        slot,
        handle,
        key,
    }
}

/// Adds a row, for which there is room and which isn't there yet.
fn add(rt: &impl Abort, index: &mut ComIndex, row: ComRow) {
    assert!(rt; index.len() < index.room());
    assert!(rt; !index.has(row.com_id, row.slot, row.handle));
    index.insert(row);
    assert!(rt; index.has(row.com_id, row.slot, row.handle));
}

/// The run of a comId has that many rows, whose keys follow one another, and took that many
/// comparisons.
fn runs(
    rt: &(impl Abort + AllocGlobal),
    index: &ComIndex,
    case: usize,
    (com_id, first, rows, wanted): Run,
) {
    let mut comparisons = 0;
    let run = index.run(com_id, &mut comparisons);
    same(rt, case, run.len(), rows);
    same(rt, case, comparisons, wanted);
    let mut key = first;
    for row in run {
        assert!(rt; row.com_id == com_id);
        same(rt, case, row.key, key);
        key = key.saturating_add(1);
    }
}

/// Adds these rows.
fn add_all(rt: &impl Abort, index: &mut ComIndex, rows: &[(Option<u32>, u16, u32, usize)]) {
    for (com_id, slot, handle, key) in rows {
        add(rt, index, row(*com_id, *slot, *handle, *key));
    }
}

/// Removes each row, which is there once.
fn remove_all(rt: &(impl Abort + AllocGlobal), index: &mut ComIndex) {
    for (com_id, slot, handle, key) in &ROWS {
        let removed = index.remove(*com_id, *slot, *handle);
        let again = index.remove(*com_id, *slot, *handle);
        same(rt, *key, (removed, again), (true, false));
    }
    same(rt, "all are removed", index.len(), 0);
}

/// The room grows between the third row and the fourth, and every row stays.
#[test]
fn runs_by_com_id(rt: HostRuntime) -> Result<(), Fail> {
    let mut index = ComIndex::with_room(rt.alloc(), 3)?;
    runs(&rt, &index, 0, (Some(100), 0, 0, 0));
    let (first, others) = ROWS.split_at(3);
    add_all(&rt, &mut index, first);
    index.grow(8)?;
    same(&rt, "grown", (index.len(), index.room()), (3, 8));
    add_all(&rt, &mut index, others);
    for (case, run) in RUNS.iter().enumerate() {
        runs(&rt, &index, case, *run);
    }
    remove_all(&rt, &mut index);
    index.sound();
    Ok(())
}

/// Adds a key, for which there is room and which isn't there yet.
fn open(rt: &impl Abort, index: &mut SessionIndex, slot: u16, role: Role, key: usize) {
    assert!(rt; index.len() < index.room());
    assert!(rt; index.get(SessionId(1), slot, role).is_none());
    index.insert(SessionId(1), slot, role, key);
}

/// The contents of the index of two slots' sessions: session, slot, role and key.
static SESSIONS: [(u128, u16, Role, Option<usize>); 5] = [
    (1, 0, Role::Caller, Some(6)),
    (1, 1, Role::Caller, Some(5)),
    (1, 0, Role::Replier, Some(7)),
    (1, 1, Role::Replier, None),
    (2, 0, Role::Caller, None),
];

/// Each row is found as it says.
fn finds(
    rt: &(impl Abort + AllocGlobal),
    index: &SessionIndex,
    rows: &[(u128, u16, Role, Option<usize>)],
) {
    for (row, (session, slot, role, key)) in rows.iter().enumerate() {
        same(rt, row, index.get(SessionId(*session), *slot, *role), *key);
    }
}

#[test]
fn worked_sessions(rt: HostRuntime) -> Result<(), Fail> {
    let mut index = SessionIndex::with_room(rt.alloc(), 2)?;
    open(&rt, &mut index, 1, Role::Caller, 5);
    open(&rt, &mut index, 0, Role::Caller, 6);
    index.grow(4)?;
    same(&rt, "grown", (index.len(), index.room()), (2, 4));
    open(&rt, &mut index, 0, Role::Replier, 7);
    finds(&rt, &index, &SESSIONS);
    assert!(rt; index.remove(SessionId(1), 0, Role::Caller));
    assert!(rt; !index.remove(SessionId(1), 0, Role::Caller));
    finds(
        &rt,
        &index,
        &[(1, 0, Role::Caller, None), (1, 1, Role::Caller, Some(5))],
    );
    index.sound();
    Ok(())
}
