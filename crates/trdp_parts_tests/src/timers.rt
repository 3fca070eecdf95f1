//! Worked examples: which key acts first, what is due, and the comparisons of each call.

use crate::same::same;
use std::process::Abort;
use std::test::Fail;
use trdp_timers::{Order, Timers};

/// An order as its due moment, slot and handle.
type Parts = (u64, u16, u32);

/// A call, with its result.
#[derive(Clone, Copy)]
enum Does {
    /// The key gets this order.
    Set(usize, Parts),
    /// The key has no order from now on.
    Clear(usize),
    /// This key is shown as the first, with its order.
    First(Option<(usize, Parts)>),
    /// This key is taken out as the first, with its order.
    Pop(Option<(usize, Parts)>),
    /// By this moment keys of this total size are due, and this many.
    DueTotals(u64, (u64, u64)),
}

/// Calls with their comparisons, on timers with room for eight keys: one with the order that was
/// at the index before, and those on the way down and up the heap.
static ROWS: [(Does, u64); 20] = [
    (Does::Set(0, (60, 0, 1)), 1),
    (Does::Set(1, (50, 0, 2)), 2),
    (Does::Set(2, (40, 1, 1)), 2),
    (Does::Set(3, (30, 1, 2)), 3),
    (Does::Set(4, (20, 2, 1)), 3),
    (Does::Set(5, (20, 1, 3)), 3),
    (Does::Set(4, (70, 2, 1)), 2),
    (Does::Set(2, (10, 1, 1)), 3),
    (Does::Clear(5), 3),
    (Does::Clear(5), 0),
    (Does::Clear(8), 0),
    (Does::First(Some((2, (10, 1, 1)))), 0),
    (Does::Pop(Some((2, (10, 1, 1)))), 3),
    (Does::Pop(Some((3, (30, 1, 2)))), 3),
    (Does::DueTotals(50, (2, 1)), 3),
    (Does::DueTotals(29, (0, 0)), 1),
    (Does::Pop(Some((1, (50, 0, 2)))), 2),
    (Does::Pop(Some((0, (60, 0, 1)))), 1),
    (Does::Pop(Some((4, (70, 2, 1)))), 0),
    (Does::Pop(None), 0),
];

/// The order of these parts.
fn order(parts: Parts) -> Order {
    Order {
        due: parts.0,
        slot: parts.1,
        handle: parts.2,
    }
}

/// The key with the order of its parts.
fn found(wanted: Option<(usize, Parts)>) -> Option<(usize, Order)> {
    match wanted {
        Some((key, parts)) => Some((key, order(parts))),
        None => None,
    }
}

/// Makes the call, and asserts its result.
fn act(rt: &(impl Abort + AllocGlobal), timers: &mut Timers, case: usize, does: Does) {
    match does {
        Does::Set(key, parts) => {
            assert!(rt; key < timers.room());
            timers.set(key, order(parts));
        }
        Does::Clear(key) => timers.clear(key),
        Does::First(wanted) => same(rt, case, timers.first(), found(wanted)),
        Does::Pop(wanted) => same(rt, case, timers.pop(), found(wanted)),
        Does::DueTotals(t, wanted) => {
            assert!(rt; timers.room() <= 8);
            let totals = timers.due_totals(t, &[1, 2, 4, 8, 16, 32, 64, 128], &[1; 8]);
            same(rt, case, totals, wanted);
            let total = timers.due_total(t, &[1, 2, 4, 8, 16, 32, 64, 128]);
            same(rt, case, total, wanted.0);
        }
    }
}

#[test]
fn calls_have_their_comparisons(rt: HostRuntime) -> Result<(), Fail> {
    let mut timers = Timers::with_room(rt.alloc(), 8)?;
    for (case, (does, probes)) in ROWS.iter().enumerate() {
        act(&rt, &mut timers, case, *does);
        same(&rt, case, timers.probes(), *probes);
    }
    Ok(())
}

/// Calls on timers with room for three keys, which come in the order of due moment, slot and
/// handle.
static ORDERED: [Does; 9] = [
    Does::Set(0, (5, 1, 1)),
    Does::Set(1, (5, 0, 2)),
    Does::Set(2, (4, 1, 9)),
    Does::DueTotals(5, (7, 3)),
    Does::DueTotals(4, (4, 1)),
    Does::Pop(Some((2, (4, 1, 9)))),
    Does::Pop(Some((1, (5, 0, 2)))),
    Does::Pop(Some((0, (5, 1, 1)))),
    Does::Pop(None),
];

/// Calls once there is room for five.
static GROWN: [Does; 3] = [
    Does::Set(4, (1, 1, 1)),
    Does::Clear(3),
    Does::First(Some((4, (1, 1, 1)))),
];

/// Makes the calls in turn.
fn act_all(rt: &(impl Abort + AllocGlobal), timers: &mut Timers, calls: &[Does]) {
    for (case, does) in calls.iter().enumerate() {
        act(rt, timers, case, *does);
    }
}

#[test]
fn keys_come_by_due_moment_slot_and_handle(rt: HostRuntime) -> Result<(), Fail> {
    let mut timers = Timers::with_room(rt.alloc(), 3)?;
    act_all(&rt, &mut timers, &ORDERED);
    timers.grow(5)?;
    act_all(&rt, &mut timers, &GROWN);
    assert!(rt; timers.room() == 5);
    Ok(())
}

// No memory is enough for that many keys.
#[test]
fn refused_growth_changes_nothing(rt: HostRuntime) -> Result<(), Fail> {
    let mut timers = Timers::with_room(rt.alloc(), 2)?;
    timers.set(1, order((7, 0, 1)));
    assert!(rt; timers.grow(usize::MAX / 64).is_err());
    assert!(rt; timers.room() == 2);
    same(
        &rt,
        "the only key",
        timers.pop(),
        Some((1, order((7, 0, 1)))),
    );
    Ok(())
}
