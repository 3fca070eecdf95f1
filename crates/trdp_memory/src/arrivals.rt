//! What is to arrive at a wire in memory.

ghost use Rattle.std.specs.Prelude.{◌≡◌, ◌≤◌, ◌++◌, take, drop, length, IfOk, IfSome, OnErr, ◌<◌};
ghost use Rattle.std.specs.Prelude.{if◌then◌else◌, ◌&&◌, false, ℕ, List, None, Ok};
ghost use Rattle.std.specs.List.{position, count_by};
ghost use Rattle.trdp_wire.specs.Told.{has_failed, arrival_in, arrived_in};
ghost use Rattle.trdp_memory.specs.MemoryWires.{ArrivalModel, arrival_for, arrives_at, is_failing};
ghost use Rattle.trdp_wire.specs.Failures.{failure_after, one_more_if};
ghost use Rattle.trdp_memory.specs.MemoryWires.{ends_at, room_after};
ghost use Rattle.trdp_wire.specs.Ports.{is_port};
ghost use Rattle.trdp_memory.specs.Rows.{IsLaidDown, arrived_of};

use crate::rows::{TakeAnswer, TakeRow};
use std::marker::Model;
use trdp_base::Place;
use trdp_wire::{Port, WireFault, fail};

/// A datagram that is to arrive.
#[derive(Drop)]
pub(crate) struct Arrival {
    /// The port that it arrives at.
    pub(crate) port: Port,
    /// The number of the take at that port at which it arrives, from 1.
    pub(crate) at_take: usize,
    /// Where it comes from.
    pub(crate) from: Place,
    /// Its bytes.
    pub(crate) bytes: Vec<u8>,
    /// Whether it is the end of the application there.
    pub(crate) ends: bool,
}

impl Model for Arrival {
    ghost use Rattle.trdp_memory.specs.MemoryWires.{ArrivalModel};

    ghost Value = { ArrivalModel };

    ghost view = { λ a. record {
      port = a.port;
      at_take = a.at_take;
      from = a.from;
      bytes = a.bytes.items;
      ends = a.ends;
    } };
}

impl Arrival {
    /// Whether it arrives at that take at a port.
    fn is_at(&self, port: Port, number: usize) -> bool
        ensures { result ≡ arrives_at port number self.now }
    {
        self.port.is(port) && self.at_take == number
    }
}

/// Whether a call with that number is to fail.
#[tactic(auto, unfolding(crate::specs::MemoryWires::is_failing))]
pub(crate) fn is_failing(numbers: &[usize], number: usize) -> bool
    ensures { result ≡ is_failing numbers.now number }
{
    numbers.iter().any(|n| *n == number)
}

/// The number of takes that were made at a port.
pub(crate) fn takes_at(taken: &[TakeRow], port: Port) -> usize
    ensures { result ≡ count_by (λ row. is_port row.port port) taken.now }
{
    taken.iter().filter(|row| row.port.is(port)).count()
}

/// The index of what arrives at that take at a port, the first of several; None if nothing does.
fn arrival_index(arrivals: &[Arrival], port: Port, number: usize) -> Option<usize>
    ensures { result ≡ position (arrives_at port number) arrivals.now }
{
    arrivals
        .iter()
        .position(|arrival| arrival.is_at(port, number))
}

/// Whether what arrives at that take at a port is the end of an application.
fn is_end_at(arrivals: &[Arrival], port: Port, number: usize) -> bool
    ensures { result ≡ ends_at arrivals.now port number }
{
    match arrival_index(arrivals, port, number) {
        None => false,
        Some(index) => {
            let arrival = &arrivals[index];
            arrival.ends
        }
    }
}

/// Whether a take returns the end of an application; false if ends aren't looked for.
pub(crate) fn hands_end(
    arrivals: &[Arrival],
    looks: bool,
    fails: bool,
    port: Port,
    number: usize,
) -> bool
    ensures { result ≡ (looks && (if fails then false else ends_at arrivals.now port number)) }
{
    looks && !fails && is_end_at(arrivals, port, number)
}

/// What the take with that number at a port answers, and what its row keeps of that; `fails` makes
/// it fail.
///
/// # Errors
/// `WireFault` if the take is to fail, unless the count of failures is at its last value.
pub(crate) fn answer_take(
    arrivals: &[Arrival],
    failures: &mut u64,
    fails: bool,
    port: Port,
    number: usize,
    room: &mut [u8],
) -> (TakeAnswer, Result<Option<(Place, usize)>, WireFault>)
    ensures arrived { arrived_in result.1 room.new ≡ (if fails then failure_after failures.old
        else arrival_for arrivals.now port number (length room.old)) }
    ensures told { arrived_of arrivals.now result.0 ≡ arrived_in result.1 room.new }
    ensures known { IsLaidDown (length arrivals.now) result.0 }
    ensures within { IfOk result.1 (λ found. IfSome found (λ f. f.1 ≤ length room.new)) }
    ensures fault { OnErr result.1 (failures.old < failures.new) }
    ensures failures { failures.new
        ≡ one_more_if (has_failed (arrived_in result.1 room.new)) failures.old }
    ensures room { room.new ≡ room_after (arrived_in result.1 room.new) room.old }
{
    if fails {
        return failing_take(failures);
    }
    let (answer, found) = take_arrival(arrivals, port, number, room);
    (answer, Ok(found))
}

/// What a take answers that is to fail, and what its row keeps of that.
///
/// # Errors
/// `WireFault`, unless the count of failures is at its last value.
#[tactic(auto, unfolding(trdp_wire::specs::Failures::failure_after, trdp_wire::specs::Failures::one_more_if, crate::specs::MemoryWires::room_after))]
pub(crate) fn failing_take(
    failures: &mut u64,
) -> (TakeAnswer, Result<Option<(Place, usize)>, WireFault>)
    ensures arrived { (room : List ℕ) → arrived_in result.1 room ≡ failure_after failures.old }
    ensures told { (room : List ℕ) (arrivals : List ArrivalModel)
        → arrived_of arrivals result.0 ≡ arrived_in result.1 room }
    ensures nothing { IfOk result.1 (λ found. found ≡ None) }
    ensures known { (n : ℕ) → IsLaidDown n result.0 }
    ensures fault { OnErr result.1 (failures.old < failures.new) }
    ensures unfilled { (room : List ℕ) → room ≡ room_after (arrived_in result.1 room) room }
    ensures failures { (room : List ℕ) → failures.new
        ≡ one_more_if (has_failed (arrived_in result.1 room)) failures.old }
{
    match fail(failures) {
        Ok(()) => (TakeAnswer::Nothing, Ok(None)),
        Err(fault) => (TakeAnswer::Failed, Err(fault)),
    }
}

/// What arrives at that take at a port, and what its row keeps of that.
#[tactic(auto, unfolding(trdp_wire::specs::Failures::one_more_if))]
fn take_arrival(
    arrivals: &[Arrival],
    port: Port,
    number: usize,
    room: &mut [u8],
) -> (TakeAnswer, Option<(Place, usize)>)
    ensures arrived { arrival_in result.1 room.new
        ≡ arrival_for arrivals.now port number (length room.old) }
    ensures told { arrived_of arrivals.now result.0 ≡ arrival_in result.1 room.new }
    ensures known { IsLaidDown (length arrivals.now) result.0 }
    ensures within { IfSome result.1 (λ found. found.1 ≤ length room.new) }
    ensures works { (failures : ℕ)
        → failures ≡ one_more_if (has_failed (arrival_in result.1 room.new)) failures }
    ensures room { room.new ≡ room_after (arrival_in result.1 room.new) room.old }
{
    match arrival_index(arrivals, port, number) {
        None => (TakeAnswer::Nothing, None),
        Some(index) => {
            let arrival = &arrivals[index];
            let len = fill(room, &arrival.bytes);
            (TakeAnswer::Came(index, len), Some((arrival.from, len)))
        }
    }
}

/// Puts as many of these bytes at the front of the room as it holds, and returns their number.
pub(crate) fn fill(room: &mut [u8], bytes: &[u8]) -> usize
    ensures within { result ≤ length room.new }
    ensures bytes { take result room.new ≡ take (length room.old) bytes.now }
    ensures cut { take result bytes.now ≡ take result room.new }
    ensures rest { room.new
        ≡ take result room.new ++ drop (length (take result room.new)) room.old }
{
    let len = room.len().min(bytes.len());
    let (bytes, _) = bytes.split_at(len);
    let (front, _) = room.split_at_mut(len);
    front.copy_from_slice(bytes);
    len
}
