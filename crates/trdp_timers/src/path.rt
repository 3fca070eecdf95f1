//! The way of a key up or down a heap, to where it belongs.
//!
//! The keys of the heap, their places and their orders are passed in, each as a slice.

ghost use Rattle.std.specs.Prelude.{◌≡◌, ◌≢◌, ◌<◌, ◌≤◌, ◌+◌, ◌-◌, ◌*◌, ◌/◌, ◌^◌, ℕ, List, length};
ghost use Rattle.std.specs.Prelude.{Option, Some, slice_index};
ghost use Rattle.trdp_timers.specs.Orders.{Leads};
ghost use Rattle.trdp_timers.specs.Heap.{order_at, IsHeap, CanRise, CanSink};
ghost use Rattle.trdp_timers.specs.Heap.{IsSwapped, IsPlaced, AllSet};
ghost use Rattle.trdp_timers.specs.Costs.{CanCountUp, CanCountDown};

use crate::order::{Order, acts_before};

/// The order of the key at a place.
pub fn order_of(keys: &[usize], orders: &[Option<Order>], place: usize) -> Order
    requires set { AllSet orders.now keys.now }
    requires place { place < length keys.now }
    ensures { Some result ≡ order_at orders.now keys.now place }
{
    orders[keys[place]].unwrap()
}

/// Exchanges the keys at two places.
fn exchange(keys: &mut [usize], places: &mut [usize], a: usize, b: usize)
    requires a { a < length keys.old }
    requires b { b < length keys.old }
    requires apart { a ≢ b }
    requires within { (i : ℕ) → i < length keys.old → slice_index keys.old i < length places.old }
    ensures count { length keys.new ≡ length keys.old }
    ensures room { length places.new ≡ length places.old }
    ensures swapped { (orders : List (Option Order))
        → IsSwapped (order_at orders keys.old) (order_at orders keys.new) a b }
    ensures placed { (orders : List (Option Order)) → IsPlaced orders keys.old places.old
        → IsPlaced orders keys.new places.new }
{
    let first = keys[a];
    let second = keys[b];
    keys[a] = second;
    keys[b] = first;
    places[first] = b;
    places[second] = a;
}

/// Exchanges the key at a place with the one above it, as long as it acts before that.
pub fn rise(
    keys: &mut [usize],
    places: &mut [usize],
    orders: &[Option<Order>],
    place: usize,
    probes: &mut u64,
)
    requires place { place < length keys.old }
    requires placed { IsPlaced orders.now keys.old places.old }
    requires order { CanRise (length keys.old) (order_at orders.now keys.old) place }
    requires probes { CanCountUp place probes.old }
    ensures placed { IsPlaced orders.now keys.new places.new }
    ensures order { IsHeap (length keys.new) (order_at orders.now keys.new) }
    ensures count { length keys.new ≡ length keys.old }
    ensures places { length places.new ≡ length places.old }
    ensures cost { (b : ℕ) → place + 1 < 2 ^ b → probes.new ≤ probes.old + b }
    ensures least { probes.old ≤ probes.new }
{
    let own = order_of(keys, orders, place);
    let mut place = place;
    while place > 0 {
        let above = (place - 1) / 2;
        if !acts_before(Some(own), Some(order_of(keys, orders, above)), probes) {
            return;
        }
        exchange(keys, places, place, above);
        place = above;
    }
}

/// That one of the two places below a place whose key acts first.
fn first_below(keys: &[usize], orders: &[Option<Order>], place: usize, probes: &mut u64) -> usize
    requires set { AllSet orders.now keys.now }
    requires place { 2 * place + 1 < length keys.now }
    requires probes { probes.old + 1 < 2 ^ 64 }
    ensures within { result < length keys.now }
    ensures below { 2 * place + 1 ≤ result }
    ensures child { result ≤ 2 * place + 2 }
    ensures first { (i : ℕ) → 0 < i → i < length keys.now → (i - 1) / 2 ≡ place
        → Leads (order_at orders.now keys.now result) (order_at orders.now keys.now i) }
    ensures cost { probes.new ≤ probes.old + 1 }
    ensures least { probes.old ≤ probes.new }
{
    let left = 2 * place + 1;
    let right = left + 1;
    if right >= keys.len() {
        return left;
    }
    let (own, other) = (order_of(keys, orders, left), order_of(keys, orders, right));
    if acts_before(Some(other), Some(own), probes) {
        return right;
    }
    left
}

/// Exchanges the key at a place with the first of those below it until none is below it, and
/// returns the place where it is then. It isn't compared on the way: a key that acts later
/// than before mostly acts late, so that it has little to rise from there.
pub fn sink(
    keys: &mut [usize],
    places: &mut [usize],
    orders: &[Option<Order>],
    place: usize,
    probes: &mut u64,
) -> usize
    requires place { place < length keys.old }
    requires placed { IsPlaced orders.now keys.old places.old }
    requires order { CanSink (length keys.old) (order_at orders.now keys.old) place }
    requires probes { CanCountDown (length keys.old) place probes.old }
    ensures place { result < length keys.new }
    ensures placed { IsPlaced orders.now keys.new places.new }
    ensures order { CanRise (length keys.new) (order_at orders.now keys.new) result }
    ensures count { length keys.new ≡ length keys.old }
    ensures places { length places.new ≡ length places.old }
    ensures cost { (b : ℕ) → length keys.old < (place + 1) * 2 ^ b → probes.new ≤ probes.old + b }
    ensures least { probes.old ≤ probes.new }
{
    let mut place = place;
    while place < keys.len() / 2 {
        let below = first_below(keys, orders, place, probes);
        exchange(keys, places, place, below);
        place = below;
    }
    place
}
