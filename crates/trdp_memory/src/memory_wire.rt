//! A wire in memory, for tests.

mod laid_down;

use crate::arrivals::{Arrival, answer_take, failing_take, hands_end, is_failing, takes_at};
use crate::no_way::keep_refusal;
use crate::offers::Offers;
use crate::rows::{GiveRow, Rest, TakeRow};
use crate::within_rooms::{fail_if, push_give, push_rest, push_take};
use std::alloc::{AllocError, Global};
use std::marker::Model;
use trdp_base::Place;
use trdp_wire::{GiveRefusal, Port, WatchedWire, Wire, WireFault, fail};

/// A wire over which what was laid down before arrives, and which remembers what it is given.
///
/// It has room for a number of takes, of gives and of bytes of gives. A call beyond one of these
/// rooms is a fault, and from then on it reports nothing. It never waits. Of the rests that it is
/// asked for it remembers the first, as many as it has room for takes.
#[derive(Drop)]
pub struct MemoryWire {
    /// Where what is laid down takes its memory from.
    alloc: Global,
    /// What is to arrive, in the order in which it was laid down.
    arrivals: Vec<Arrival>,
    /// Which takes fail, counted from 1 over all ports.
    failing_takes: Vec<usize>,
    /// Which gives fail, counted from 1 over all ports.
    failing_gives: Vec<usize>,
    /// The takes so far.
    taken: Vec<TakeRow>,
    /// The gives so far.
    given: Vec<GiveRow>,
    /// The bytes of the gives so far, joined in order.
    bytes: Vec<u8>,
    /// The first rests that it was asked for.
    rested: Vec<Rest>,
    /// How many more bytes of gives have room.
    byte_room: usize,
    /// How often it has failed, at most 2^64 - 1.
    failures: u64,
    /// The latest give at which it failed; None before the first.
    refusal: Option<GiveRefusal>,
    /// Whether it reports its takes and gives: no call was beyond its rooms.
    tells: bool,
}

impl Model for MemoryWire {
    ghost use Rattle.std.specs.Prelude.{◌≡◌, ◌≤◌, ◌+◌, ◌-◌, length, map, vec_capacity, vec_len};
    ghost use Rattle.trdp_memory.specs.MemoryWires.{MemoryWireState};
    ghost use Rattle.trdp_memory.specs.Rows.{AreLaidDown, bytes_in, gives_of, row_taking};

    ghost Value = { MemoryWireState };

    ghost view = { λ w. record {
      laid_down = record {
        arrivals = w.arrivals.items;
        failing_takes = w.failing_takes.items;
        failing_gives = w.failing_gives.items;
      };
      takings = map (row_taking w.arrivals.items) w.taken.items;
      gives = gives_of w.bytes.items w.given.items;
      rests = w.rested.items;
      tells = w.tells;
      failures = w.failures;
      refusal = w.refusal;
      take_room = vec_capacity w.taken - vec_len w.taken;
      give_room = vec_capacity w.given - vec_len w.given;
      byte_room = w.byte_room;
      rest_room = vec_capacity w.rested - vec_len w.rested;
    } };

    ghost invariant = { λ w. (bytes_in w.given.items ≡ length w.bytes.items)
        × AreLaidDown (length w.arrivals.items) w.taken.items
        × (vec_len w.bytes + w.byte_room ≤ vec_capacity w.bytes) };
}

impl MemoryWire {
    ghost use Rattle.std.specs.Prelude.{◌≡◌, [], IfOk, OnErr, map};
    ghost use Rattle.std.specs.Prelude.{true, false, ◌<◌, ◌≤◌, None};
    ghost use Rattle.std.specs.List.{flat_map};
    ghost use Rattle.std.specs.Prelude.{length, IfSome, ◌&&◌};
    ghost use Rattle.trdp_memory.specs.MemoryWires.{is_give_beyond, nothing_laid_down};
    ghost use Rattle.trdp_memory.specs.MemoryWires.{after_take, next_arrival, next_ends};
    ghost use Rattle.trdp_memory.specs.MemoryWires.{room_after};
    ghost use Rattle.trdp_wire.specs.Told.{arrived_in, taking_of};

    /// A wire over which nothing arrives yet, with room for that many takes, gives, and bytes of
    /// gives.
    ///
    /// # Errors
    /// `AllocError` if an allocation for these fails.
    pub fn new(
        alloc: Global,
        takes: usize,
        gives: usize,
        bytes: usize,
    ) -> Result<MemoryWire, AllocError>
        ensures laid_down { IfOk result (λ wire. wire.laid_down ≡ nothing_laid_down) }
        ensures takings { IfOk result (λ wire. wire.takings ≡ []) }
        ensures gives { IfOk result (λ wire. wire.gives ≡ []) }
        ensures rests { IfOk result (λ wire. wire.rests ≡ []) }
        ensures tells { IfOk result (λ wire. wire.tells ≡ true) }
        ensures failures { IfOk result (λ wire. wire.failures ≡ 0) }
        ensures refusal { IfOk result (λ wire. wire.refusal ≡ None) }
        ensures take_room { IfOk result (λ wire. wire.take_room ≡ takes) }
        ensures give_room { IfOk result (λ wire. wire.give_room ≡ gives) }
        ensures byte_room { IfOk result (λ wire. wire.byte_room ≡ bytes) }
        ensures rest_room { IfOk result (λ wire. wire.rest_room ≡ takes) }
    {
        let taken = Vec::with_capacity(alloc, takes)?;
        let given = Vec::with_capacity(alloc, gives)?;
        let byte_list = Vec::with_capacity(alloc, bytes)?;
        let rested = Vec::with_capacity(alloc, takes)?;
        Ok(MemoryWire {
            alloc,
            arrivals: Vec::new(alloc),
            failing_takes: Vec::new(alloc),
            failing_gives: Vec::new(alloc),
            taken,
            given,
            bytes: byte_list,
            rested,
            byte_room: bytes,
            failures: 0,
            refusal: None,
            tells: true,
        })
    }

    /// The bytes of all that it was given, joined in order.
    pub fn bytes(&self) -> &[u8]
        ensures { result.now ≡ flat_map (λ give. give.offer.bytes) self.now.gives }
    {
        &self.bytes
    }

    /// What was offered to it, in order; one at which it failed was offered too.
    pub fn offers(&self) -> Offers<'_>
        ensures { result ≡ map (λ give. give.offer) self.now.gives }
    {
        Offers::new(&self.given, &self.bytes)
    }

    /// The first rests that it was asked for, in order.
    pub fn rests(&self) -> &[Rest]
        ensures { result.now ≡ self.now.rests }
    {
        &self.rested
    }

    /// Takes the next datagram at a port. Also returns whether it is the end of an application, if
    /// that is looked for.
    ///
    /// # Errors
    /// `WireFault` beyond the room for takes, and if it was laid down.
    fn receive(
        &mut self,
        port: Port,
        looks: bool,
        room: &mut [u8],
    ) -> (Result<Option<(Place, usize)>, WireFault>, bool)
        ensures within { IfOk result.0 (λ found. IfSome found (λ f. f.1 ≤ length room.new)) }
        ensures fault { OnErr result.0 (self.old.failures < self.new.failures) }
        ensures arrived { arrived_in result.0 room.new
            ≡ next_arrival self.old port (length room.old) }
        ensures ended { result.1 ≡ (looks && next_ends self.old port) }
        ensures room { room.new ≡ room_after (arrived_in result.0 room.new) room.old }
        ensures after { self.new ≡ after_take self.old
            (taking_of port (λ _. looks && next_ends self.old port) result.0 room.new) }
    {
        if self.taken.len() >= self.taken.capacity() {
            self.tells = false;
            let (_, result) = failing_take(&mut self.failures);
            return (result, false);
        }
        let fails = is_failing(&self.failing_takes, self.taken.len() + 1);
        let number = takes_at(&self.taken, port) + 1;
        let ended = hands_end(&self.arrivals, looks, fails, port, number);
        let (answer, result) = answer_take(
            &self.arrivals,
            &mut self.failures,
            fails,
            port,
            number,
            room,
        );
        let room = room.len();
        let row = TakeRow {
            port,
            room,
            answer,
            ended,
        };
        push_take(&mut self.taken, row);
        (result, ended)
    }

    /// Whether the next give, of that many bytes, is beyond its rooms.
    #[tactic(auto, unfolding(crate::specs::MemoryWires::is_give_beyond))]
    fn is_give_beyond(&self, len: usize) -> bool
        ensures beyond { result ≡ is_give_beyond self.now len }
        ensures row { result ≡ false → 0 < self.now.give_room }
        ensures bytes { result ≡ false → len ≤ self.now.byte_room }
    {
        self.given.capacity() - self.given.len() == 0 || self.byte_room < len
    }
}

impl Wire for MemoryWire {
    ghost use Rattle.std.specs.Prelude.{◌≡◌, ◌<◌, ◌≤◌, ◌+◌, ◌∷◌, [], length, IfOk, IfSome, OnErr};
    ghost use Rattle.std.specs.Prelude.{is_err};
    ghost use Rattle.trdp_memory.specs.MemoryWires.{after_give, after_take, next_arrival};
    ghost use Rattle.trdp_memory.specs.MemoryWires.{next_ends, next_give_fails, room_after, told};
    ghost use Rattle.trdp_base.specs.Reported.{TellsMore};
    ghost use Rattle.trdp_wire.specs.Told.{arrived_in, give_of, nowhere, taking_of};

    ghost takings = { λ w. told w.tells w.takings };

    ghost gives = { λ w. told w.tells w.gives };

    ghost faults = { λ w. w.failures };

    fn take(&mut self, port: Port, room: &mut [u8]) -> Result<Option<(Place, usize)>, WireFault>
        ensures within { IfOk result (λ found. IfSome found (λ f. f.1 ≤ length room.new)) }
        ensures takes { TellsMore (told self.old.tells self.old.takings)
            (told self.new.tells self.new.takings)
            (taking_of port nowhere result room.new ∷ []) }
        ensures gives_nothing { TellsMore (told self.old.tells self.old.gives)
            (told self.new.tells self.new.gives) [] }
        ensures fault { OnErr result (self.old.failures < self.new.failures) }
        ensures arrived { arrived_in result room.new
            ≡ next_arrival self.old port (length room.old) }
        ensures room { room.new ≡ room_after (arrived_in result room.new) room.old }
        ensures after { self.new ≡ after_take self.old (taking_of port nowhere result room.new) }
    {
        let (found, _) = self.receive(port, false, room);
        found
    }

    fn find(
        &mut self,
        port: Port,
        _anew: bool,
        room: &mut [u8],
    ) -> (Result<Option<(Place, usize)>, WireFault>, bool)
        ensures within { IfOk result.0 (λ found. IfSome found (λ f. f.1 ≤ length room.new)) }
        ensures takes { TellsMore (told self.old.tells self.old.takings)
            (told self.new.tells self.new.takings)
            (taking_of port (λ _. result.1) result.0 room.new ∷ []) }
        ensures gives_nothing { TellsMore (told self.old.tells self.old.gives)
            (told self.new.tells self.new.gives) [] }
        ensures fault { OnErr result.0 (self.old.failures < self.new.failures) }
        ensures arrived { arrived_in result.0 room.new
            ≡ next_arrival self.old port (length room.old) }
        ensures ended { result.1 ≡ next_ends self.old port }
        ensures room { room.new ≡ room_after (arrived_in result.0 room.new) room.old }
        ensures after { self.new
            ≡ after_take self.old (taking_of port (λ _. result.1) result.0 room.new) }
    {
        self.receive(port, true, room)
    }

    fn give(&mut self, port: Port, to: Place, bytes: &[u8]) -> Result<(), WireFault>
        ensures offers { TellsMore (told self.old.tells self.old.gives)
            (told self.new.tells self.new.gives) (give_of port to bytes.now result ∷ []) }
        ensures takes_nothing { TellsMore (told self.old.tells self.old.takings)
            (told self.new.tells self.new.takings) [] }
        ensures fault { OnErr result (self.old.failures < self.new.failures) }
        ensures fails { is_err result ≡ next_give_fails self.old (length bytes.now) }
        ensures after { self.new ≡ after_give self.old (give_of port to bytes.now result) }
    {
        if self.is_give_beyond(bytes.len()) {
            self.tells = false;
            let result = fail(&mut self.failures);
            keep_refusal(&mut self.refusal, port, to, result);
            return result;
        }
        let fails = is_failing(&self.failing_gives, self.given.len() + 1);
        let result = fail_if(fails, &mut self.failures);
        keep_refusal(&mut self.refusal, port, to, result);
        let row = GiveRow {
            port,
            to,
            len: bytes.len(),
            failed: result.is_err(),
        };
        self.byte_room -= bytes.len();
        push_give(&mut self.given, &mut self.bytes, row, bytes);
        result
    }

    fn failures(&self) -> u64 {
        self.failures
    }

    fn refusal(&self) -> Option<GiveRefusal>
        ensures { result ≡ self.now.refusal }
    {
        self.refusal
    }
}

impl WatchedWire for MemoryWire {
    ghost use Rattle.std.specs.Prelude.{◌≡◌, true};
    ghost use Rattle.trdp_memory.specs.MemoryWires.{after_rest, asked_rest, told};

    ghost news = { λ _ _. true };

    ghost rested = { λ old new most. new ≡ after_rest old (asked_rest old most) };

    fn rest(&mut self, most: u64)
        ensures rests { self.new ≡ after_rest self.old (asked_rest self.old most) }
        ensures takes_nothing { told self.new.tells self.new.takings
            ≡ told self.old.tells self.old.takings }
        ensures gives_nothing { told self.new.tells self.new.gives
            ≡ told self.old.tells self.old.gives }
        ensures fault { self.new.failures ≡ self.old.failures }
    {
        let takes = self.taken.len();
        if self.rested.len() < self.rested.capacity() {
            push_rest(&mut self.rested, Rest { takes, most });
        }
    }

    fn has_news(&self, _port: Port) -> bool {
        true
    }

    fn set_news(&mut self, _port: Port, _may_be: bool)
        ensures { self.new ≡ self.old }
    {}
}
