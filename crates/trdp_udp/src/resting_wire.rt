//! The UDP ports of a node, for a daemon that rests.

ghost use Rattle.std.specs.Prelude.{◌≡◌, ◌<◌, ◌≤◌, ◌++◌, length, map, None, Some, IfOk, IfErr};
ghost use Rattle.std.specs.Prelude.{IfSome, OnErr, false, true, slice_set};
ghost use Rattle.trdp_udp.specs.RestingWires.{RestsSo, TakesIfNews, news_at, renewed};
ghost use Rattle.trdp_wire.specs.Sockets.{MadeInTurn, socket_of};
ghost use Rattle.trdp_udp.specs.Openings.{binds_of, watches_of};
ghost use Rattle.trdp_udp.specs.SocketWires.{GivesAtSocket};

use crate::bound_ports::BoundPorts;
use crate::opening::bind_and_watch_ports;
use crate::rest_step::{RestStep, is_breathless, rest_left};
use crate::system_sockets::SOCKETS_MAX;
use crate::udp_wire::UdpWire;
use std::alloc::Global;
use trdp_base::Place;
use trdp_dataset::NodeConfig;
use trdp_wire::{
    BindFault, GiveRefusal, GroupAddresses, Port, Sleeper, Sockets, Unread, WatchedWire, Wire,
    WireFault, has_news, set_news,
};

/// The microseconds of a sleep after which the system's limit for a process of a real-time policy
/// starts again.
const BREATH: u64 = 50;

/// The UDP ports of a node, which wait only in `rest`. A rest is a wait of whole milliseconds, and
/// a datagram ends it; if less than 1.2 ms is left, it is a sleep. The wire reports no takes and
/// gives; its contracts say what it makes of the calls of its sockets.
///
/// **A take reads a port only if there is news of it**, which means that something may wait there.
/// At first there is news of each port. News of a port ends when a take finds nothing there. It
/// begins when the wire asks the system, which reports each arrival once (the edge of epoll).
///
/// **A rest asks for news; a turn without a rest asks at its end, unless it is the first after a
/// rest.** A turn here is all takes up to a call of `rest`. It has no rest if something was heard
/// in it, or if no time is left for one. In the first turn after a rest the news is of a moment
/// ago. So a telegram that comes alone costs three calls: the wait that reports it, the take that
/// finds it, and the take that finds nothing more.
///
/// **No arrival is missed.** The system is told to report arrivals before the first take, when
/// there is news of each port. News of a port ends only at a take that finds nothing. What came
/// before that take was found by an earlier one. What comes after it is reported when the wire
/// asks next, whether it comes before the wire asks or while the wire waits. If the system reports
/// what was found already, one take finds nothing.
///
/// Of two turns in a row at least one asks. So the wire asks at the latest at the end of the turn
/// after the one in which something came, and reads the port in the turn after that.
#[derive(Drop)]
pub struct RestingWire<S, C> {
    /// The ports.
    pub(crate) wire: UdpWire<S>,
    /// The clock that it reads and sleeps by.
    pub(crate) clock: C,
    /// For the number of each socket, whether something may be there.
    pub(crate) news: [bool; SOCKETS_MAX],
    /// Whether something came or failed at a take since the latest rest.
    pub(crate) heard: bool,
    /// Whether this turn is the first after a rest, or the first of all.
    pub(crate) is_first: bool,
    /// The reading of the clock at the end of the first turn since the wire last waited or slept;
    /// None if it did so at the end of the latest turn, and before the end of the first.
    pub(crate) busy: Option<u64>,
    /// The reading of the clock when the latest rest ended; None before the first.
    pub(crate) rested: Option<u64>,
}

impl<S: Sockets, C: Sleeper + Drop> RestingWire<S, C> {
    ghost use Rattle.trdp_udp.specs.RestSteps.{Breathes, PausesSo};
    ghost use Rattle.std.specs.Prelude.{◌≡◌, ◌++◌, IfOk, IfErr, None, Some};
    ghost use Rattle.trdp_wire.specs.Sockets.{MadeInTurn};
    ghost use Rattle.trdp_udp.specs.Openings.{binds_of, watches_of};
    ghost use Rattle.trdp_udp.specs.RestingWires.{AsksInStep, HasTakenNothing, renewed};

    /// Binds sockets at ports that a configuration names, as [`UdpWire::open`] does, and then has
    /// waits end when a datagram comes at one of them. So no wait takes memory.
    ///
    /// # Errors
    /// At the first port that isn't bound, or else not watched: its fault, and the sockets.
    pub fn open(
        alloc: Global,
        mut sockets: S,
        clock: C,
        config: &NodeConfig,
        which: BoundPorts,
    ) -> Result<RestingWire<S, C>, (BindFault, S)>
        ensures bound { IfOk result (λ wire. MadeInTurn
            (binds_of which config.now ++ watches_of which config.now) None
            (S.calls sockets) (S.calls wire.wire.sockets)) }
        ensures refused { IfErr result (λ back. MadeInTurn
            (binds_of which config.now ++ watches_of which config.now) (Some back.0)
            (S.calls sockets) (S.calls back.1)) }
        ensures which { IfOk result (λ wire. wire.wire.bound ≡ which) }
        ensures groups { IfOk result (λ wire. wire.wire.groups ≡ config.now.groups) }
        ensures fresh { IfOk result (λ wire. HasTakenNothing clock wire) }
    {
        if let Err(fault) = bind_and_watch_ports(&mut sockets, alloc, config, which) {
            return Err((fault, sockets));
        }
        Ok(RestingWire {
            wire: UdpWire::over(sockets, GroupAddresses::of(config), which),
            clock,
            news: [true; SOCKETS_MAX],
            heard: false,
            is_first: true,
            busy: None,
            rested: None,
        })
    }

    /// Its sockets.
    pub fn sockets(&self) -> &S
        ensures { result.now ≡ self.now.wire.sockets }
    {
        self.wire.sockets()
    }

    /// The clock that it reads and sleeps by.
    pub fn clock(&self) -> &C
        ensures { result.now ≡ self.now.clock }
    {
        &self.clock
    }

    /// Asks the system for news in a step of a rest.
    fn ask_in(&mut self, step: RestStep)
        ensures asks { AsksInStep step (S.calls self.old.wire.sockets)
            (S.calls self.new.wire.sockets) self.old.news self.new.news }
        ensures kept { self.new ≡ record self.old {
          wire = record self.old.wire { sockets = self.new.wire.sockets };
          news = self.new.news;
        } }
    {
        match step {
            RestStep::GoOn => {}
            RestStep::Look | RestStep::Sleep(_) => self.wire.sockets.wait(0, &mut self.news),
            RestStep::Wait(millis) => self.wire.sockets.wait(millis, &mut self.news),
        }
    }

    /// Notes that something may be at a port, if `anew` is true.
    fn renew(&mut self, port: Port, anew: bool)
        ensures { self.new ≡ renewed anew port self.old }
    {
        if anew {
            self.set_news(port, true);
        }
    }

    /// Makes the pause of a step of a rest that begins at this reading of the clock.
    fn pause(&mut self, step: RestStep, reading: u64)
        ensures pauses { PausesSo step reading
            (C.sleeps self.old.clock) (C.sleeps self.new.clock) self.old.busy self.new.busy }
        ensures unread { C.readings self.new.clock ≡ C.readings self.old.clock }
        ensures kept { self.new ≡ record self.old {
          clock = self.new.clock;
          busy = self.new.busy;
        } }
    {
        match step {
            RestStep::GoOn | RestStep::Look => self.breathe(reading),
            RestStep::Sleep(micros) => {
                self.clock.sleep(micros);
                self.busy = None;
            }
            RestStep::Wait(_) => self.busy = None,
        }
    }

    /// If the wire has not rested for 50 milliseconds up to this reading of the clock, sleeps for
    /// 50 microseconds: so even in a flood other processes run, and the system doesn't end the
    /// daemon.
    fn breathe(&mut self, reading: u64)
        ensures breathes { Breathes reading
            (C.sleeps self.old.clock) (C.sleeps self.new.clock) self.old.busy self.new.busy }
        ensures unread { C.readings self.new.clock ≡ C.readings self.old.clock }
        ensures kept { self.new ≡ record self.old {
          clock = self.new.clock;
          busy = self.new.busy;
        } }
    {
        if is_breathless(self.busy, reading) {
            self.clock.sleep(BREATH);
            self.busy = None;
        } else if self.busy.is_none() {
            self.busy = Some(reading);
        }
    }
}

impl<S: Sockets, C: Sleeper + Drop> Wire for RestingWire<S, C> {
    ghost takings = { λ _. None };

    ghost gives = { λ _. None };

    ghost faults = { λ wire. wire.wire.failures };

    fn take(&mut self, port: Port, room: &mut [u8]) -> Result<Option<(Place, usize)>, WireFault>
        ensures within { IfOk result (λ found. IfSome found (λ f. f.1 ≤ length room.new)) }
        ensures fault { OnErr result (self.old.wire.failures < self.new.wire.failures) }
        ensures takes { TakesIfNews (news_at self.old port) S.calls
            self.old self.new port room.new result }
        ensures refusal { self.new.wire.refusal ≡ self.old.wire.refusal }
    {
        if !self.has_news(port) {
            return Ok(None);
        }
        let (found, heard) = self.wire.ask(port, room);
        if heard {
            self.heard = true;
        } else {
            self.set_news(port, false);
        }
        found
    }

    fn find(
        &mut self,
        port: Port,
        anew: bool,
        room: &mut [u8],
    ) -> (Result<Option<(Place, usize)>, WireFault>, bool)
        ensures within { IfOk result.0 (λ found. IfSome found (λ f. f.1 ≤ length room.new)) }
        ensures fault { OnErr result.0 (self.old.wire.failures < self.new.wire.failures) }
        ensures takes { TakesIfNews (news_at (renewed anew port self.old) port) S.calls
            (renewed anew port self.old) self.new port room.new result.0 }
        ensures ends_nothing { result.1 ≡ false }
        ensures refusal { self.new.wire.refusal ≡ self.old.wire.refusal }
    {
        self.renew(port, anew);
        (self.take(port, room), false)
    }

    fn give(&mut self, port: Port, to: Place, bytes: &[u8]) -> Result<(), WireFault>
        ensures fault { OnErr result (self.old.wire.failures < self.new.wire.failures) }
        ensures gives { GivesAtSocket self.old.wire.groups (S.calls self.old.wire.sockets)
            (S.calls self.new.wire.sockets) port to bytes.now result
            self.old.wire.failures self.new.wire.failures
            self.old.wire.refusal self.new.wire.refusal }
        ensures kept { self.new ≡ record self.old { wire = self.new.wire } }
        ensures groups { self.new.wire.groups ≡ self.old.wire.groups }
        ensures unread { self.new.wire.unread ≡ self.old.wire.unread }
    {
        self.wire.give(port, to, bytes)
    }

    fn failures(&self) -> u64 {
        self.wire.failures()
    }

    fn refusal(&self) -> Option<GiveRefusal>
        ensures { result ≡ self.now.wire.refusal }
    {
        self.wire.refusal()
    }

    fn unread(&self) -> Option<Unread>
        ensures { result ≡ self.now.wire.unread }
    {
        self.wire.unread()
    }
}

impl<S: Sockets, C: Sleeper + Drop> WatchedWire for RestingWire<S, C> {
    ghost use Rattle.trdp_wire.specs.declared.port.Port.{Port};
    ghost use Rattle.trdp_wire.specs.News.{IsNoted};
    ghost use Rattle.trdp_wire.specs.Ports.{are_apart};

    ghost news = { λ wire port. news_at wire port };

    ghost rested = { λ old new most. RestsSo S.calls C.readings C.sleeps old new most };

    fn rest(&mut self, most: u64)
        ensures fault { self.new.wire.failures ≡ self.old.wire.failures }
        ensures rests { RestsSo S.calls C.readings C.sleeps self.old self.new most }
        ensures groups { self.new.wire.groups ≡ self.old.wire.groups }
        ensures refusal { self.new.wire.refusal ≡ self.old.wire.refusal }
    {
        // A rest is asked for from the reading of its turn on, which was taken when the latest
        // rest had ended: the turn has used some of it.
        let began = self.clock.now();
        let left = rest_left(self.rested, began, most);
        let step = RestStep::of(self.heard, left, self.is_first);
        self.heard = false;
        self.pause(step, began);
        self.ask_in(step);
        let ended = if step.is_rest() {
            self.clock.now()
        } else {
            began
        };
        self.is_first = step.is_rest();
        self.rested = Some(ended);
    }

    fn has_news(&self, port: Port) -> bool
        ensures { result ≡ news_at self.now port }
    {
        has_news(&self.news, self.wire.groups.socket_of(port))
    }

    fn set_news(&mut self, port: Port, may_be: bool)
        ensures noted { IsNoted may_be (news_at self.old port) (news_at self.new port) }
        ensures others { (other : Port) → are_apart port other ≡ true
            → news_at self.new other ≡ news_at self.old other }
        ensures kept { self.new ≡ record self.old {
          news = slice_set self.old.news (socket_of self.old.wire.groups port) may_be;
        } }
    {
        set_news(&mut self.news, self.wire.groups.socket_of(port), may_be);
    }
}
