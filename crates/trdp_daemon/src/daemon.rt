//! The daemon: turn after turn over a wire and a clock.

ghost use Rattle.std.specs.Prelude.{◌≡◌, IfOk, length, max, min};
ghost use Rattle.trdp_base.specs.Moments.{last_moment};
ghost use Rattle.trdp_wire.specs.Ports.{ports_of};
ghost use Rattle.trdp_daemon.specs.Turns.{take_room};

use crate::link::Link;
use crate::service::Service;
use crate::totals::Totals;
use std::alloc::{AllocError, Global};
use std::marker::Model;
use trdp_base::{LINE_MAX, MOMENT_MAX};
use trdp_dataset::NodeConfig;
use trdp_engine::{Event, Node};
use trdp_wire::{Clock, Port, WatchedWire, Wire, ports_of};

/// Room for what a take takes, in bytes: for any line of a control connection, which is more than
/// the longest datagram over UDP.
const TAKE_ROOM: usize = LINE_MAX;

/// A node that takes its datagrams from a wire and its time from a clock, and gives the wire what
/// the node sends.
#[derive(Drop)]
pub struct Daemon<W: Wire, C: Clock> {
    /// The node, and where its slots' applications are.
    service: Service,
    /// The ports of a turn, in its order.
    ports: Vec<Port>,
    /// Room for what a take takes.
    room: Vec<u8>,
    /// The wire, with the totals.
    link: Link<W>,
    /// The bytes that a line carries, used again from line to line.
    buffer: Vec<u8>,
    /// The clock that each turn reads once.
    clock: C,
}

impl<W: Wire, C: Clock> Model for Daemon<W, C> {
    ghost use Rattle.std.specs.Prelude.{◌≡◌, length};
    ghost use Rattle.trdp_daemon.specs.Daemons.{DaemonState};
    ghost use Rattle.trdp_wire.specs.Ports.{ports_of};
    ghost use Rattle.trdp_daemon.specs.Services.{IsSoundService, service_state};
    ghost use Rattle.trdp_daemon.specs.Turns.{take_room};

    ghost Value = { DaemonState W C };

    ghost view = { λ d. record {
      service = service_state d.service;
      wire = d.link.wire;
      clock = d.clock;
      totals = d.link.totals;
      asked = d.link.asked;
    } };

    ghost invariant = { λ d. IsSoundService d.service
        × (d.ports.items ≡ ports_of d.service.node.config)
        × (length d.room.items ≡ take_room) };
}

impl<W: Wire, C: Clock> Daemon<W, C> {
    ghost use Rattle.std.specs.Prelude.{◌≡◌, ◌+◌, ℕ, IfOk, IfErr, Option, None};
    ghost use Rattle.trdp_dataset.specs.Configs.{ConfigModel};
    ghost use Rattle.trdp_daemon.specs.Daemons.{HasServed, TakesTurns, opened_daemon};
    ghost use Rattle.trdp_daemon.specs.Resting.{TakesTurnAt};

    /// A daemon that has taken no turn: its node is at moment 0, and no slot has a control place.
    /// It has no lease: the application of a slot may be silent for ever.
    ///
    /// # Errors
    /// Configuration, wire and clock come back if an allocation fails.
    pub fn new(
        alloc: Global,
        config: NodeConfig,
        wire: W,
        clock: C,
    ) -> Result<Daemon<W, C>, (NodeConfig, W, C)>
        ensures opened { IfOk result (λ daemon. daemon ≡ opened_daemon config None wire clock) }
        ensures served { IfOk result (λ daemon.
            HasServed W.takings W.gives C.readings config None wire clock 0 daemon) }
        ensures returned { IfErr result (λ back.
            (back.0 ≡ config) × (back.1 ≡ wire) × (back.2 ≡ clock)) }
    {
        Daemon::with_lease(alloc, config, None, wire, clock)
    }

    /// A daemon as [`Daemon::new`] makes it, with a lease of that many microseconds; None is no
    /// lease. A slot is reset, as by its own call, if a take at its control port finds nothing and
    /// the take's turn began more than the lease after the turn of the slot's latest line. The
    /// reset is reported to no one, and the slot has no control place up to its next line: so it
    /// is reset once for each silence. A slot that had no line yet may be silent for ever. No rest
    /// ends for a lease.
    ///
    /// All buffers are made here but that of the bytes of lines, which grows with them.
    ///
    /// # Errors
    /// Configuration, wire and clock come back if an allocation fails.
    pub fn with_lease(
        alloc: Global,
        config: NodeConfig,
        lease: Option<u64>,
        wire: W,
        clock: C,
    ) -> Result<Daemon<W, C>, (NodeConfig, W, C)>
        ensures opened { IfOk result (λ daemon. daemon ≡ opened_daemon config lease wire clock) }
        ensures served { IfOk result (λ daemon.
            HasServed W.takings W.gives C.readings config lease wire clock 0 daemon) }
        ensures returned { IfErr result (λ back.
            (back.0 ≡ config) × (back.1 ≡ wire) × (back.2 ≡ clock)) }
    {
        match buffers(alloc, &config) {
            Err(_) => Err((config, wire, clock)),
            Ok((ports, room)) => {
                match Service::new(alloc, config, lease) {
                    Err(config) => Err((config, wire, clock)),
                    Ok(service) => Ok(Daemon {
                        service,
                        ports,
                        room,
                        link: Link::new(wire),
                        buffer: Vec::new(alloc),
                        clock,
                    }),
                }
            }
        }
    }

    /// The totals so far.
    pub fn totals(&self) -> Totals
        ensures { result ≡ self.now.totals }
    {
        self.link.totals
    }

    /// The wire.
    pub fn wire(&self) -> &W
        ensures { result.now ≡ self.now.wire }
    {
        &self.link.wire
    }

    /// Takes one turn: the moment that the clock gives, and then one take at each port of the
    /// configuration, in the order process data, message data, those of the groups, operator,
    /// control ports of the slots. Returns the totals since the daemon was made.
    pub fn turn(&mut self) -> Totals
        ensures turn { TakesTurns W.takings W.gives C.readings 1 self.old self.new }
        ensures served { (config : ConfigModel) (lease : Option ℕ) (wire : W) (clock : C) (n : ℕ)
            → HasServed W.takings W.gives C.readings config lease wire clock n self.old
            → HasServed W.takings W.gives C.readings config lease wire clock (n + 1) self.new }
        ensures totals { result ≡ self.new.totals }
    {
        self.timed_turn();
        self.totals()
    }

    /// Takes `turns` turns. Returns the totals since the daemon was made.
    pub fn run(&mut self, turns: u32) -> Totals
        ensures turns { TakesTurns W.takings W.gives C.readings turns self.old self.new }
        ensures served { (config : ConfigModel) (lease : Option ℕ) (wire : W) (clock : C) (n : ℕ)
            → HasServed W.takings W.gives C.readings config lease wire clock n self.old
            → HasServed W.takings W.gives C.readings config lease wire clock (n + turns) self.new }
        ensures totals { result ≡ self.new.totals }
    {
        for _turn in 0..turns {
            self.turn();
        }
        self.totals()
    }

    /// Takes one turn: the moment of a reading of the clock, and then one take at each port that
    /// is there when its turn in the order comes. Returns the reading.
    fn timed_turn(&mut self) -> u64
        ensures { TakesTurnAt W.takings W.gives C.readings result self.old self.new }
    {
        let reading = self.clock.now();
        self.service.begin(reading);
        let moment = Event::Moment(moment_of(&self.service.node, reading));
        let _ = self.service.take_event(&moment, &mut self.link);
        for i in 0..self.ports.len() {
            self.service.visit(
                &mut self.buffer,
                self.ports[i],
                &mut self.room,
                &mut self.link,
            );
        }
        reading
    }
}

impl<W: WatchedWire, C: Clock> Daemon<W, C> {
    ghost use Rattle.std.specs.Prelude.{◌≡◌, ℕ, Option};
    ghost use Rattle.trdp_dataset.specs.Configs.{ConfigModel};
    ghost use Rattle.trdp_daemon.specs.Daemons.{HasServed};
    ghost use Rattle.trdp_daemon.specs.Resting.{AttendsUntil, Rests, ServesUntil};

    /// Takes turns until one begins at the reading `until` of the clock or later, in microseconds,
    /// and at most 2^64 - 1 of them. After each turn but that one the wire is asked for a rest:
    /// until a datagram may be there, and at most until something is due or `until` comes. Returns
    /// the reading of the last turn.
    pub fn attend(&mut self, until: u64) -> u64
        ensures turns { AttendsUntil W.takings W.gives W.rested C.readings until result self.old self.new }
        ensures served { (config : ConfigModel) (lease : Option ℕ) (wire : W) (clock : C) (n : ℕ)
            → (before : HasServed W.takings W.gives C.readings config lease wire clock n self.old)
            → ServesUntil W.takings W.gives C.readings config lease wire clock
            n before.turns before.gives until result self.new }
    {
        let mut reading = 0;
        for _turn in 0..u64::MAX {
            reading = self.timed_turn();
            if until <= reading {
                return reading;
            }
            self.rest(reading, until);
        }
        reading
    }

    /// Rests from a reading of the clock while nothing is due, at most up to `until`.
    fn rest(&mut self, reading: u64, until: u64)
        ensures { Rests W.takings W.gives W.rested reading until self.old self.new }
    {
        let most = self.service.idle_time(reading, until);
        self.link.rest(most);
    }
}

/// The ports of a turn, and room for a take.
///
/// # Errors
/// `AllocError` if an allocation for these fails.
fn buffers(alloc: Global, config: &NodeConfig) -> Result<(Vec<Port>, Vec<u8>), AllocError>
    ensures ports { IfOk result (λ made. made.0.items ≡ ports_of config.now) }
    ensures room { IfOk result (λ made. length made.1.items ≡ take_room) }
{
    let ports = ports_of(alloc, config)?;
    let room = vec![in alloc; 0; TAKE_ROOM]?;
    Ok((ports, room))
}

/// The moment of a reading of the clock: never before the node's, nor past the last one.
fn moment_of(node: &Node, reading: u64) -> u64
    ensures { result ≡ max node.now.globals.now (min reading last_moment) }
{
    node.now().max(reading.min(MOMENT_MAX))
}
