//! A service of the program: the configuration first, then the sockets, and then the turns.

ghost use Rattle.std.specs.Prelude.{◌≡◌, ◌⊎◌, IfOk, Option, None, ℕ};
ghost use Rattle.std.specs.Io.KnownBytes.{Keeps};
ghost use Rattle.trdp_dataset.specs.Configs.{ConfigModel};
ghost use Rattle.trdp_daemon.specs.Daemons.{HasServed};
ghost use Rattle.trdp_program.specs.Programs.{IsConfig};
ghost use Rattle.trdp_program.specs.ServiceWires.{EndsByWire, HasNoBindFault};
ghost use Rattle.trdp_program.specs.Serving.{CountsTurns, CountsTurnsOver, EndsTurns};
ghost use Rattle.trdp_program.specs.Serving.{ServesProgram, lease_of};

use crate::faults::ServeFault;
use crate::options::ServiceOptions;
use crate::program::{CONFIG_STATUS, read_config};
use crate::start::ServiceStart;
use crate::told::{end_status, tell_line};
use crate::wires::{ServiceWire, folder_at, ports_beside, wire_over};
use std::alloc::Global;
use std::fmt;
use std::fs::Files;
use std::io::Write;
use std::net::Net;
use std::time::Clock;
use trdp_daemon::{Daemon, Totals};
use trdp_dataset::NodeConfig;
use trdp_lines::Connections;
use trdp_udp::{RunClock, SystemSockets, UdpWire};
use trdp_wire::{WatchedWire, Wire};

/// Serves a node of that configuration (TOML) over the system's sockets: binds its UDP ports, takes
/// `turns` turns without sleeping, writes the line of their totals to the writer, and returns the
/// exit status (profile). It is 0 after that line, 1 if the configuration is rejected, and else 4.
/// A fault gives one line on `errors`, or a front of it if `errors` fails.
///
/// The configuration is looked at first, and then the ports are bound: if it is rejected, nothing
/// is written.
pub fn serve_program<H: Net + Clock + AllocGlobal, W: Write, E: Write>(
    rt: &H,
    config: &[u8],
    turns: u32,
    writer: &mut W,
    errors: &mut E,
) -> u8
    ensures status { (result ≡ 0) ⊎ (result ≡ 1) ⊎ (result ≡ 4) }
    ensures config { (result ≡ 1) ⊎ IsConfig config.now }
    ensures serves { ServesProgram config.now None turns
        (W.contents writer.old) (W.contents writer.new)
        (E.contents errors.old) (E.contents errors.new) result }
    ensures quiet { result ≡ 1 → Keeps (W.contents writer.old) (W.contents writer.new) }
    ensures faultless { result ≡ 0 → Keeps (E.contents errors.old) (E.contents errors.new) }
{
    let Ok(config) = read_config(rt.alloc(), config, errors) else {
        return CONFIG_STATUS;
    };
    match UdpWire::bind(rt, &config) {
        Ok(wire) => {
            let daemon = Daemon::new(rt.alloc(), config, wire, RunClock::new(rt));
            end_status(serve_turns(daemon, turns, writer), errors)
        }
        Err(fault) => end_status(Err(ServeFault::from(fault)), errors),
    }
}

/// Serves a node of that configuration (TOML) over the system's sockets as [`serve_program`] does:
/// the ports for lines are files of a folder, if there is one, and slots are reset after a lease.
pub fn serve_with<H: Files + Net + Clock + AllocGlobal, W: Write, E: Write>(
    rt: &H,
    config: &[u8],
    options: ServiceOptions,
    turns: u32,
    writer: &mut W,
    errors: &mut E,
) -> u8
    ensures status { (result ≡ 0) ⊎ (result ≡ 1) ⊎ (result ≡ 4) }
    ensures config { (result ≡ 1) ⊎ IsConfig config.now }
    ensures serves { ServesProgram config.now (lease_of options.entry.lease) turns
        (W.contents writer.old) (W.contents writer.new)
        (E.contents errors.old) (E.contents errors.new) result }
    ensures quiet { result ≡ 1 → Keeps (W.contents writer.old) (W.contents writer.new) }
    ensures faultless { result ≡ 0 → Keeps (E.contents errors.old) (E.contents errors.new) }
{
    let alloc = rt.alloc();
    let Ok(config) = read_config(alloc, config, errors) else {
        return CONFIG_STATUS;
    };
    let folder = folder_at(rt, options.folder);
    let network = UdpWire::open(SystemSockets::new(rt), &config, ports_beside(&folder));
    let wire = wire_over(alloc, network, folder, &config);
    let start = ServiceStart {
        wire,
        config,
        lease: options.lease_time(),
        clock: RunClock::new(rt),
    };
    end_status(serve_service(alloc, start, turns, writer), errors)
}

/// Takes `turns` turns at the node of a service, if it has a wire, and writes the line of their
/// totals.
///
/// # Errors
/// If the service has no wire, the fault that says why, and else only `OutOfMemory` or `Write`.
fn serve_service<
    N: WatchedWire + Drop,
    L: Connections + Drop,
    K: trdp_wire::Clock + Drop,
    W: Write,
>(alloc: Global, start: ServiceStart<N, L, K>, turns: u32, writer: &mut W) -> Result<(), ServeFault>
    ensures ends { EndsTurns (CountsTurns start.config start.lease turns) result
        (W.contents writer.old) (W.contents writer.new) }
    ensures fault { EndsByWire start.wire result }
{
    let ServiceStart {
        wire,
        config,
        lease,
        clock,
    } = start;
    match wire {
        Ok(ServiceWire::Udp(wire)) => {
            let daemon = Daemon::with_lease(alloc, config, lease, wire, clock);
            serve_turns(daemon, turns, writer)
        }
        Ok(ServiceWire::Controls(wire)) => {
            let daemon = Daemon::with_lease(alloc, config, lease, wire, clock);
            serve_turns(daemon, turns, writer)
        }
        Err(fault) => Err(ServeFault::from(fault)),
    }
}

/// Takes `turns` turns at a daemon, if it was opened, and writes the line of their totals. If the
/// wire and the clock report, these are the totals of the turns that they report. The system's
/// sockets and clock report nothing, so that of them only the number of turns is left.
///
/// # Errors
/// `OutOfMemory` if the daemon wasn't opened, and `Write` if the line isn't written whole.
fn serve_turns<L: Wire + Drop, K: trdp_wire::Clock + Drop, W: Write>(
    daemon: Result<Daemon<L, K>, (NodeConfig, L, K)>,
    turns: u32,
    writer: &mut W,
) -> Result<(), ServeFault>
    ensures ends { (config : ConfigModel) (lease : Option ℕ) (wire : L) (clock : K)
        → IfOk daemon (HasServed L.takings L.gives K.readings config lease wire clock 0)
        → EndsTurns (CountsTurnsOver L.takings L.gives K.readings config lease wire clock turns)
        result (W.contents writer.old) (W.contents writer.new) }
    ensures fault { HasNoBindFault result }
{
    let Ok(mut daemon) = daemon else {
        return Err(ServeFault::OutOfMemory);
    };
    if tell_line(TotalsText(daemon.run(turns)), writer) {
        Ok(())
    } else {
        Err(ServeFault::Write)
    }
}

/// The totals of a service as the program prints them (profile): `taken T offered O lost L unread
/// U memory M`. Printing them allocates nothing.
#[derive(Clone, Copy)]
pub(crate) struct TotalsText(pub(crate) Totals);

impl fmt::Display for TotalsText {
    ghost use Rattle.std.specs.Prelude.{Some};
    ghost use Rattle.trdp_daemon.specs.Questions.{text_of_totals};

    ghost output = { λ text. Some (text_of_totals text.0) };

    fn fmt<W: fmt::Write>(&self, f: &mut fmt::Formatter<W>) -> fmt::Result {
        let all = self.0;
        write!(
            f,
            "taken {} offered {} lost {} unread {} memory {}",
            all.taken, all.offered, all.lost, all.unread, all.memory
        )
    }
}
