//! The daemon: first the sockets, and then turns with rests between them.

ghost use Rattle.std.specs.Prelude.{◌≡◌, ◌^◌, ◌-◌, OnOk, IfOk, IfErr, Bool, ℕ, Option};
ghost use Rattle.trdp_dataset.specs.Configs.{ConfigModel};
ghost use Rattle.trdp_daemon.specs.Daemons.{HasServed};
ghost use Rattle.trdp_program.specs.Attending.{FailsOver, ServesUntilDue, totals_period};
ghost use Rattle.trdp_program.specs.Attending.{WritesAllLines, WritesLinesOver, WritesUpTo};
ghost use Rattle.trdp_program.specs.Faults.{AppendsText};
ghost use Rattle.trdp_program.specs.Reporting.{AttendsToLooks};
ghost use Rattle.trdp_program.specs.ServiceWires.{EndsByWire};
ghost use Rattle.trdp_program.specs.Serving.{lease_of};

use crate::faults::ServeFault;
use crate::options::ServiceOptions;
use crate::reports::Reports;
use crate::start::ServiceStart;
use crate::stream::Stream;
use crate::totals_log::TotalsLog;
use crate::wires::{ServiceWire, folder_at, ports_beside, wire_over};
use std::alloc::Global;
use std::fs::Files;
use std::io::Write;
use std::net::Net;
use std::time::Clock;
use trdp_daemon::Daemon;
use trdp_dataset::NodeConfig;
use trdp_lines::Connections;
use trdp_udp::{RestingWire, RunClock, SystemSockets};
use trdp_wire::WatchedWire;

/// Binds the ports of a configuration, and serves its node until the program is stopped: a line of
/// its totals comes every `seconds` seconds, or never if `seconds` is 0.
///
/// # Errors
/// `Bind` if the system refuses a port or a path, and `OutOfMemory`.
pub(crate) fn attend<H: Files + Net + Clock + AllocGlobal, W: Stream, E: Write>(
    rt: &H,
    config: NodeConfig,
    options: ServiceOptions,
    seconds: u32,
    writer: &mut W,
    errors: &mut E,
) -> Result<(), ServeFault>
    ensures ok { OnOk result
        (WritesAllLines config (lease_of options.entry.lease) (totals_period seconds)
        (W.attempts writer.old) (W.attempts writer.new)) }
    ensures err { IfErr result (λ fault. WritesUpTo fault config (lease_of options.entry.lease)
        (totals_period seconds) (W.attempts writer.old) (W.attempts writer.new)) }
    ensures losses { AppendsText (E.contents errors.old) (E.contents errors.new) }
{
    let alloc = rt.alloc();
    let folder = folder_at(rt, options.folder);
    let sockets = SystemSockets::new(rt);
    let ports = ports_beside(&folder);
    let network = RestingWire::open(alloc, sockets, RunClock::new(rt), &config, ports);
    let wire = wire_over(alloc, network, folder, &config);
    let start = ServiceStart {
        wire,
        config,
        lease: options.lease_time(),
        clock: RunClock::new(rt),
    };
    attend_service(alloc, start, step_of(seconds), writer, errors)
}

/// Attends to the node of a service, if it has a wire, until 2^64 - 1 lines of totals were offered.
///
/// # Errors
/// If the service has no wire, the fault that says why, and else only `OutOfMemory`.
fn attend_service<
    N: WatchedWire + Drop,
    L: Connections + Drop,
    K: trdp_wire::Clock + Drop,
    W: Stream,
    E: Write,
>(
    alloc: Global,
    start: ServiceStart<N, L, K>,
    step: u64,
    writer: &mut W,
    errors: &mut E,
) -> Result<(), ServeFault>
    ensures ok { OnOk result (WritesAllLines start.config start.lease step
        (W.attempts writer.old) (W.attempts writer.new)) }
    ensures err { IfErr result (λ fault. WritesUpTo fault start.config start.lease step
        (W.attempts writer.old) (W.attempts writer.new)) }
    ensures fault { EndsByWire start.wire result }
    ensures losses { AppendsText (E.contents errors.old) (E.contents errors.new) }
{
    let ServiceStart {
        wire,
        config,
        lease,
        clock,
    } = start;
    match wire {
        Ok(ServiceWire::Udp(wire)) => {
            let daemon = Daemon::with_lease(alloc, config, lease, wire, clock);
            attend_all_lines(alloc, daemon, step, writer, errors)
        }
        Ok(ServiceWire::Controls(wire)) => {
            let daemon = Daemon::with_lease(alloc, config, lease, wire, clock);
            attend_all_lines(alloc, daemon, step, writer, errors)
        }
        Err(fault) => Err(ServeFault::from(fault)),
    }
}

/// Attends to a daemon's node, if it was opened, until 2^64 - 1 lines of totals were offered.
///
/// # Errors
/// `OutOfMemory`.
fn attend_all_lines<L: WatchedWire + Drop, K: trdp_wire::Clock + Drop, W: Stream, E: Write>(
    alloc: Global,
    daemon: Result<Daemon<L, K>, (NodeConfig, L, K)>,
    step: u64,
    writer: &mut W,
    errors: &mut E,
) -> Result<(), ServeFault>
    ensures ok { (config : ConfigModel) (lease : Option ℕ) (wire : L) (clock : K)
        → IfOk daemon (HasServed L.takings L.gives K.readings config lease wire clock 0)
        → OnOk result (WritesAllLines config lease step
        (W.attempts writer.old) (W.attempts writer.new)) }
    ensures err { (config : ConfigModel) (lease : Option ℕ) (wire : L) (clock : K)
        → IfOk daemon (HasServed L.takings L.gives K.readings config lease wire clock 0)
        → IfErr result (λ fault. WritesUpTo fault config lease step
        (W.attempts writer.old) (W.attempts writer.new)) }
    ensures memory { IfErr result (λ fault. fault ≡ ServeFault.OutOfMemory) }
    ensures losses { AppendsText (E.contents errors.old) (E.contents errors.new) }
{
    match daemon {
        Ok(mut daemon) => attend_lines(alloc, &mut daemon, step, u64::MAX, writer, errors),
        Err(_) => Err(ServeFault::OutOfMemory),
    }
}

/// Attends to a node that has taken no turn, until `lines` lines of totals were offered to the
/// writer. Each comes with the first turn that begins a step, in microseconds, after that of the
/// line before, or after 0. A line that the writer doesn't take is left out.
///
/// # Errors
/// `OutOfMemory` if an allocation for a line fails.
pub fn attend_lines<L: WatchedWire, C: trdp_wire::Clock, W: Stream, E: Write>(
    alloc: Global,
    daemon: &mut Daemon<L, C>,
    step: u64,
    lines: u64,
    writer: &mut W,
    errors: &mut E,
) -> Result<(), ServeFault>
    ensures ok { (config : ConfigModel) (lease : Option ℕ) (wire : L) (clock : C)
        → HasServed L.takings L.gives C.readings config lease wire clock 0 daemon.old
        → OnOk result ((due : ℕ) × (is_cut : Bool) × WritesLinesOver L.takings L.gives C.readings
        config lease wire clock step lines due is_cut
        (W.attempts writer.old) (W.attempts writer.new) daemon.new) }
    ensures err { (config : ConfigModel) (lease : Option ℕ) (wire : L) (clock : C)
        → HasServed L.takings L.gives C.readings config lease wire clock 0 daemon.old
        → IfErr result (FailsOver L.takings L.gives C.readings config lease wire clock step
        (W.attempts writer.old) (W.attempts writer.new) daemon.new) }
    ensures memory { IfErr result (λ fault. fault ≡ ServeFault.OutOfMemory) }
    ensures losses { AppendsText (E.contents errors.old) (E.contents errors.new) }
{
    let mut log = TotalsLog::new(step);
    let mut reports = Reports::new();
    for _line in 0..lines {
        let reading = attend_until(daemon, log.due(), &mut reports, errors);
        log.write(alloc, reading, daemon.totals(), writer)?;
    }
    Ok(())
}

/// Attends to a node until a turn begins at the reading `due` of the clock or later, and reports
/// each second what went wrong. Returns the reading of the last turn.
fn attend_until<L: WatchedWire, C: trdp_wire::Clock, E: Write>(
    daemon: &mut Daemon<L, C>,
    due: u64,
    reports: &mut Reports,
    errors: &mut E,
) -> u64
    ensures served { (config : ConfigModel) (lease : Option ℕ) (wire : L) (clock : C) (n : ℕ)
        → (before : HasServed L.takings L.gives C.readings config lease wire clock n daemon.old)
        → ServesUntilDue L.takings L.gives C.readings config lease wire clock
        before.turns before.gives due result daemon.new }
    ensures looked { (n : ℕ) × AttendsToLooks L.takings L.gives L.rested C.readings due n
        daemon.old daemon.new reports.old reports.new
        (E.contents errors.old) (E.contents errors.new) }
    ensures losses { AppendsText (E.contents errors.old) (E.contents errors.new) }
{
    let mut reading = 0;
    for _look in 0..u64::MAX {
        reading = daemon.attend(due.min(reports.due()));
        reports.look(daemon, reading, errors);
        if due <= reading {
            return reading;
        }
    }
    reading
}

/// The microseconds from one line of totals to the next; longer than any daemon runs if the number
/// of seconds is 0.
#[tactic(auto, unfolding(crate::specs::Attending::totals_period))]
fn step_of(seconds: u32) -> u64
    ensures { result ≡ totals_period seconds }
{
    if seconds == 0 {
        u64::MAX
    } else {
        u64::from(seconds) * 1_000_000
    }
}
