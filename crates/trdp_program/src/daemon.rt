//! The daemon, with words about its configuration.

ghost use Rattle.std.specs.Prelude.{◌≡◌, ◌⊎◌};
ghost use Rattle.trdp_program.specs.Attending.{AttendsProgram, totals_period};
ghost use Rattle.trdp_program.specs.Faults.{AppendsText};
ghost use Rattle.trdp_program.specs.Programs.{IsConfig};
ghost use Rattle.trdp_program.specs.Serving.{lease_of};

use crate::attend::attend;
use crate::options::ServiceOptions;
use crate::program::CONFIG_STATUS;
use crate::stream::Stream;
use crate::told::{end_status, tell_config_fault, tell_text};
use std::alloc::AllocError;
use std::fs::Files;
use std::io::Write;
use std::net::Net;
use std::time::Clock;
use trdp_dataset::NodeConfig;
use trdp_report::{refused_ports, report, unjoined_groups};

/// Serves a node of that configuration (TOML) over the system's sockets until the program is
/// stopped: binds its UDP ports, and takes turns with rests between them. The line of its totals so
/// far is offered to the writer with the first turn that begins `seconds` seconds after that of the
/// line before, or after the clock's first reading; never if `seconds` is 0. It ends by itself if a
/// port isn't bound or an allocation fails, and after 2^64 - 1 lines. The exit status is 1 if the
/// configuration is rejected, 4 after another fault, and else 0. A fault gives a line on `errors`,
/// or a front of it if `errors` fails. Nothing that happens to either stream ends it (profile).
///
/// The configuration is looked at first, and then the ports are bound: if it is rejected, nothing
/// is written.
///
/// On `errors` comes first what the configuration means, what its author may not have meant, and
/// which of its groups no link has joined. While the node is served, what the network refused
/// follows at most once a second, and why. The line of a fault is followed by each fault of a
/// configuration that is rejected, and else by which ports the system refuses, and why (profile).
///
/// The ports for lines are files of a folder, if there is one, and slots are reset after a lease.
pub fn report_daemon<H: Files + Net + Clock + AllocGlobal, W: Stream, E: Write>(
    rt: &H,
    config: &[u8],
    options: ServiceOptions,
    seconds: u32,
    writer: &mut W,
    errors: &mut E,
) -> u8
    ensures status { (result ≡ 0) ⊎ (result ≡ 1) ⊎ (result ≡ 4) }
    ensures config { (result ≡ 1) ⊎ IsConfig config.now }
    ensures attends { AttendsProgram config.now (lease_of options.entry.lease)
        (totals_period seconds)
        (W.attempts writer.old) (W.attempts writer.new)
        (E.contents errors.old) (E.contents errors.new) result }
    ensures quiet { result ≡ 1 → W.attempts writer.new ≡ W.attempts writer.old }
{
    let alloc = rt.alloc();
    match NodeConfig::from_toml(alloc, config) {
        Ok(taken) => {
            tell_text(first_words(rt, config, &taken, options.folder), errors);
            let status = end_status(attend(rt, taken, options, seconds, writer, errors), errors);
            tell_ports(rt, config, options.folder, status, errors);
            status
        }
        Err(fault) => {
            tell_config_fault(alloc, config, fault, errors);
            CONFIG_STATUS
        }
    }
}

/// What a configuration means and what its author may not have meant, and which of its groups no
/// link has joined.
///
/// # Errors
/// `AllocError` if an allocation fails.
fn first_words<H: Files + AllocGlobal>(
    rt: &H,
    config: &[u8],
    taken: &NodeConfig,
    folder: Option<&str>,
) -> Result<String, AllocError> {
    let alloc = rt.alloc();
    let mut text = report(alloc, config, taken, folder)?;
    text.push_str(&unjoined_groups(rt, alloc, taken)?)?;
    Ok(text)
}

/// Writes which ports of a configuration the system refuses, if a service ended with a fault.
fn tell_ports<H: Files + Net + AllocGlobal, E: Write>(
    rt: &H,
    config: &[u8],
    folder: Option<&str>,
    status: u8,
    errors: &mut E,
)
    ensures { AppendsText (E.contents errors.old) (E.contents errors.new) }
{
    if status != 0 {
        let alloc = rt.alloc();
        if let Ok(taken) = NodeConfig::from_toml(alloc, config) {
            tell_text(refused_ports(rt, alloc, &taken, folder), errors);
        }
    }
}
