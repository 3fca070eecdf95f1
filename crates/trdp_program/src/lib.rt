//! What the program `trdpd` does, over any reader and writer.
//!
//! - [`run_program`] plays a script over a node.
//! - [`serve_with`] serves a node over the system's sockets for a number of turns;
//!   [`serve_program`] does so only over UDP ports. [`ServiceOptions`] say where lines come in, and
//!   whether a silent slot is reset.
//! - [`report_daemon`] serves a node until the program is stopped.
//! - [`check_program`] says what a configuration means, in the words of `trdp_report`. A daemon
//!   starts with the same words.
//!
//! ```text
//! let status = run_program(&rt, config, &mut reader, &mut writer, &mut errors);    // 0, 1, 3 or 4
//! ```
//!
//! The configuration is looked at first, as bytes of TOML. The exit status is
//! - 0 at the script's end, after the last turn, for a check without a fault, and after 2^64 - 1
//!   lines of totals, which a daemon hardly reaches;
//! - 1 if the configuration is rejected, with `config fault NAME` on `errors`, followed by the key
//!   of a Missing or WrongType, or by the number of a dataset for NoDataset;
//! - 3 for a bad line, with `line N fault NAME`;
//! - 4 after a `read fault`, a `write fault` or a `memory fault`, and after a `bind fault`: the
//!   system refuses a port or a path. A daemon has no `write fault`.
//!
//! At status 0 nothing is on `errors`, else a front of the fault's line. A check says after it
//! where each fault is. A daemon writes more: words before and after its fault, and lines of what
//! the network refused. If the configuration is rejected, the fault's line is the first.
//!
//! **Proved**: what a script gives and where it stops (`trdp_script::run_script`), with the exit
//! status. For any wire and clock, the totals are those of that many turns over them
//! (`trdp_daemon::Daemon::run`); [`serve_with`] adds the exit status and the line. The system's
//! sockets report nothing: of them only the number of turns is proved. [`report_daemon`] asks its
//! output, a [`Stream`], to take lines of totals, each once, and nothing else. What the output
//! doesn't take is left out, and a line that was cut is ended before the next. Each line is that
//! of more turns of one node, and comes with the first turn that begins a step after that of the
//! line before. Over a wire and a clock that report, these are the turns that they report
//! ([`attend_lines`]).
//!
//! Of the wire of a service it is proved (`wire_over` in `wires`): without a folder all ports that
//! the configuration names have sockets. Beside a folder only those of the network have, and lines
//! come in at the files of that folder. There is no wire only if the network refused its wire or a
//! registry, if the folder refused a file, or if an allocation failed. `UdpWire::open` and
//! `RestingWire::open` of `trdp_udp` are refused only if the sockets refuse a call. A `bind fault`
//! is such a refusal (`ServeFault::from`), and a service that has a wire never ends so
//! (`attend_service` in `attend`, `serve_service` in `serve`).
//!
//! Of a daemon's reports it is proved what one look writes (`Reports::look` in `reports`): a line
//! about lost gives or failed takes has their number since the line before that was written whole,
//! and there is none if nothing is new. A daemon looks at most once a second, and rests at most
//! until the next look (`attend_until` in `attend`).
//!
//! **Tested**: the other words on `errors`: a text that is left out, or another text instead of it,
//! breaks no contract. Also what the system says to a write. [`Ready`] asks it before each one
//! whether it would wait, and is tested over pipes and devices that are full or gone.
//!
//! **Trusted**, and tested over daemons: [`serve_with`] and [`report_daemon`] open their wire over
//! the system's sockets with the folder of their options, serve the node over that wire, and write
//! `bind fault` only if it was refused. Each of these is one call. The system's sockets and folder
//! report nothing, so no clause can say it.
#![tactic(auto)]

mod attend;
mod check;
mod daemon;
mod faults;
mod options;
mod program;
mod report_lines;
mod reports;
mod serve;
mod start;
mod stream;
mod told;
mod totals_log;
mod wires;

pub use attend::attend_lines;
pub use check::check_program;
pub use daemon::report_daemon;
pub use faults::{ScriptFaultText, ServeFault, script_status};
pub use options::ServiceOptions;
pub use program::{CONFIG_STATUS, run_program};
pub use serve::{serve_program, serve_with};
pub use stream::{Ready, Stream};
pub use trdp_text::ConfigFaultText;
