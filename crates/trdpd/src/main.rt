//! The program `trdpd`: a communication node, whose events come from a script or from a network.
//!
//! - `trdpd check CONFIG` says on standard output what the configuration in the file CONFIG (TOML)
//!   means, and what its author may not have meant.
//! - `trdpd run CONFIG` reads the configuration and, if nothing is wrong with it, the script from
//!   standard input. What the node gives its slots goes to standard output.
//! - `trdpd serve CONFIG --turns N` reads the configuration in the same way, binds the node's UDP
//!   ports at its address, and takes N turns without sleeping. Then `taken T offered O lost L
//!   unread U memory M` goes to standard output. T datagrams came and O were offered to the
//!   network, which refused L of these; U takes failed, and M things were lost because an
//!   allocation failed.
//! - `trdpd daemon CONFIG` does the same until it is stopped: between two turns it rests until a
//!   datagram comes or something is due. With `--totals SECONDS` the line of its totals so far
//!   goes to standard output with the first turn that begins that many seconds after that of the
//!   line before. To standard error go first the words of a check and then, at most once a second,
//!   what the network refused. Neither stream can stop it: what one doesn't take at once is left
//!   out.
//! - `trdpd --version` says which program this is, and with which logic it was proved.
//!
//! With `--controls FOLDER` the control ports and the operator's are Unix stream sockets in the
//! folder, files that have the port's number as their name, and no UDP ports; `check` accepts
//! these words too. With `--lease SECONDS` a slot is reset whose application said nothing for that
//! long.
//!
//! The exit status is
//! - 0 at the script's end, after the last turn, for a configuration without a fault, and for the
//!   version;
//! - 1 if the configuration is rejected, with `config fault NAME` on standard error, followed by
//!   the key of a Missing or WrongType, or by the number of a dataset for NoDataset. A check and a
//!   daemon say after that line where each fault is, and what is expected there. A file that can't
//!   be read is `config fault Unreadable`, or `config fault OutOfMemory` if an allocation fails
//!   while it is read; a check and a daemon say in a second line which file, and why;
//! - 2 for other words, with the usage;
//! - 3 for a bad line, with `line N fault NAME`;
//! - 4 after a `read fault`, a `write fault` or a `memory fault`, and after a `bind fault`: the
//!   system refuses a port or a path. A daemon has no `write fault`.
//!
//! **Proved**, in the contracts of `trdp_program`'s `run_program`, `serve_with`, `check_program`
//! and `report_daemon`: what it does in each case, with the exit status. They don't say which words
//! a check writes, where ports are bound, where connections are taken, nor what the system does.
//! The functions here and in `command` have no clauses. **Tested** over this program: how the file
//! is read, the words of a check, the help and the version (`bench/refused_runs.py`,
//! `bench/config_words.py`, `bench/command_words.py`), and the ports and paths (the tests of
//! `clients/`). `clap` reads the command line; no test compares its texts about wrong words.
#![tactic(auto)]

mod command;
mod version;

use clap::error::ErrorKind;
use command::{Task, Work, read_words};
use std::fmt::Display;
use std::process::ExitCode;
use std::{env, fs, io};
use trdp_dataset::ConfigFault;
use trdp_program::{
    CONFIG_STATUS, ConfigFaultText, Ready, ScriptFaultText, check_program, report_daemon,
    run_program, script_status, serve_with,
};
use trdp_script::ScriptFault;
use version::{LOGIC, VERSION};

/// The exit status of words that are no task, and of a request for help (profile).
const USAGE_STATUS: u8 = 2;

/// What is printed for words that aren't text.
const NO_TEXT: &str = "error: a word of the command line isn't valid UTF-8\n\n\
     Usage: trdpd <COMMAND>\n\n\
     For more information, try '--help'.\n";

fn main(rt: HostRuntime) -> ExitCode {
    ExitCode::from(status(&rt))
}

/// Reads the command line, does what it asks for, and returns the exit status.
fn status(rt: &HostRuntime) -> u8 {
    let words = match given_words(rt) {
        Ok(words) => words,
        Err(error) => return refuse(rt, NO_TEXT, error.kind() == io::ErrorKind::OutOfMemory),
    };
    match read_words(rt.alloc(), &words) {
        Ok(task) => follow(rt, &task),
        Err(error) if error.kind() == ErrorKind::DisplayVersion => tell_version(rt),
        Err(error) => refuse(rt, &error, error.kind() == ErrorKind::OutOfMemory),
    }
}

/// Does what the command line asks for, and returns the exit status. Neither standard output nor
/// standard error can make a daemon wait.
fn follow(rt: &HostRuntime, task: &Task) -> u8 {
    let Some(config) = read_file(rt, task) else {
        return CONFIG_STATUS;
    };
    let options = task.options;
    let (mut out, mut err) = (rt.stdout(), rt.stderr());
    match task.work {
        Work::Check => check_program(rt.alloc(), &config, options.folder, &mut out, &mut err),
        Work::Run => run_program(rt, &config, &mut rt.stdin(), &mut out, &mut err),
        Work::Serve(turns) => serve_with(rt, &config, options, turns, &mut out, &mut err),
        Work::Daemon(seconds) => {
            let (mut out, mut err) = (Ready::output(out), Ready::error(err));
            report_daemon(rt, &config, options, seconds, &mut out, &mut err)
        }
    }
}

/// Says which program this is and what it was proved with, and returns the exit status.
fn tell_version(rt: &impl Print) -> u8 {
    // What standard output does with the text changes nothing.
    let _ = println!(rt; "trdpd {VERSION}, proved with logic {LOGIC}");
    0
}

/// Reads the configuration's file; None if that fails, with a line on standard error and, for a
/// check and a daemon, a second that says why.
fn read_file(rt: &HostRuntime, task: &Task) -> Option<Vec<u8>> {
    let path = task.path;
    match fs::read(rt, path) {
        Ok(config) => Some(config),
        Err(error) => {
            if error.kind() == io::ErrorKind::OutOfMemory {
                tell(rt, ConfigFaultText(ConfigFault::OutOfMemory));
            } else {
                tell(rt, "config fault Unreadable");
            }
            if matches!(task.work, Work::Check | Work::Daemon(_)) {
                // What standard error does with the text changes nothing.
                let _ = eprintln!(rt; "{path}: {error}");
            }
            None
        }
    }
}

/// Prints a fault in a line of its own.
fn tell<D: Display + Drop>(rt: &impl Eprint, fault: D) {
    // What standard error does with the text changes nothing.
    let _ = rt.eprintln(fault);
}

/// The words of the command line.
fn given_words(rt: &HostRuntime) -> io::Result<Vec<String>> {
    Ok(env::args(rt)?.collect(rt.alloc())?)
}

/// Prints why the words can't be followed, and returns the exit status.
fn refuse<D: Display + Drop>(rt: &impl Eprint, error: D, is_out_of_memory: bool) -> u8 {
    if is_out_of_memory {
        tell(rt, ScriptFaultText(ScriptFault::OutOfMemory));
        script_status(Err(ScriptFault::OutOfMemory))
    } else {
        // What standard error does with the text changes nothing.
        let _ = rt.eprint(error);
        USAGE_STATUS
    }
}
