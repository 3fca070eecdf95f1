//! The command line: `trdpd check CONFIG`, `trdpd run CONFIG`, `trdpd serve CONFIG --turns N` and
//! `trdpd daemon CONFIG`.

use crate::version::VERSION;
use clap::builder::ValueParser;
use clap::{Arg, ArgMatches, Command, Error, value_parser};
use std::alloc::{AllocError, Global};
use trdp_program::ServiceOptions;

/// The text below the help.
const EXAMPLE: &str = "Example, with a configuration of this project:\n  \
     trdpd check examples/control/door.toml\n  \
     trdpd daemon examples/control/door.toml --totals 60\n\n\
     The manual page: man trdpd, or man docs/trdpd.1 in the project's folder";

/// What the program is asked to do, with a configuration.
#[derive(Clone, Copy)]
pub struct Task<'a> {
    /// The path of the configuration's file.
    pub path: &'a str,
    /// What else the words ask for; only a service has a lease, and a run has no folder either.
    pub options: ServiceOptions<'a>,
    /// What it is asked to do.
    pub work: Work,
}

/// What the program is asked to do.
#[derive(Clone, Copy)]
pub enum Work {
    /// To say what the configuration means.
    Check,
    /// To run the script at standard input.
    Run,
    /// To serve the node over the system's sockets for that many turns.
    Serve(u32),
    /// To serve the node over the system's sockets until the program is stopped. The number is the
    /// seconds from one line of totals to the next; 0 for no line.
    Daemon(u32),
}

/// Reads the words of the command line, of which the first names the program. Good words are
/// `check`, `run`, `serve` or `daemon` with a configuration file, and these:
/// - `serve` has `--turns` with a number of 0 to 4,294,967,295, and `daemon` may have `--totals`
///   with such a number;
/// - all but `run` may have `--controls` with a folder, whose name is not empty;
/// - `serve` and `daemon` may have `--lease` with a number of 1 to 86,400.
///
/// # Errors
/// The text is for the user. The kind is `OutOfMemory` if an allocation fails, `DisplayHelp` and
/// `DisplayVersion` at a request for help or for the version, and another for wrong words.
pub fn read_words<'a>(alloc: Global, words: &'a [String]) -> Result<Task<'a>, Error> {
    let matches = command(alloc)?.try_get_matches_from(words)?;
    Ok(task_of(&matches))
}

/// What good words ask for.
fn task_of<'a>(matches: &ArgMatches<'a>) -> Task<'a> {
    // What is asked for, the path and the turns are required, so that good words have them. No file
    // has the empty path, and no turn does no harm.
    let (name, words) = matches.subcommand().unwrap_or(("run", matches));
    Task {
        path: words.get_str("CONFIG").unwrap_or(""),
        options: ServiceOptions {
            folder: words.get_str("controls"),
            lease: words.get_one::<u32>("lease"),
        },
        work: match name {
            "check" => Work::Check,
            "serve" => Work::Serve(words.get_one::<u32>("turns").unwrap_or(0)),
            "daemon" => Work::Daemon(words.get_one::<u32>("totals").unwrap_or(0)),
            _ => Work::Run,
        },
    }
}

/// The words that are understood.
fn command<'a>(alloc: Global) -> Result<Command<'a>, AllocError> {
    Command::new(alloc, "trdpd")
        .about("A communication node for the Train Real-time Data Protocol (TRDP, IEC 61375-2-3)")
        .version(VERSION)
        .after_help(EXAMPLE)
        .subcommand_required(true)
        .subcommand(check(alloc)?)?
        .subcommand(run(alloc)?)?
        .subcommand(serve(alloc)?)?
        .subcommand(daemon(alloc)?)
}

/// The words that ask what a configuration means.
fn check<'a>(alloc: Global) -> Result<Command<'a>, AllocError> {
    Command::new(alloc, "check")
        .about("Say what a configuration means, or what is wrong with it")
        .arg(config(alloc))?
        .arg(controls(alloc))
}

/// The words that ask for a script to be played.
fn run<'a>(alloc: Global) -> Result<Command<'a>, AllocError> {
    Command::new(alloc, "run")
        .about("Play the script at standard input; print what the node gives")
        .arg(config(alloc))
}

/// The words that ask for a number of turns.
fn serve<'a>(alloc: Global) -> Result<Command<'a>, AllocError> {
    let turns = Arg::new(alloc, "turns")
        .long("turns")
        .value_name("N")
        .required(true)
        .value_parser(value_parser!(u32))
        .help("How many turns to take");
    Command::new(alloc, "serve")
        .about("Serve the node for N turns without a rest; print its totals")
        .arg(config(alloc))?
        .arg(turns)?
        .arg(controls(alloc))?
        .arg(lease(alloc))
}

/// The words that ask for a daemon.
fn daemon<'a>(alloc: Global) -> Result<Command<'a>, AllocError> {
    let totals = Arg::new(alloc, "totals")
        .long("totals")
        .value_name("SECONDS")
        .value_parser(value_parser!(u32))
        .help("How many seconds lie between two lines of totals [default: 0, no line]");
    Command::new(alloc, "daemon")
        .about("Serve the node at its ports until it is stopped")
        .arg(config(alloc))?
        .arg(totals)?
        .arg(controls(alloc))?
        .arg(lease(alloc))
}

/// The words that name the folder of the control sockets.
fn controls<'a>(alloc: Global) -> Arg<'a> {
    Arg::new(alloc, "controls")
        .long("controls")
        .value_name("FOLDER")
        .value_parser(ValueParser::NonEmptyString)
        .help("The folder of the control sockets, in place of UDP control ports")
}

/// The words that give the lease.
fn lease<'a>(alloc: Global) -> Arg<'a> {
    Arg::new(alloc, "lease")
        .long("lease")
        .value_name("SECONDS")
        .value_parser(value_parser!(u32).range(1..=86_400))
        .help("After how many silent seconds of its application a slot is reset")
}

/// The word that names the configuration file.
fn config<'a>(alloc: Global) -> Arg<'a> {
    Arg::new(alloc, "CONFIG")
        .required(true)
        .help("The node's configuration, a file of TOML")
}
