//! What a daemon reports on the error stream while it serves.

ghost use Rattle.std.specs.Prelude.{◌≡◌, ◌≤◌, ◌<◌, ◌++◌, true, not, codes, IfSome};
ghost use Rattle.std.specs.Io.KnownBytes.{Appends};
ghost use Rattle.trdp_script.specs.Writes.{PartlyWrites};
ghost use Rattle.trdp_program.specs.Faults.{AppendsText};
ghost use Rattle.trdp_program.specs.Reporting.{Looks, TellsCount, next_look, no_reports};
ghost use Rattle.trdp_program.specs.Streams.{cut_line_end};

use crate::report_lines::{LatestLost, LatestUnread, MissingLine};
use crate::told::tell_line;
use crate::totals_log::line_end;
use std::fmt::{Display, InlineText};
use std::io::Write;
use trdp_daemon::Daemon;
use trdp_wire::{Clock, Wire};

/// The microseconds from one look at what went wrong to the next.
const LOOK_STEP: u64 = 1_000_000;

/// Room for what a line says of the latest give or take, in bytes: more than the longest.
const LATEST_ROOM: usize = 320;

/// What went wrong at the ports of a daemon, as far as the error stream has lines about it.
#[derive(Drop)]
pub(crate) struct Reports {
    /// How many gives were lost up to the latest line about them that was written whole.
    lost: u64,
    /// How many takes failed up to the latest line about them that was written whole.
    unread: u64,
    /// How many files of control sockets were gone at the latest line about them that was written
    /// whole, less those that are there again.
    missing: usize,
    /// The reading of the clock, in microseconds, before which there is no further look.
    due: u64,
    /// Whether the latest line was written only in part.
    is_cut: bool,
}

impl Reports {
    /// The reports of a daemon that has taken no turn.
    pub(crate) fn new() -> Reports
        ensures { result ≡ no_reports }
    {
        Reports {
            lost: 0,
            unread: 0,
            missing: 0,
            due: 0,
            is_cut: false,
        }
    }

    /// The reading of the clock, in microseconds, before which there is no further look.
    pub(crate) fn due(&self) -> u64
        ensures { result ≡ self.now.due }
    {
        self.due
    }

    /// Writes a line for each kind of thing that went wrong since the line before: gives that were
    /// lost, takes that failed, and files of control sockets that are gone. There is no further
    /// look for a second; `reading` is the reading of the last turn. What the stream does not take
    /// counts in the next line.
    pub(crate) fn look<L: Wire, C: Clock, E: Write>(
        &mut self,
        daemon: &Daemon<L, C>,
        reading: u64,
        errors: &mut E,
    )
        ensures due { self.new.due ≡ next_look reading self.old.due }
        ensures quiet { reading < self.old.due → (self.new ≡ self.old)
            × (E.contents errors.new ≡ E.contents errors.old) }
        ensures told { self.old.due ≤ reading → Looks daemon.now.totals self.old self.new
            (E.contents errors.old) (E.contents errors.new) }
        ensures appends { AppendsText (E.contents errors.old) (E.contents errors.new) }
    {
        if reading < self.due {
            return;
        }
        self.due = reading.saturating_add(LOOK_STEP);
        self.tell_lost(daemon, errors);
        self.tell_unread(daemon, errors);
        self.tell_missing(daemon, errors);
    }

    /// Writes a line if gives were lost since the line before.
    fn tell_lost<L: Wire, C: Clock, E: Write>(&mut self, daemon: &Daemon<L, C>, errors: &mut E)
        ensures told { TellsCount (codes "lost") self.old.lost daemon.now.totals.lost self.new.lost
            self.old.is_cut self.new.is_cut (E.contents errors.old) (E.contents errors.new) }
        ensures kept { self.new ≡ record self.old {
          lost = self.new.lost;
          is_cut = self.new.is_cut;
        } }
    {
        let total = daemon.totals().lost;
        let latest = LatestLost(daemon.wire().refusal());
        self.lost = self.tell_count("lost", self.lost, total, latest, errors);
    }

    /// Writes a line if takes failed since the line before.
    fn tell_unread<L: Wire, C: Clock, E: Write>(&mut self, daemon: &Daemon<L, C>, errors: &mut E)
        ensures told { TellsCount (codes "unread") self.old.unread daemon.now.totals.unread
            self.new.unread self.old.is_cut self.new.is_cut
            (E.contents errors.old) (E.contents errors.new) }
        ensures kept { self.new ≡ record self.old {
          unread = self.new.unread;
          is_cut = self.new.is_cut;
        } }
    {
        let total = daemon.totals().unread;
        let latest = LatestUnread(daemon.wire().unread());
        self.unread = self.tell_count("unread", self.unread, total, latest, errors);
    }

    /// Writes a line if more files of control sockets are gone than before.
    fn tell_missing<L: Wire, C: Clock, E: Write>(&mut self, daemon: &Daemon<L, C>, errors: &mut E)
        ensures appends { AppendsText (E.contents errors.old) (E.contents errors.new) }
        ensures kept { self.new ≡ record self.old {
          missing = self.new.missing;
          is_cut = self.new.is_cut;
        } }
    {
        let missing = daemon.wire().missing();
        self.missing = self.missing.min(missing.count);
        if missing.count > self.missing && self.tell(MissingLine(missing), errors) {
            self.missing = missing.count;
        }
    }

    /// Writes a line if `total` is more than `told`, the number up to the line before; it has the
    /// difference, and what there is to say of the latest. Returns the number up to the latest line
    /// that was written whole.
    fn tell_count<D: Display + Drop, E: Write>(
        &mut self,
        what: &str,
        told: u64,
        total: u64,
        latest: D,
        errors: &mut E,
    ) -> u64
        ensures told { TellsCount what.now told total result self.old.is_cut self.new.is_cut
            (E.contents errors.old) (E.contents errors.new) }
        ensures kept { self.new ≡ record self.old { is_cut = self.new.is_cut } }
    {
        if total <= told {
            return told;
        }
        let count = total - told;
        let latest = InlineText::<LATEST_ROOM>::of(latest);
        let latest = latest.as_str();
        let line = format_args!("{what} {count} since the last line{latest}");
        if self.tell(line, errors) {
            return total;
        }
        told
    }

    /// Writes a line, and before it the end of a line that was cut. Returns whether all was
    /// written.
    fn tell<D: Display + Drop, E: Write>(&mut self, text: D, errors: &mut E) -> bool
        ensures told { IfSome (D.output text) (λ text. PartlyWrites (E.contents errors.old)
            (E.contents errors.new) (cut_line_end self.old.is_cut ++ text ++ codes "\n")) }
        ensures whole { result ≡ true → IfSome (D.output text) (λ text.
            Appends (E.contents errors.old) (E.contents errors.new)
            (cut_line_end self.old.is_cut ++ text ++ codes "\n")) }
        ensures appends { AppendsText (E.contents errors.old) (E.contents errors.new) }
        ensures kept { self.new ≡ record self.old { is_cut = not result } }
    {
        let end = line_end(self.is_cut);
        let is_whole = tell_line(format_args!("{end}{text}"), errors);
        self.is_cut = !is_whole;
        is_whole
    }
}
