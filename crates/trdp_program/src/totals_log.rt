//! The lines of totals of a daemon.

ghost use Rattle.std.specs.Prelude.{◌≡◌, ◌+◌, ◌-◌, ◌^◌, ◌++◌, [], ◌∷◌, List, take, min, ℕ};
ghost use Rattle.std.specs.Prelude.{OnOk, IfOk, IfErr, false, string_bytes};
ghost use Rattle.trdp_base.specs.Reported.{TellsMore};
ghost use Rattle.trdp_program.specs.Attending.{text_of_line};
ghost use Rattle.trdp_program.specs.Streams.{attempt, is_cut_behind, cut_line_end};

use crate::faults::ServeFault;
use crate::serve::TotalsText;
use crate::stream::Stream;
use std::alloc::{AllocError, Global};
use trdp_daemon::Totals;

/// The lines of totals: when the next one is due, and whether the latest is whole.
#[derive(Drop)]
pub(crate) struct TotalsLog {
    /// The microseconds from one line to the next.
    step: u64,
    /// The reading of the clock at which the next line is due.
    due: u64,
    /// Whether the stream took a line only in part, and not yet its end.
    is_cut: bool,
}

impl TotalsLog {
    /// The lines of a service that has taken no turn.
    pub(crate) fn new(step: u64) -> TotalsLog
        ensures step { result.step ≡ step }
        ensures due { result.due ≡ step }
        ensures is_cut { result.is_cut ≡ false }
    {
        TotalsLog {
            step,
            due: step,
            is_cut: false,
        }
    }

    /// The reading of the clock at which the next line is due.
    pub(crate) fn due(&self) -> u64
        ensures { result ≡ self.now.due }
    {
        self.due
    }

    /// Asks a stream to take the line of these totals, and before it the end of a line that was
    /// cut; what it doesn't take is left out. `reading` is the last turn's.
    ///
    /// # Errors
    /// `OutOfMemory`, and then the stream is asked for nothing.
    pub(crate) fn write<W: Stream>(
        &mut self,
        alloc: Global,
        reading: u64,
        totals: Totals,
        writer: &mut W,
    ) -> Result<(), ServeFault>
        ensures ok { OnOk result ((count : ℕ) × (bytes : List ℕ)
            × (bytes ≡ cut_line_end self.old.is_cut ++ text_of_line totals)
            × TellsMore (W.attempts writer.old) (W.attempts writer.new) (attempt bytes count ∷ [])
            × (self.new.is_cut ≡ is_cut_behind self.old.is_cut (take count bytes))) }
        ensures due { OnOk result (self.new.due ≡ min (reading + self.old.step) (2 ^ 64 - 1)) }
        ensures step { self.new.step ≡ self.old.step }
        ensures err { IfErr result (λ fault. (fault ≡ ServeFault.OutOfMemory)
            × (W.attempts writer.new ≡ W.attempts writer.old)) }
    {
        let Ok(line) = line_of(alloc, self.is_cut, totals) else {
            return Err(ServeFault::OutOfMemory);
        };
        let bytes = line.as_bytes();
        let (taken, _) = bytes.split_at(writer.try_write(bytes));
        self.is_cut = is_cut_behind(self.is_cut, taken);
        self.due = reading.saturating_add(self.step);
        Ok(())
    }
}

/// The line of totals, and before it the end of a line that was cut.
///
/// # Errors
/// `AllocError` if an allocation fails.
fn line_of(alloc: Global, is_cut: bool, totals: Totals) -> Result<String, AllocError>
    ensures { IfOk result (λ line. string_bytes line
        ≡ cut_line_end is_cut ++ text_of_line totals) }
{
    let end = line_end(is_cut);
    format!(in alloc; "{end}{}\n", TotalsText(totals))
}

/// What ends a line that was cut; nothing if it is whole.
pub(crate) fn line_end(is_cut: bool) -> &'static str
    ensures { result.now ≡ cut_line_end is_cut }
{
    if is_cut { "\n" } else { "" }
}

/// Whether a line is cut after these bytes: the last of them isn't its end. Without any, as
/// before.
fn is_cut_behind(before: bool, bytes: &[u8]) -> bool
    ensures { result ≡ is_cut_behind before bytes.now }
{
    match bytes.last() {
        Some(byte) => *byte != b'\n',
        None => before,
    }
}
