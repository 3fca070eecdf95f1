//! What is written to the error stream.

ghost use Rattle.std.specs.Prelude.{◌≡◌, ◌⊎◌, ◌++◌, true, codes, IfSome};
ghost use Rattle.std.specs.Io.KnownBytes.{Appends, Keeps};
ghost use Rattle.trdp_text.specs.ConfigNames.{text_of_config_fault};
ghost use Rattle.trdp_program.specs.Faults.{TellsFault, TellsFaultFirst, AppendsText};
ghost use Rattle.trdp_program.specs.Faults.{EndsService};

use crate::faults::ServeFault;
use std::alloc::{AllocError, Global};
use std::fmt::{Display, InlineText, Write as _};
use std::io::Write;
use trdp_dataset::ConfigFault;
use trdp_report::fault_place;
use trdp_script::write_whole;
use trdp_text::ConfigFaultText;

/// Room for a line, in bytes: more than the longest, a line of a daemon's reports.
const LINE_ROOM: usize = 384;

/// Writes a text in one line, which allocates nothing, and returns whether the whole line was
/// written. A fault is a fault even if its line can't be written, or only in part.
pub(crate) fn tell_line<D: Display + Drop, W: Write>(text: D, writer: &mut W) -> bool
    ensures told { IfSome (D.output text) (λ text.
        TellsFault text (W.contents writer.old) (W.contents writer.new)) }
    ensures whole { result ≡ true → IfSome (D.output text) (λ text.
        Appends (W.contents writer.old) (W.contents writer.new) (text ++ codes "\n")) }
    ensures appends { AppendsText (W.contents writer.old) (W.contents writer.new) }
{
    let mut line = InlineText::<LINE_ROOM>::new();
    if writeln!(line, "{text}").is_ok() {
        write_whole(writer, line.as_str().as_bytes()).is_ok()
    } else {
        false
    }
}

/// The exit status of a service or of a check that ends so: 0, and 4 after a fault (profile),
/// which gives one line on `errors`.
pub(crate) fn end_status<E: Write>(end: Result<(), ServeFault>, errors: &mut E) -> u8
    ensures status { (result ≡ 0) ⊎ (result ≡ 4) }
    ensures ends { EndsService end (E.contents errors.old) (E.contents errors.new) result }
    ensures faultless { result ≡ 0 → Keeps (E.contents errors.old) (E.contents errors.new) }
{
    match end {
        Ok(()) => 0,
        Err(fault) => {
            tell_line(fault, errors);
            4
        }
    }
}

/// Writes a fault of a configuration, and after its line each fault of the file.
pub(crate) fn tell_config_fault<E: Write>(
    alloc: Global,
    config: &[u8],
    fault: ConfigFault,
    errors: &mut E,
)
    ensures { TellsFaultFirst (text_of_config_fault fault)
        (E.contents errors.old) (E.contents errors.new) }
{
    if tell_line(ConfigFaultText(fault), errors) {
        tell_text(fault_place(alloc, config, fault), errors);
    }
}

/// Writes a text, or nothing if an allocation for it failed.
pub(crate) fn tell_text<E: Write>(text: Result<String, AllocError>, errors: &mut E)
    ensures { AppendsText (E.contents errors.old) (E.contents errors.new) }
{
    if let Ok(text) = text {
        // What standard error does with the text changes nothing.
        let _ = write_whole(errors, text.as_bytes());
    }
}
