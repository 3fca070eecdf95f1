//! A check of a configuration.

ghost use Rattle.std.specs.Prelude.{◌≡◌, ◌≢◌, ◌⊎◌, IfErr};
ghost use Rattle.std.specs.Io.KnownBytes.{Keeps};
ghost use Rattle.trdp_program.specs.Checking.{ChecksProgram};
ghost use Rattle.trdp_program.specs.Faults.{AppendsText};
ghost use Rattle.trdp_program.specs.Programs.{IsConfig};

use crate::faults::ServeFault;
use crate::program::CONFIG_STATUS;
use crate::told::{end_status, tell_config_fault};
use std::alloc::Global;
use std::io::Write;
use trdp_dataset::NodeConfig;
use trdp_report::report;
use trdp_script::write_whole;

/// Says on the writer what a configuration (TOML) means and what its author may not have meant, and
/// returns the exit status (profile). It is 0; 1 if the configuration is rejected, with its fault
/// on `errors`, and after that each fault of the file; 4 if the writer or an allocation fails, with
/// a line on `errors`. The ports for lines are files of a folder, if there is one.
pub fn check_program<W: Write, E: Write>(
    alloc: Global,
    config: &[u8],
    folder: Option<&str>,
    writer: &mut W,
    errors: &mut E,
) -> u8
    ensures status { (result ≡ 0) ⊎ (result ≡ 1) ⊎ (result ≡ 4) }
    ensures config { (result ≡ 1) ⊎ IsConfig config.now }
    ensures checks { ChecksProgram config.now (W.contents writer.old) (W.contents writer.new)
        (E.contents errors.old) (E.contents errors.new) result }
    ensures quiet { result ≡ 1 → Keeps (W.contents writer.old) (W.contents writer.new) }
    ensures faultless { result ≡ 0 → Keeps (E.contents errors.old) (E.contents errors.new) }
{
    match NodeConfig::from_toml(alloc, config) {
        Ok(taken) => end_status(write_report(alloc, config, &taken, folder, writer), errors),
        Err(fault) => {
            tell_config_fault(alloc, config, fault, errors);
            CONFIG_STATUS
        }
    }
}

/// Writes what a configuration means and what its author may not have meant.
///
/// # Errors
/// `Write` if the writer fails, and `OutOfMemory`.
fn write_report<W: Write>(
    alloc: Global,
    config: &[u8],
    taken: &NodeConfig,
    folder: Option<&str>,
    writer: &mut W,
) -> Result<(), ServeFault>
    ensures written { AppendsText (W.contents writer.old) (W.contents writer.new) }
    ensures err { IfErr result (λ fault. fault ≢ ServeFault.Bind) }
{
    let text = report(alloc, config, taken, folder).map_err(|_| ServeFault::OutOfMemory)?;
    write_whole(writer, text.as_bytes()).map_err(|_| ServeFault::Write)
}
