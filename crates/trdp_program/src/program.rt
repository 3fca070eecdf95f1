//! A run of the program: the configuration first, and then the script.

ghost use Rattle.std.specs.Prelude.{◌≡◌, ◌⊎◌, Ok, IfOk, IfErr, OnOk};
ghost use Rattle.std.specs.Io.KnownBytes.{Keeps};
ghost use Rattle.trdp_dataset.specs.Configs.{ReadsToml, config_of};
ghost use Rattle.trdp_text.specs.ConfigNames.{text_of_config_fault};
ghost use Rattle.trdp_program.specs.Faults.{TellsFault};
ghost use Rattle.trdp_program.specs.Programs.{IsConfig, IsConfigFault, RunsProgram};

use crate::faults::{ScriptFaultText, script_status};
use crate::told::tell_line;
use std::alloc::Global;
use std::io::{Read, Write};
use trdp_dataset::{ConfigFault, NodeConfig};
use trdp_script::run_script;
use trdp_text::ConfigFaultText;

/// The exit status if the configuration is rejected (profile).
pub const CONFIG_STATUS: u8 = 1;

/// Runs a script from the reader over a node of that configuration (TOML), writes what the node
/// gives to the writer, and returns the exit status (profile). It is 0 at the script's end, 1 if
/// the configuration is rejected, 3 for a bad line, and else 4. A fault gives one line on `errors`,
/// or a front of it if `errors` fails. What was written before a fault stays.
///
/// The configuration is looked at before the script: if it is rejected, nothing is written.
pub fn run_program<H: AllocGlobal, R: Read, W: Write, E: Write>(
    rt: &H,
    config: &[u8],
    reader: &mut R,
    writer: &mut W,
    errors: &mut E,
) -> u8
    ensures status { (result ≡ 0) ⊎ (result ≡ 1) ⊎ (result ≡ 3) ⊎ (result ≡ 4) }
    ensures config { (result ≡ 1) ⊎ IsConfig config.now }
    ensures runs { RunsProgram config.now (R.remaining reader.old) (R.remaining reader.new)
        (W.contents writer.old) (W.contents writer.new)
        (E.contents errors.old) (E.contents errors.new) result }
    ensures quiet { result ≡ 1 → Keeps (W.contents writer.old) (W.contents writer.new) }
    ensures faultless { result ≡ 0 → Keeps (E.contents errors.old) (E.contents errors.new) }
{
    let alloc = rt.alloc();
    let Ok(config) = read_config(alloc, config, errors) else {
        return CONFIG_STATUS;
    };
    let end = run_script(alloc, config, reader, writer);
    if let Err(fault) = end {
        tell_line(ScriptFaultText(fault), errors);
    }
    script_status(end)
}

/// Reads the configuration (TOML). A fault gives one line on `errors`.
///
/// # Errors
/// The fault of the configuration, or `OutOfMemory` in its place.
pub(crate) fn read_config<E: Write>(
    alloc: Global,
    config: &[u8],
    errors: &mut E,
) -> Result<NodeConfig, ConfigFault>
    ensures taken { IfOk result (λ taken. ReadsToml config_of config.now (Ok taken)) }
    ensures fault { IfErr result (IsConfigFault config.now) }
    ensures faultless { OnOk result (Keeps (E.contents errors.old) (E.contents errors.new)) }
    ensures told { IfErr result (λ fault. TellsFault (text_of_config_fault fault)
        (E.contents errors.old) (E.contents errors.new)) }
{
    match NodeConfig::from_toml(alloc, config) {
        Ok(taken) => Ok(taken),
        Err(fault) => {
            tell_line(ConfigFaultText(fault), errors);
            Err(fault)
        }
    }
}
