//! The output of a script, collected so that one write holds many lines.

ghost use Rattle.std.specs.Prelude.{◌≡◌, ◌<◌, ◌≤◌, [], length, take, vec_len};
ghost use Rattle.std.specs.Prelude.{OnOk, OnErr, IfOk, IfErr};
ghost use Rattle.std.specs.Io.KnownBytes.{Appends, WriteAppends};
ghost use Rattle.trdp_script.specs.Writes.{PassesOn, PassesSome, PartlyWrites};
ghost use Rattle.trdp_script.specs.declared.output.TheConstants.{OUTPUT_FULL};

use crate::fault::ScriptFault;
use std::alloc::{AllocError, Global};
use std::io::{ErrorKind, Write};

/// How many bytes of output are collected before they are written.
const OUTPUT_FULL: usize = 65_536;

/// Room for these bytes and for the text of a moment at which many objects act; it may grow.
const OUTPUT_ROOM: usize = 2 * OUTPUT_FULL;

/// The number of tries in a row, each of them interrupted, after which a write is a `Write` fault
/// (profile).
pub const WRITE_TRIES: u32 = 1_000;

/// A list with room for the output that is collected.
pub fn output_buffer(alloc: Global) -> Result<Vec<u8>, AllocError>
    ensures { IfOk result (λ output. output.items ≡ []) }
{
    Vec::with_capacity(alloc, OUTPUT_ROOM)
}

/// Writes what was collected, once that is `OUTPUT_FULL` bytes or more: less stays.
///
/// # Errors
/// `Write` where the writer fails; it has taken a front of the output then.
pub fn flush_full<W: Write>(output: &mut Vec<u8>, writer: &mut W) -> Result<(), ScriptFault>
    ensures ok { OnOk result (PassesOn (W.contents writer.old) (W.contents writer.new)
        output.old.items output.new.items []) }
    ensures err { OnErr result (PassesSome (W.contents writer.old) (W.contents writer.new)
        output.old.items []) }
    ensures less { OnOk result (vec_len output.new < OUTPUT_FULL) }
    ensures fault { IfErr result (λ fault. fault ≡ ScriptFault.Write) }
{
    if output.len() < OUTPUT_FULL {
        return Ok(());
    }
    flush(output, writer)
}

/// Writes what was collected.
///
/// # Errors
/// `Write` where the writer fails; it has taken a front of the output then.
pub fn flush<W: Write>(output: &mut Vec<u8>, writer: &mut W) -> Result<(), ScriptFault>
    ensures empty { OnOk result (output.new.items ≡ []) }
    ensures ok { OnOk result (PassesOn (W.contents writer.old) (W.contents writer.new)
        output.old.items [] []) }
    ensures err { OnErr result (PassesSome (W.contents writer.old) (W.contents writer.new)
        output.old.items []) }
    ensures fault { IfErr result (λ fault. fault ≡ ScriptFault.Write) }
{
    write_whole(writer, output)?;
    output.clear();
    Ok(())
}

/// Writes all of the bytes. An error leaves a front of them written.
///
/// # Errors
/// `Write` where the writer fails, or was interrupted [`WRITE_TRIES`] times in a row.
pub fn write_whole<W: Write>(writer: &mut W, bytes: &[u8]) -> Result<(), ScriptFault>
    ensures ok { OnOk result (Appends (W.contents writer.old) (W.contents writer.new) bytes.now) }
    ensures err { OnErr result
        (PartlyWrites (W.contents writer.old) (W.contents writer.new) bytes.now) }
    ensures fault { IfErr result (λ fault. fault ≡ ScriptFault.Write) }
{
    let mut done = 0;
    while done < bytes.len() {
        let (_, rest) = bytes.split_at(done);
        match write_some(writer, rest) {
            Ok(count) => done += count,
            Err(fault) => return Err(fault),
        }
    }
    Ok(())
}

/// Writes a front of the bytes that isn't empty, and returns its length.
///
/// # Errors
/// `Write` where the writer fails, or was interrupted [`WRITE_TRIES`] times in a row; it has taken
/// nothing then.
fn write_some<W: Write>(writer: &mut W, bytes: &[u8]) -> Result<usize, ScriptFault>
    ensures some { IfOk result (λ count. 0 < count) }
    ensures within { IfOk result (λ count. count ≤ length bytes.now) }
    ensures written { WriteAppends (W.contents writer.old) (W.contents writer.new)
        result bytes.now }
    ensures fault { IfErr result (λ fault. fault ≡ ScriptFault.Write) }
{
    for _try in 0..WRITE_TRIES {
        match writer.write(bytes) {
            Ok(0) => return Err(ScriptFault::Write),
            Ok(count) => return Ok(count),
            Err(error) if error.kind() == ErrorKind::Interrupted => {}
            Err(_) => return Err(ScriptFault::Write),
        }
    }
    Err(ScriptFault::Write)
}
