//! The bytes of an input that comes in pieces.

ghost use Rattle.std.specs.Prelude.{◌≡◌, ◌<◌, ◌≤◌, length, IfOk, IfErr};
ghost use Rattle.std.specs.Io.KnownBytes.{ReadConsumes};

use crate::fault::ScriptFault;
use std::io::Read;

/// Reads the next bytes to the front of `piece`, and returns their number: 0 at the end of the
/// input.
///
/// # Errors
/// `Read` where the reader fails.
pub fn read_piece<R: Read>(reader: &mut R, piece: &mut [u8]) -> Result<usize, ScriptFault>
    requires { 0 < length piece.old }
    ensures within { IfOk result (λ count. count ≤ length piece.new) }
    ensures length { length piece.new ≡ length piece.old }
    ensures bytes { ReadConsumes (R.remaining reader.old) (R.remaining reader.new)
        result piece.new }
    ensures fault { IfErr result (λ fault. fault ≡ ScriptFault.Read) }
{
    match reader.read(piece) {
        Ok(count) => Ok(count),
        Err(_) => Err(ScriptFault::Read),
    }
}
