//! A script's way through the node: its lines in, the text of the records out.

ghost use Rattle.std.specs.Prelude.{◌≡◌, ◌<◌, ◌≤◌, ◌+◌, ◌^◌, ◌++◌, ◌∷◌, ℕ, List, [], length};
ghost use Rattle.std.specs.Prelude.{Option, Some, Ok, Err, true, false, vec_capacity, vec_len};
ghost use Rattle.std.specs.Prelude.{IfOk, OnOk, OnErr, IfErr};
ghost use Rattle.std.specs.Io.KnownBytes.{ReadConsumes};
ghost use Rattle.trdp_script.specs.Pieces.{IsBare};
ghost use Rattle.trdp_script.specs.Writes.{PassesOn, PassesSome};
ghost use Rattle.trdp_script.specs.ScriptRuns.{RunsScript};
ghost use Rattle.trdp_script.specs.ScriptSteps.{ComesTo, Ends, IsSound, Plays};
ghost use Rattle.trdp_script.specs.ScriptSteps.{Starts, Stops};
ghost use Rattle.trdp_dataset.specs.Configs.{ConfigModel};
ghost use Rattle.trdp_script.specs.declared.script.TheConstants.{PIECE_ROOM};

use crate::fault::ScriptFault;
use crate::input::read_piece;
use crate::output::flush;
use crate::player::Player;
use std::alloc::{AllocError, Global};
use std::io::{Read, Write};
use trdp_dataset::NodeConfig;
use trdp_text::{LINE_MAX, LineFault, split_at_byte, without_return};

/// The most reads that a script makes of its input (profile).
pub const READS_MAX: u32 = 4_294_967_295;

const _: () = prove!(READS_MAX == 4_294_967_295);

/// The bytes of one read at most.
const PIECE_ROOM: usize = 65_536;

/// Room for the bytes of a line before its newline: the longest line and a carriage return. With
/// one byte more the line is too long, however it goes on.
const LINE_ROOM: usize = LINE_MAX + 1;

/// Plays a script from the reader over a node of the configuration, and writes to the writer what
/// the node gives: for each event its records, slot by slot, slots rising, each slot's in their
/// order. An event that the node rejected gives the line `fault NAME` (profile).
///
/// Lines end with a newline, or with a carriage return and a newline; the last may lack its end.
/// Output is collected, and written once there are 65,536 bytes of it, before more is read, and at
/// the end.
///
/// # Errors
/// `Line` at the first line with a fault, and `OutOfMemory` where an allocation fails, before
/// anything is read or at a line: the lines before it were played. `Read` where the reader fails
/// or after 4,294,967,295 reads ([`READS_MAX`]): the lines whose end had been read were played.
/// `Write` where the writer fails or is interrupted 1,000 times in a row
/// ([`WRITE_TRIES`](crate::WRITE_TRIES)): a front of the output was written.
pub fn run_script<R: Read, W: Write>(
    alloc: Global,
    config: NodeConfig,
    reader: &mut R,
    writer: &mut W,
) -> Result<(), ScriptFault>
    ensures script { (input : List ℕ) → R.remaining reader.old ≡ Some input
        → RunsScript config input (R.remaining reader.new)
        (W.contents writer.old) (W.contents writer.new) result }
{
    match Script::new(alloc, config) {
        Ok((mut script, mut piece)) => script.run_whole(&mut piece, reader, writer),
        Err(_) => Err(ScriptFault::OutOfMemory),
    }
}

/// A script on its way.
#[derive(Drop)]
struct Script {
    /// The node, and the text that is still to be written.
    player: Player,
    /// The bytes since the last newline.
    line: Vec<u8>,
    /// The number of the line that these begin, from 1.
    number: u64,
}

impl Script {
    /// A script before its first byte, and a list for the pieces of its input.
    fn new(alloc: Global, config: NodeConfig) -> Result<(Script, Vec<u8>), AllocError>
        ensures start { IfOk result (λ made. Starts config made.0) }
        ensures room { IfOk result (λ made. 140001 ≤ vec_capacity made.0.line) }
        ensures piece { IfOk result (λ made. length made.1.items ≡ PIECE_ROOM) }
    {
        let piece = zeros(alloc, PIECE_ROOM)?;
        let line = Vec::with_capacity(alloc, LINE_ROOM)?;
        let player = Player::new(alloc, config)?;
        let script = Script {
            player,
            line,
            number: 1,
        };
        Ok((script, piece))
    }

    /// Runs a script from its start to its end, and writes all of its output.
    fn run_whole<R: Read, W: Write>(
        &mut self,
        piece: &mut [u8],
        reader: &mut R,
        writer: &mut W,
    ) -> Result<(), ScriptFault>
        requires sound { IsSound self.old }
        requires number { self.old.number ≡ 1 }
        requires room { (0 < length piece.old) × (length piece.old ≤ 65536) }
        ensures script { (config : ConfigModel) (input : List ℕ) → Starts config self.old
            → R.remaining reader.old ≡ Some input → RunsScript config input
            (R.remaining reader.new) (W.contents writer.old) (W.contents writer.new) result }
    {
        let end = self.run(piece, reader, writer);
        if is_write_fault(&end) {
            return end;
        }
        match self.write_out(writer) {
            Ok(()) => end,
            Err(fault) => Err(fault),
        }
    }

    /// Reads and plays to the end of the input, piece by piece. Output may be left to write, but
    /// for `Write`.
    fn run<R: Read, W: Write>(
        &mut self,
        piece: &mut [u8],
        reader: &mut R,
        writer: &mut W,
    ) -> Result<(), ScriptFault>
        requires sound { IsSound self.old }
        requires number { self.old.number ≡ 1 }
        requires room { (0 < length piece.old) × (length piece.old ≤ 65536) }
        ensures run { (input : List ℕ) → R.remaining reader.old ≡ Some input
            → ComesTo self.old self.new (W.contents writer.old) (W.contents writer.new)
            input (R.remaining reader.new) result }
    {
        for _read in 0..READS_MAX {
            if let Err(fault) = self.write_out(writer) {
                return Err(fault);
            }
            match self.read_piece(reader, piece) {
                Ok(0) => return self.end(writer),
                Ok(count) => {
                    let (front, _) = piece.split_at(count);
                    if let Err(fault) = self.take_piece(front, writer) {
                        return Err(fault);
                    }
                }
                Err(fault) => return Err(fault),
            }
        }
        Err(ScriptFault::Read)
    }

    /// Reads the next bytes of the input, and returns their number: 0 at its end. Nothing is left
    /// to write meanwhile, so an application that waits for a line's answer before its next line
    /// gets it.
    fn read_piece<R: Read>(&self, reader: &mut R, piece: &mut [u8]) -> Result<usize, ScriptFault>
        requires room { 0 < length piece.old }
        requires written { self.now.player.output.items ≡ [] }
        ensures within { IfOk result (λ count. count ≤ length piece.new) }
        ensures length { length piece.new ≡ length piece.old }
        ensures bytes { ReadConsumes (R.remaining reader.old) (R.remaining reader.new)
            result piece.new }
        ensures fault { IfErr result (λ fault. fault ≡ ScriptFault.Read) }
    {
        read_piece(reader, piece)
    }

    /// Writes the output that is left to write.
    fn write_out<W: Write>(&mut self, writer: &mut W) -> Result<(), ScriptFault>
        ensures sound { IsSound self.old → IsSound self.new }
        ensures empty { OnOk result (self.new.player.output.items ≡ []) }
        ensures passed { OnOk result (PassesOn (W.contents writer.old) (W.contents writer.new)
            self.old.player.output.items self.new.player.output.items []) }
        ensures cut { OnErr result (PassesSome (W.contents writer.old) (W.contents writer.new)
            self.old.player.output.items []) }
        ensures number { self.new.number ≡ self.old.number }
        ensures ok { OnOk result
            (Plays self.old self.new (W.contents writer.old) (W.contents writer.new) []) }
        ensures err { IfErr result (λ fault. (rest : List ℕ) → Stops self.old self.new
            (W.contents writer.old) (W.contents writer.new) rest fault) }
        ensures fault { IfErr result (λ fault. fault ≡ ScriptFault.Write) }
    {
        flush(&mut self.player.output, writer)
    }

    /// Plays the lines that end in these bytes, and keeps the bytes after the last newline.
    fn take_piece<W: Write>(&mut self, piece: &[u8], writer: &mut W) -> Result<(), ScriptFault>
        requires sound { IsSound self.old }
        requires number { self.old.number + length piece.now < 2 ^ 64 }
        ensures sound { OnOk result (IsSound self.new) }
        ensures number { OnOk result (self.new.number ≤ self.old.number + length piece.now) }
        ensures ok { OnOk result
            (Plays self.old self.new (W.contents writer.old) (W.contents writer.new) piece.now) }
        ensures err { IfErr result (λ fault. (later : List ℕ) → Stops self.old self.new
            (W.contents writer.old) (W.contents writer.new) (piece.now ++ later) fault) }
    {
        let mut rest = piece;
        while let Some((before, behind)) = split_at_byte(b'\n', rest) {
            match self.take_to_newline(before, writer) {
                Ok(()) => rest = behind,
                Err(fault) => return Err(fault),
            }
        }
        self.gather(rest)
    }

    /// Plays the line that ends with these bytes and a newline.
    fn take_to_newline<W: Write>(
        &mut self,
        before: &[u8],
        writer: &mut W,
    ) -> Result<(), ScriptFault>
        requires sound { IsSound self.old }
        requires bare { IsBare before.now }
        requires number { self.old.number + 1 < 2 ^ 64 }
        ensures sound { OnOk result (IsSound self.new) }
        ensures number { OnOk result (self.new.number ≡ self.old.number + 1) }
        ensures ok { OnOk result (Plays self.old self.new
            (W.contents writer.old) (W.contents writer.new) (before.now ++ 10 ∷ [])) }
        ensures err { IfErr result (λ fault. (later : List ℕ) → Stops self.old self.new
            (W.contents writer.old) (W.contents writer.new) (before.now ++ 10 ∷ later) fault) }
    {
        if self.line.is_empty() {
            return self.take_whole(before, writer);
        }
        match self.gather(before) {
            Ok(()) => self.end_line(writer),
            Err(fault) => Err(fault),
        }
    }

    /// Plays the line that is these bytes and a newline, where none of its bytes was kept.
    fn take_whole<W: Write>(&mut self, bytes: &[u8], writer: &mut W) -> Result<(), ScriptFault>
        requires sound { IsSound self.old }
        requires begun { vec_len self.old.line ≡ 0 }
        requires bare { IsBare bytes.now }
        requires number { self.old.number + 1 < 2 ^ 64 }
        ensures sound { OnOk result (IsSound self.new) }
        ensures number { OnOk result (self.new.number ≡ self.old.number + 1) }
        ensures ok { OnOk result (Plays self.old self.new
            (W.contents writer.old) (W.contents writer.new) (bytes.now ++ 10 ∷ [])) }
        ensures err { IfErr result (λ fault. (later : List ℕ) → Stops self.old self.new
            (W.contents writer.old) (W.contents writer.new) (bytes.now ++ 10 ∷ later) fault) }
    {
        let line = without_return(bytes);
        match self.player.take_line(line, self.number, writer) {
            Ok(()) => {
                self.number += 1;
                Ok(())
            }
            Err(fault) => Err(fault),
        }
    }

    /// Adds bytes to the line that has begun, which has room for all that it may have.
    fn gather(&mut self, bytes: &[u8]) -> Result<(), ScriptFault>
        requires sound { IsSound self.old }
        requires bare { IsBare bytes.now }
        ensures sound { OnOk result (IsSound self.new) }
        ensures number { self.new.number ≡ self.old.number }
        ensures ok { (W : Option (List ℕ)) → OnOk result (Plays self.old self.new W W bytes.now) }
        ensures err { (W : Option (List ℕ)) → IfErr result (λ fault.
            (later : List ℕ) → Stops self.old self.new W W (bytes.now ++ later) fault) }
    {
        if self.line.len() + bytes.len() > LINE_ROOM {
            return Err(ScriptFault::Line(self.number, LineFault::TooLong));
        }
        self.line.extend_from_slice(bytes).unwrap();
        Ok(())
    }

    /// Plays the line that has begun, which a newline follows.
    fn end_line<W: Write>(&mut self, writer: &mut W) -> Result<(), ScriptFault>
        requires sound { IsSound self.old }
        requires number { self.old.number + 1 < 2 ^ 64 }
        ensures sound { OnOk result (IsSound self.new) }
        ensures number { OnOk result (self.new.number ≡ self.old.number + 1) }
        ensures ok { OnOk result
            (Plays self.old self.new (W.contents writer.old) (W.contents writer.new) (10 ∷ [])) }
        ensures err { IfErr result (λ fault. (later : List ℕ) → Stops self.old self.new
            (W.contents writer.old) (W.contents writer.new) (10 ∷ later) fault) }
    {
        let line = without_return(&self.line);
        match self.player.take_line(line, self.number, writer) {
            Ok(()) => {
                self.line.clear();
                self.number += 1;
                Ok(())
            }
            Err(fault) => Err(fault),
        }
    }

    /// Plays the last line, which has no end, if there is one.
    fn end<W: Write>(&mut self, writer: &mut W) -> Result<(), ScriptFault>
        requires sound { IsSound self.old }
        ensures ok { OnOk result
            (Ends self.old self.new (W.contents writer.old) (W.contents writer.new) []) }
        ensures err { IfErr result (λ fault. Stops self.old self.new
            (W.contents writer.old) (W.contents writer.new) [] fault) }
    {
        if self.line.is_empty() {
            Ok(())
        } else {
            self.end_last(writer)
        }
    }

    /// Plays the last line, which has no end.
    fn end_last<W: Write>(&mut self, writer: &mut W) -> Result<(), ScriptFault>
        requires sound { IsSound self.old }
        requires some { 0 < vec_len self.old.line }
        ensures ok { OnOk result
            (Ends self.old self.new (W.contents writer.old) (W.contents writer.new) []) }
        ensures err { IfErr result (λ fault. Stops self.old self.new
            (W.contents writer.old) (W.contents writer.new) [] fault) }
    {
        self.player.take_line(&self.line, self.number, writer)
    }
}

/// Whether the output can't be written.
fn is_write_fault(end: &Result<(), ScriptFault>) -> bool
    ensures write { result ≡ true → end.now ≡ Err ScriptFault.Write }
    ensures other { result ≡ false → end.now ≡ Err ScriptFault.Write → ⊥ }
{
    matches!(end, Err(ScriptFault::Write))
}

/// A list of `len` zeros.
fn zeros(alloc: Global, len: usize) -> Result<Vec<u8>, AllocError>
    ensures { IfOk result (λ bytes. length bytes.items ≡ len) }
{
    vec![in alloc; 0; len]
}
