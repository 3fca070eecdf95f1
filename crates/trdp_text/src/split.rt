//! The parts of a text before and after a byte.

ghost use Rattle.std.specs.Prelude.{MatchOption};
ghost use Rattle.trdp_text.specs.Splits.{IsSplit, Lacks};

use memchr::memchr;

/// The parts of a text before and after its first such byte; None where there is none.
pub fn split_at_byte(byte: u8, text: &[u8]) -> Option<(&[u8], &[u8])>
    ensures { MatchOption result (Lacks byte text.now)
        (λ parts. IsSplit byte text.now parts.0.now parts.1.now) }
{
    let place = memchr(byte, text)?;
    let (before, behind) = text.split_at(place);
    Some((before, &behind[1..]))
}
