//! What one line of a script says.

ghost use Rattle.std.specs.Prelude.{◌≡◌, ◌++◌, true, false, take, List, None, Ok, Err, IfErr, IfOk};
ghost use Rattle.trdp_text.specs.Forms.{LineForm};
ghost use Rattle.trdp_text.specs.Lines.{line_among, line_of, say_among, ReadsOrSkips};
ghost use Rattle.trdp_text.specs.Lines.{is_skipped as skipped};
ghost use Rattle.trdp_text.specs.Words.{words_of};
ghost use Rattle.trdp_text.specs.WordsLeft.{words_at};
ghost use Rattle.trdp_text.specs.declared.words.TheConstants.{WORDS_ROOM};

use crate::fault::LineFault;
use crate::form::read_words;
use crate::words::{CutWords, Words, cut_words};
use trdp_base::LINE_MAX;
use trdp_model::Event;

/// Reads a line as [`read_line`](crate::read_line) does, with the event's bytes in the buffer, in
/// place of what that held: the event that it says, or the first of its faults (profile). None
/// where the line is skipped: it is empty or begins with `#`, and isn't too long.
///
/// Only a line that carries bytes allocates, and only where the buffer lacks room for them; so a
/// buffer that is used from line to line soon allocates no more. After a fault the buffer may hold
/// anything.
///
/// # Errors
/// Every [`LineFault`], in their order. `OutOfMemory` comes only where the line carries bytes, and
/// is found when nothing else is wrong.
pub fn read_event<'b>(buffer: &'b mut Vec<u8>, text: &[u8]) -> Result<Option<Event<'b>>, LineFault>
    ensures meaning { ReadsOrSkips (line_of text.now) result }
{
    let mut words = CutWords::new();
    if !cut_line(&mut words, text)? {
        return Ok(None);
    }
    match read_words(buffer, Words::of(&words)) {
        Ok(event) => Ok(Some(event)),
        Err(fault) => Err(fault),
    }
}

/// Cuts a line into its words, and returns true; returns false for a line that is skipped.
///
/// # Errors
/// `TooLong`.
#[tactic(auto, unfolding(crate::specs::Lines::line_among))]
pub(crate) fn cut_line<'a>(words: &mut CutWords<'a>, text: &'a [u8]) -> Result<bool, LineFault>
    ensures fault { (known : List LineForm)
        → IfErr result (λ fault. line_among known text.now ≡ Err fault) }
    ensures skipped { (known : List LineForm)
        → IfOk result (λ some. some ≡ false → line_among known text.now ≡ Ok None) }
    ensures said { (known : List LineForm) → IfOk result (λ some. some ≡ true
        → line_among known text.now ≡ say_among known (words_of text.now)) }
    ensures words { IfOk result (λ some. some ≡ true → words_at words.new.items
        ≡ take WORDS_ROOM (words_at words.old.items ++ words_of text.now)) }
{
    if text.len() > LINE_MAX {
        return Err(LineFault::TooLong);
    }
    if is_skipped(text) {
        return Ok(false);
    }
    cut_words(words, text);
    Ok(true)
}

/// Whether a line is empty or begins with `#`.
pub(crate) fn is_skipped(text: &[u8]) -> bool
    ensures { result ≡ skipped text.now }
{
    matches!(text, [] | [b'#', ..])
}
