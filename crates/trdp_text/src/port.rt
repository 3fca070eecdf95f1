//! Lines that come in datagrams, one in each. At the control port of a slot they are the calls of
//! its application; at the operator's port, what concerns the whole node.

ghost use Rattle.std.specs.Prelude.{◌≡◌, ◌≢◌, IfOk, IfErr, Ok, Err, Some, option_map};
ghost use Rattle.trdp_text.specs.Lines.{ReadsOrSkips};
ghost use Rattle.trdp_text.specs.PortLines.{control_line_of, operator_line_model};
ghost use Rattle.trdp_text.specs.PortLines.{operator_line_of, operator_words};
ghost use Rattle.trdp_text.specs.PortLines.{without_end as line_without_end};
ghost use Rattle.trdp_text.specs.WordsLeft.{words_left};

use crate::fault::LineFault;
use crate::form::{read_operators, read_words};
use crate::line::is_skipped;
use crate::line_end::without_return;
use crate::operator_line::{OperatorLine, question_of};
use crate::words::{CALL, CutWords, Words, cut_words};
use itoa::Buffer;
use trdp_base::LINE_MAX;
use trdp_model::Event;

/// Reads a datagram that came to the control port of a slot: the line of a call by the slot's
/// application, without `call SLOT ` (profile).
///
/// An end of line is dropped: a newline, and one carriage return before it. A line that is empty
/// or begins with `#` is skipped, however long it is: it has no event. The event's bytes are in
/// the buffer, as those of [`read_event`](crate::read_event).
///
/// # Errors
/// Every [`LineFault`] of the line with `call SLOT ` before it, in their order. `OutOfMemory` comes
/// only where the line carries bytes, and is found when nothing else is wrong.
#[tactic(auto, unfolding(crate::specs::PortLines::control_line_of))]
pub fn read_control_event<'b>(
    buffer: &'b mut Vec<u8>,
    slot: u16,
    bytes: &[u8],
) -> Result<Option<Event<'b>>, LineFault>
    ensures meaning { ReadsOrSkips (control_line_of slot bytes.now) result }
{
    let text = without_end(bytes);
    if is_skipped(text) {
        return Ok(None);
    }
    let mut digits = Buffer::new();
    let slot = digits.format(slot).as_bytes();
    if CALL.len() + 1 + slot.len() + 1 + text.len() > LINE_MAX {
        return Err(LineFault::TooLong);
    }
    let mut words = CutWords::new();
    words.push(CALL);
    words.push(slot);
    cut_words(&mut words, text);
    match read_words(buffer, Words::of(&words)) {
        Ok(event) => Ok(Some(event)),
        Err(fault) => Err(fault),
    }
}

/// Reads a datagram that came to the operator's port: a line that begins with `topology`, `role` or
/// `addslot`, or one of the questions `totals` and `slots` (profile).
///
/// An end of line is dropped: a newline, and one carriage return before it. A line that is
/// empty or begins with `#` is skipped, unless it is too long: it says nothing.
///
/// # Errors
/// `TooLong`, `Unknown` at any other first word, `Count` and `BadWord`, in their order; never
/// `OutOfMemory`, since none of these lines carries bytes.
#[tactic(auto, unfolding(crate::specs::PortLines::operator_line_of))]
pub fn read_operator<'b>(bytes: &[u8]) -> Result<Option<OperatorLine<'b>>, LineFault>
    ensures line { IfOk result (λ line.
        operator_line_of bytes.now ≡ Ok (option_map operator_line_model line)) }
    ensures fault { IfErr result (λ fault. operator_line_of bytes.now ≡ Err fault) }
    ensures memory { IfErr result (λ fault. fault ≢ LineFault.OutOfMemory) }
{
    let text = without_end(bytes);
    if text.len() > LINE_MAX {
        return Err(LineFault::TooLong);
    }
    if is_skipped(text) {
        return Ok(None);
    }
    let mut words = CutWords::new();
    cut_words(&mut words, text);
    match read_said(Words::of(&words)) {
        Ok(line) => Ok(Some(line)),
        Err(fault) => Err(fault),
    }
}

/// Reads the words of a line of the operator: a question, which has one word, or an event.
///
/// # Errors
/// `Unknown`, `Count` and `BadWord`, in their order.
#[tactic(auto, unfolding(crate::specs::PortLines::operator_says))]
fn read_said<'b>(words: Words<'_, '_>) -> Result<OperatorLine<'b>, LineFault>
    ensures line { IfOk result (λ line.
        operator_words (words_left words.entry) ≡ Ok (Some (operator_line_model line))) }
    ensures fault { IfErr result (λ fault. operator_words (words_left words.entry) ≡ Err fault) }
    ensures memory { IfErr result (λ fault. fault ≢ LineFault.OutOfMemory) }
{
    match question_of(words.first()) {
        Some(question) => {
            words.expect(1)?;
            Ok(OperatorLine::Question(question))
        }
        None => match read_operators(words) {
            Ok(event) => Ok(OperatorLine::Event(event)),
            Err(fault) => Err(fault),
        },
    }
}

/// A line without its end.
#[tactic(auto, unfolding(crate::specs::PortLines::without_end))]
fn without_end(bytes: &[u8]) -> &[u8]
    ensures { result.now ≡ line_without_end bytes.now }
{
    match bytes {
        [line @ .., b'\n'] => without_return(line),
        _ => bytes,
    }
}
