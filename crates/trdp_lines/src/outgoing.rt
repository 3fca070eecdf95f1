//! What waits to go out over a stream of bytes.

ghost use Rattle.std.specs.Prelude.{◌≡◌, ◌+◌, ◌<◌, ◌≤◌, [], ◌∷◌, length, drop, IfOk, ◌==◌};
ghost use Rattle.std.specs.Prelude.{vec_len, vec_capacity};
ghost use Rattle.trdp_base.specs.Reported.{TellsMore};
ghost use Rattle.trdp_lines.specs.Connections.{WentWithin, Writes, went_count};
ghost use Rattle.trdp_lines.specs.Connections.{writing_of};
ghost use Rattle.trdp_lines.specs.Outgoings.{no_outgoing, outgoing_room, lost_line, lost_told};
ghost use Rattle.trdp_lines.specs.Outgoings.{can_tell, finds_room, with_bytes, takes_text};
ghost use Rattle.trdp_lines.specs.Outgoings.{with_text};

use crate::connections::{Connections, Went};
use std::alloc::{AllocError, Global};
use std::marker::Model;
use trdp_base::{LINE_MAX, push_number};

/// Room for what the other side hasn't taken, in bytes: for the longest line.
const OUT_ROOM: usize = LINE_MAX;

/// Room for the longest line that says how many texts were dropped, in bytes.
const LOST_ROOM: usize = 26;

/// Texts that wait until the other side of a connection takes their bytes. What finds no room is
/// dropped whole and counted, and a line says how many were, in their place.
#[derive(Drop)]
pub(crate) struct Outgoing {
    /// The bytes that the other side hasn't taken.
    waiting: Vec<u8>,
    /// How many texts were dropped since the latest line that reported such.
    lost: u64,
    /// Room in which that line is written.
    line: Vec<u8>,
}

impl Model for Outgoing {
    ghost use Rattle.std.specs.Prelude.{◌≤◌, length, vec_capacity};
    ghost use Rattle.trdp_lines.specs.Outgoings.{OutgoingState, HasRooms};

    ghost Value = { OutgoingState };

    ghost view = { λ o. record { waiting = o.waiting.items; lost = o.lost } };

    ghost invariant = { λ o. HasRooms o.waiting.items (vec_capacity o.waiting)
        (vec_capacity o.line) };
}

impl Outgoing {
    /// Nothing waits, and there is all room that it ever needs.
    ///
    /// # Errors
    /// [`AllocError`] if there is no memory for it.
    pub(crate) fn new(alloc: Global) -> Result<Outgoing, AllocError>
        ensures { IfOk result (λ outgoing. outgoing ≡ no_outgoing) }
    {
        let waiting = Vec::with_capacity(alloc, OUT_ROOM)?;
        let line = Vec::with_capacity(alloc, LOST_ROOM)?;
        Ok(Outgoing {
            waiting,
            lost: 0,
            line,
        })
    }

    /// Drops all bytes, and forgets how many texts were dropped.
    pub(crate) fn clear(&mut self)
        ensures { self.new ≡ no_outgoing }
    {
        self.waiting.clear();
        self.lost = 0;
    }

    /// Whether no byte waits.
    pub(crate) fn is_empty(&self) -> bool
        ensures { result ≡ (length self.now.waiting == 0) }
    {
        self.waiting.is_empty()
    }

    /// Puts a text after what waits, if no dropped text is unreported and there is room for all of
    /// it; else the text is dropped and counted. What was dropped before is reported first, if
    /// there is room. Returns whether the text waits.
    #[tactic(auto, unfolding(crate::specs::Outgoings::with_text))]
    pub(crate) fn push(&mut self, text: &[u8]) -> bool
        ensures answer { result ≡ takes_text (lost_told self.old) text.now }
        ensures changed { self.new ≡ with_text (lost_told self.old) text.now }
    {
        let _ = self.tell_lost();
        if self.lost == 0 && self.has_room(text) {
            self.put(text);
            true
        } else {
            self.lost = self.lost.saturating_add(1);
            false
        }
    }

    /// Reports how many texts were dropped, in a line after what waits, if any was and there is
    /// room for the line. Returns whether it did.
    #[tactic(auto, unfolding(crate::specs::Outgoings::lost_told))]
    pub(crate) fn tell_lost(&mut self) -> bool
        ensures answer { result ≡ can_tell self.old }
        ensures changed { self.new ≡ lost_told self.old }
    {
        if self.lost == 0 {
            return false;
        }
        write_lost(&mut self.line, self.lost);
        let is_told = self.line.len() <= OUT_ROOM - self.waiting.len();
        if is_told {
            self.waiting.extend_from_slice(&self.line).unwrap();
            self.lost = 0;
        }
        is_told
    }

    /// Writes once what waits to the connection of that number; what the other side takes of it
    /// waits no longer.
    pub(crate) fn flush<C: Connections>(&mut self, to: &mut C, number: u64) -> Went
        requires { 0 < length self.old.waiting }
        ensures count { WentWithin (length self.old.waiting) result }
        ensures rest { self.new ≡ record self.old {
          waiting = drop (went_count result) self.old.waiting;
        } }
        ensures told { TellsMore (C.calls to.old) (C.calls to.new)
            (Writes number (writing_of self.old.waiting result) ∷ []) }
        ensures kept { C.file_number to.new ≡ C.file_number to.old }
    {
        let went = to.write(number, &self.waiting);
        drop_front(&mut self.waiting, went.count());
        went
    }

    /// Whether a text finds room.
    fn has_room(&self, text: &[u8]) -> bool
        ensures { result ≡ finds_room self.now text.now }
    {
        text.len() <= OUT_ROOM - self.waiting.len()
    }

    /// Puts a text for which there is room after what waits.
    fn put(&mut self, text: &[u8])
        requires { length self.old.waiting + length text.now ≤ outgoing_room }
        ensures { self.new ≡ with_bytes self.old text.now }
    {
        self.waiting.extend_from_slice(text).unwrap();
    }
}

/// Writes the line that says how many texts were dropped, in place of what was there.
#[tactic(auto, unfolding(crate::specs::Outgoings::lost_line))]
fn write_lost(line: &mut Vec<u8>, lost: u64)
    requires { 26 ≤ vec_capacity line.old }
    ensures line { line.new.items ≡ lost_line lost }
    ensures capacity { vec_capacity line.old ≤ vec_capacity line.new }
{
    line.clear();
    line.extend_from_slice(b"lost ").unwrap();
    push_number(line, lost).unwrap();
    line.push_reserved(b'\n');
}

/// Drops `count` bytes at the front; the others move there.
fn drop_front(bytes: &mut Vec<u8>, count: usize)
    requires { count ≤ vec_len bytes.old }
    ensures items { bytes.new.items ≡ drop count bytes.old.items }
    ensures capacity { vec_capacity bytes.new ≡ vec_capacity bytes.old }
{
    if count == 0 {
        return;
    }
    let len = bytes.len();
    bytes.copy_within(count..len, 0);
    bytes.truncate(len - count);
}
