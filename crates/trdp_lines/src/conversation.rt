//! One connection: what it says, and what waits to be said to it.

ghost use Rattle.std.specs.Prelude.{◌≡◌, ◌<◌, ◌≤◌, [], ◌∷◌, length, take, true, false, not};
ghost use Rattle.std.specs.Prelude.{Some, None, IfOk, IfSome, IfNone};
ghost use Rattle.trdp_lines.specs.declared.connections.Came.TheVariants.{Nothing};
ghost use Rattle.trdp_lines.specs.Closings.{FindsNothing};
ghost use Rattle.trdp_lines.specs.Connections.{came_count, came_or_ended};
ghost use Rattle.trdp_lines.specs.Conversations.{HasRead, HasWritten, conversation_of, is_done};
ghost use Rattle.trdp_lines.specs.Hearings.{Hears};
ghost use Rattle.trdp_lines.specs.Intakes.{intake_room};
ghost use Rattle.trdp_lines.specs.Lines.{has_line, first_line, behind_line};
ghost use Rattle.trdp_lines.specs.Outgoings.{lost_told, takes_text};

use crate::connections::{Came, Connections};
use crate::intake::Intake;
use crate::outgoing::Outgoing;
use std::alloc::{AllocError, Global};
use std::marker::Model;

/// A connection, or room for one.
#[derive(Drop)]
pub(crate) struct Conversation {
    /// The number of the connection; None if there is none.
    number: Option<u64>,
    /// What came from it and isn't handed in.
    intake: Intake,
    /// What waits to go out to it.
    outgoing: Outgoing,
    /// Whether a line of it was handed in.
    spoke: bool,
    /// Whether the other side has ended it, or it failed.
    ended: bool,
}

impl Model for Conversation {
    ghost use Rattle.trdp_lines.specs.Conversations.{ConversationState};

    ghost Value = { ConversationState };

    ghost view = { λ c. record {
      number = c.number;
      bytes = c.intake;
      spoke = c.spoke;
      ended = c.ended;
      outgoing = c.outgoing;
    } };
}

impl Conversation {
    /// Room for a connection.
    ///
    /// # Errors
    /// [`AllocError`] if there is no memory for it.
    pub(crate) fn new(alloc: Global) -> Result<Conversation, AllocError>
        ensures { IfOk result (λ made. made ≡ conversation_of None) }
    {
        let intake = Intake::new(alloc)?;
        let outgoing = Outgoing::new(alloc)?;
        Ok(Conversation {
            number: None,
            intake,
            outgoing,
            spoke: false,
            ended: false,
        })
    }

    /// The number of the connection; None if there is none.
    pub(crate) fn number(&self) -> Option<u64>
        ensures { result ≡ self.now.number }
    {
        self.number
    }

    /// Whether a line of it was handed in.
    pub(crate) fn spoke(&self) -> bool
        ensures { result ≡ self.now.spoke }
    {
        self.spoke
    }

    /// From now on it is the connection of this number, which just came, or none.
    pub(crate) fn begin(&mut self, number: Option<u64>)
        ensures { self.new ≡ conversation_of number }
    {
        self.number = number;
        self.intake.clear();
        self.outgoing.clear();
        self.spoke = false;
        self.ended = false;
    }

    /// Hands in its next line without the end, cut to the room, if a whole one is there. Returns
    /// how many bytes it has in the room.
    pub(crate) fn next_line(&mut self, room: &mut [u8]) -> Option<usize>
        ensures some { IfSome result (λ _. has_line self.old.bytes ≡ true) }
        ensures within { IfSome result (λ count. count ≤ length room.new) }
        ensures line { IfSome result (λ count.
            take count room.new ≡ take (length room.old) (first_line self.old.bytes)) }
        ensures rest { IfSome result (λ _. self.new
            ≡ record self.old { bytes = behind_line self.old.bytes; spoke = true }) }
        ensures none { IfNone result (has_line self.old.bytes ≡ false) }
        ensures kept { IfNone result (self.new ≡ self.old) }
        ensures length { length room.new ≡ length room.old }
    {
        let count = self.intake.next_line(room)?;
        self.spoke = true;
        Some(count)
    }

    /// Whether it has ended, or its line is too long. Only for a conversation of which no whole
    /// line is left.
    pub(crate) fn is_done(&self) -> bool
        requires { has_line self.now.bytes ≡ false }
        ensures done { result ≡ is_done self.now }
        ensures going { result ≡ false → length self.now.bytes < intake_room }
    {
        self.ended || self.intake.is_full()
    }

    /// Reads once from its connection, which has this number.
    pub(crate) fn listen<C: Connections>(&mut self, from: &mut C, number: u64) -> Came
        requires { length self.old.bytes < intake_room }
        ensures read { HasRead number self.old self.new (C.calls from.old) (C.calls from.new) }
        ensures nothing { result ≡ Nothing → self.new ≡ self.old }
        ensures asked { result ≡ Nothing → FindsNothing number (C.calls from.new) }
        ensures heard { Hears (C.calls from.old) (C.calls from.new) false (came_or_ended result) }
        ensures kept { C.file_number from.new ≡ C.file_number from.old }
    {
        let came = self.intake.fill(from, number);
        if came == Came::Ended {
            self.ended = true;
        }
        came
    }

    /// Says a text to its connection, which has this number: it waits until the other side takes
    /// it, or it is dropped whole and counted. Returns whether it waits.
    pub(crate) fn say<C: Connections>(&mut self, to: &mut C, number: u64, text: &[u8]) -> bool
        ensures answer { result ≡ takes_text (lost_told self.old.outgoing) text.now }
        ensures said { HasWritten number (text.now ∷ []) self.old self.new
            (C.calls to.old) (C.calls to.new) }
        ensures kept { C.file_number to.new ≡ C.file_number to.old }
    {
        let stands = self.outgoing.push(text);
        self.write(to, number);
        stands
    }

    /// Adds the line that reports what was dropped, and writes what waits to its connection, which
    /// has this number.
    pub(crate) fn flush<C: Connections>(&mut self, to: &mut C, number: u64)
        ensures written { HasWritten number [] self.old self.new (C.calls to.old) (C.calls to.new) }
        ensures kept { C.file_number to.new ≡ C.file_number to.old }
    {
        let _ = self.outgoing.tell_lost();
        self.write(to, number);
    }

    /// Writes what waits. If that makes room for the line that reports what was dropped, it writes
    /// that line too. So if something is left to be reported, something waits, and the system
    /// reports when the other side can take it.
    fn write<C: Connections>(&mut self, to: &mut C, number: u64)
        ensures written { HasWritten number [] self.old self.new (C.calls to.old) (C.calls to.new) }
        ensures kept { C.file_number to.new ≡ C.file_number to.old }
    {
        self.write_once(to, number);
        if self.outgoing.tell_lost() {
            self.write_once(to, number);
        }
    }

    /// Writes once what waits, if anything does.
    fn write_once<C: Connections>(&mut self, to: &mut C, number: u64)
        ensures written { HasWritten number [] self.old self.new (C.calls to.old) (C.calls to.new) }
        ensures kept { C.file_number to.new ≡ C.file_number to.old }
    {
        if !self.outgoing.is_empty() {
            self.outgoing.flush(to, number);
        }
    }
}
