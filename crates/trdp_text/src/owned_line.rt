//! Lines that own the bytes that they carry.

ghost use Rattle.std.specs.Prelude.{◌≡◌, option_map, Option, Ok};
ghost use Rattle.trdp_model.specs.CarriedBytes.{event_with_bytes};
ghost use Rattle.trdp_model.specs.Events.{EventModel, event_model};
ghost use Rattle.trdp_text.specs.Lines.{line_of, ReadsLine};
ghost use Rattle.trdp_text.specs.PortLines.{control_line_of};

use crate::fault::LineFault;
use crate::line::read_event;
use crate::port::read_control_event;
use std::alloc::Global;
use std::marker::Model;
use trdp_model::Event;

/// What a good line says: an event, or nothing where the line is skipped (profile).
#[derive(Debug, Drop)]
pub struct Line {
    /// The event, with no bytes in place of those that it carries; None where the line is skipped.
    event: Option<Event<'static>>,
    /// The bytes that it carries.
    bytes: Vec<u8>,
}

impl Model for Line {
    ghost Value = { Option EventModel };

    ghost view = { λ line. option_map
        (λ event. event_with_bytes line.bytes.items (event_model event)) line.event };
}

impl Line {
    /// The event of the line; None where the line is skipped: it is empty or begins with `#`.
    pub fn event(&self) -> Option<Event<'_>>
        ensures { option_map event_model result ≡ self.now }
    {
        match &self.event {
            Some(event) => Some(event.with_bytes(&self.bytes)),
            None => None,
        }
    }

    /// The line that says this event. Its bytes are copied.
    ///
    /// # Errors
    /// `OutOfMemory` where there is no memory for the bytes of an event that carries some.
    fn keep(alloc: Global, event: &Option<Event<'_>>) -> Result<Line, LineFault>
        ensures { ReadsLine (Ok (option_map event_model event.now)) result }
    {
        match event {
            Some(event) => {
                let bytes = match event.bytes() {
                    Some(bytes) => bytes.to_vec(alloc)?,
                    None => Vec::new(alloc),
                };
                let event = Some(event.with_bytes(&[]));
                Ok(Line { event, bytes })
            }
            None => Ok(Line {
                event: None,
                bytes: Vec::new(alloc),
            }),
        }
    }
}

/// Reads a line, which comes without its end: what it says, or the first of its faults (profile).
///
/// A line that is empty or begins with `#` is skipped, unless it is too long. Only a line that
/// carries bytes allocates.
///
/// # Errors
/// Every [`LineFault`], in their order. `OutOfMemory` comes only where the line carries bytes, and
/// is found when nothing else is wrong.
pub fn read_line(alloc: Global, text: &[u8]) -> Result<Line, LineFault>
    ensures meaning { ReadsLine (line_of text.now) result }
{
    let mut buffer = Vec::new(alloc);
    match read_event(&mut buffer, text) {
        Ok(event) => Line::keep(alloc, &event),
        Err(fault) => Err(fault),
    }
}

/// Reads a datagram that came to the control port of a slot: the line of a call by the slot's
/// application, without `call SLOT ` (profile).
///
/// An end of line is dropped: a newline, and one carriage return before it. A line that is empty or
/// begins with `#` is skipped, however long it is.
///
/// # Errors
/// Every [`LineFault`] of the line with `call SLOT ` before it, in their order. `OutOfMemory` comes
/// only where the line carries bytes, and is found when nothing else is wrong.
pub fn read_control(alloc: Global, slot: u16, bytes: &[u8]) -> Result<Line, LineFault>
    ensures meaning { ReadsLine (control_line_of slot bytes.now) result }
{
    let mut buffer = Vec::new(alloc);
    match read_control_event(&mut buffer, slot, bytes) {
        Ok(event) => Line::keep(alloc, &event),
        Err(fault) => Err(fault),
    }
}
