//! The lists of a service that are used again from event to event.

ghost use Rattle.std.specs.Prelude.{◌≡◌, ◌<◌, ◌≤◌, IfOk, vec_capacity};
ghost use Rattle.trdp_daemon.specs.Questions.{frame_room};
ghost use Rattle.trdp_daemon.specs.Turns.{no_contacts};

use crate::contact::Contact;
use crate::question::FRAME_ROOM;
use std::alloc::{AllocError, Global};
use trdp_base::LINE_MAX;
use trdp_engine::{Outbox, SLOTS_MAX};

/// Room for a record's line, in bytes: more than the longest of a node.
const TEXT_ROOM: usize = LINE_MAX;

/// What a service uses again from event to event.
#[derive(Drop)]
pub(crate) struct Lists {
    /// The latest line of each slot that a node may have: None for each.
    pub(crate) contacts: Vec<Option<Contact>>,
    /// Room for the line of a record.
    pub(crate) text: Vec<u8>,
    /// Room for an answer to the operator.
    pub(crate) answer: Vec<u8>,
    /// Room for the answer to the reset of a slot.
    pub(crate) resets: Outbox,
}

impl Lists {
    /// The lists of a service before its first event.
    ///
    /// # Errors
    /// `AllocError` if an allocation for these fails.
    pub(crate) fn new(alloc: Global) -> Result<Lists, AllocError>
        ensures contacts { IfOk result (λ made. made.contacts.items ≡ no_contacts) }
        ensures answer { IfOk result (λ made. frame_room ≤ vec_capacity made.answer) }
        ensures resets { IfOk result (λ made. 0 < made.resets.row_room) }
    {
        let contacts = vec![in alloc; None; SLOTS_MAX]?;
        let text = Vec::with_capacity(alloc, TEXT_ROOM)?;
        let answer = Vec::with_capacity(alloc, FRAME_ROOM)?;
        let mut resets = Outbox::new(alloc);
        resets.reserve(1, 0)?;
        Ok(Lists {
            contacts,
            text,
            answer,
            resets,
        })
    }
}
