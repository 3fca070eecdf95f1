//! The records for the slots of a node, in order.

ghost use Rattle.std.specs.Prelude.{◌≡◌, ℕ, ◌+◌, ◌<◌, ◌≤◌, ◌↔◌, ◌++◌, ◌∷◌, length, []};
ghost use Rattle.std.specs.Prelude.{OnOk, OnErr, IsTrue, ◌⊎◌, slice_get, option_map};
ghost use Rattle.std.specs.Prelude.{option_copied, take, drop, vec_len, vec_capacity};
ghost use Rattle.trdp_base.specs.Limits.{md_payload_limit};
ghost use Rattle.trdp_head.specs.Limits.{pd_payload_limit};
ghost use Rattle.trdp_head.specs.PdBytes.{pd_bytes, pd_length_of};
ghost use Rattle.trdp_head.specs.MdBytes.{md_bytes, md_length_of};
ghost use Rattle.trdp_model.specs.declared.record.Protocol.TheVariants.{Pd, Md};
ghost use Rattle.trdp_pd.specs.Peeks.{peek_model};
ghost use Rattle.trdp_model.specs.Records.{Answers, ValueIs, Indicates, NotifiedIs, AskedIs};
ghost use Rattle.trdp_model.specs.Records.{RepliedIs, Sends, message_model};
ghost use Rattle.trdp_model.specs.Records.{reply_model, record_model};
ghost use Rattle.trdp_outbox.specs.Outboxes.{plain_answer_model, row_content, headed};

use crate::by_slot::BySlot;
use crate::row::{Heading, PlainAnswer, ReplyHeading, Row, RowForm, push_row, record};
use std::alloc::{AllocError, Global};
use std::marker::Model;
use trdp_base::{Place, SessionId};
use trdp_head::{MdHead, PdHead, push_md, push_pd};
use trdp_model::{Message, Protocol, Record, Reply};
use trdp_pd::Peek;

/// The records of a node's events, in order, with the bytes of their telegrams and values. It
/// keeps its memory when it is cleared.
#[derive(Drop)]
pub struct Outbox {
    /// The records, in the order in which they came.
    rows: Vec<Row>,
    /// The bytes of all records, one after the other.
    bytes: Vec<u8>,
}

impl Model for Outbox {
    ghost use Rattle.std.specs.Prelude.{map, vec_capacity, vec_len, length, ◌-◌};
    ghost use Rattle.trdp_outbox.specs.Outboxes.{OutboxState, row_model, AllWithin};

    ghost Value = { OutboxState };

    ghost view = { λ o. record {
      records = map (row_model o.bytes.items) o.rows.items;
      held = vec_len o.bytes;
      row_room = vec_capacity o.rows - vec_len o.rows;
      byte_room = vec_capacity o.bytes - vec_len o.bytes;
    } };

    ghost invariant = { λ o. AllWithin (length o.bytes.items) o.rows.items };
}

impl Outbox {
    ghost use Rattle.std.specs.Prelude.{Some};
    ghost use Rattle.trdp_outbox.specs.Outboxes.{OutboxState};
    ghost use Rattle.trdp_outbox.specs.SlotOrder.{by_slot};

    /// An outbox without records. It takes no memory yet.
    pub fn new(alloc: Global) -> Outbox
        ensures { result.records ≡ [] }
    {
        Outbox {
            rows: Vec::new(alloc),
            bytes: Vec::new(alloc),
        }
    }

    /// How many records it holds.
    pub fn len(&self) -> usize
        ensures { result ≡ length self.now.records }
    {
        self.rows.len()
    }

    /// Whether it holds none.
    pub fn is_empty(&self) -> bool
        ensures { IsTrue result ↔ (self.now.records ≡ []) }
    {
        self.rows.is_empty()
    }

    /// The i-th record, from 0; None past the last.
    pub fn get(&self, i: usize) -> Option<Record<'_>>
        ensures { option_map record_model result ≡ slice_get self.now.records i }
    {
        match row_at(&self.rows, i) {
            None => None,
            Some(row) => Some(record(row, part(&self.bytes, row))),
        }
    }

    /// The slot that the i-th record is for.
    pub(crate) fn slot_at(&self, i: usize) -> u16
        requires { i < length self.now.records }
        ensures { Some result ≡ option_map (λ r. r.slot) (slice_get self.now.records i) }
    {
        self.rows[i].slot
    }

    /// The records slot by slot, slots rising, each slot's in their order.
    pub fn by_slot(&self) -> BySlot<'_>
        ensures { result ≡ by_slot self.now.records }
    {
        BySlot::new(self)
    }

    /// Drops all records and keeps their memory as room for others.
    pub fn clear(&mut self)
        ensures records { self.new.records ≡ [] }
        ensures row_room { self.old.row_room + length self.old.records ≤ self.new.row_room }
        ensures byte_room { self.old.byte_room + self.old.held ≤ self.new.byte_room }
    {
        self.rows.clear();
        self.bytes.clear();
    }

    /// Makes room for `rows` more records with `bytes` bytes in all.
    ///
    /// # Errors
    /// [`AllocError`] where there is no memory for that room. The records stay.
    pub fn reserve(&mut self, rows: usize, bytes: usize) -> Result<(), AllocError>
        ensures records { self.new.records ≡ self.old.records }
        ensures rows { OnOk result (rows ≤ self.new.row_room) }
        ensures bytes { OnOk result (bytes ≤ self.new.byte_room) }
        ensures full { OnErr result ((self.old.row_room < rows) ⊎ (self.old.byte_room < bytes)) }
        ensures still { OnErr result ((self.new.row_room < rows) ⊎ (self.new.byte_room < bytes)) }
    {
        self.rows.reserve(rows)?;
        self.bytes.reserve(bytes)?;
        Ok(())
    }

    /// Adds a record without bytes.
    pub fn push(&mut self, slot: u16, form: RowForm)
        requires { 0 < self.old.row_room }
        ensures records { self.new.records
            ≡ self.old.records ++ record { slot = slot; content = row_content form [] } ∷ [] }
        ensures row_room { self.old.row_room ≤ self.new.row_room + 1 }
        ensures byte_room { self.old.byte_room ≤ self.new.byte_room }
    {
        let at = self.bytes.len();
        push_row(&mut self.rows, slot, form, at, 0);
    }

    /// Adds an answer without bytes.
    pub fn push_plain_answer(&mut self, slot: u16, answer: PlainAnswer)
        requires { 0 < self.old.row_room }
        ensures records { self.new.records
            ≡ self.old.records
            ++ record { slot = slot; content = Answers (plain_answer_model answer) } ∷ [] }
        ensures row_room { self.old.row_room ≤ self.new.row_room + 1 }
        ensures byte_room { self.old.byte_room ≤ self.new.byte_room }
    {
        self.push(slot, RowForm::PlainAnswer(answer));
    }

    /// Adds a record with those bytes.
    fn push_with(&mut self, slot: u16, form: RowForm, bytes: &[u8])
        requires row { 0 < self.old.row_room }
        requires bytes { length bytes.now ≤ self.old.byte_room }
        ensures records { self.new.records
            ≡ self.old.records ++ record { slot = slot; content = row_content form bytes.now }
            ∷ [] }
        ensures row_room { self.old.row_room ≤ self.new.row_room + 1 }
        ensures byte_room { self.old.byte_room ≤ self.new.byte_room + length bytes.now }
    {
        let at = self.bytes.len();
        let len = append(&mut self.bytes, bytes);
        push_row(&mut self.rows, slot, form, at, len);
    }

    /// Adds the answer to a look at a subscription.
    pub fn push_value(&mut self, slot: u16, peek: Peek<'_>)
        requires row { 0 < self.old.row_room }
        requires bytes { length peek.bytes.now ≤ self.old.byte_room }
        ensures records { self.new.records
            ≡ self.old.records
            ++ record { slot = slot; content = Answers (ValueIs (peek_model peek.entry)) }
            ∷ [] }
        ensures row_room { self.old.row_room ≤ self.new.row_room + 1 }
        ensures byte_room { self.old.byte_room ≤ self.new.byte_room + length peek.entry.bytes.now }
    {
        self.push_with(slot, RowForm::Value(peek.state, peek.counter), peek.bytes);
    }

    /// Adds that a listener heard a notification.
    pub fn push_notified(&mut self, slot: u16, handle: u32, message: &Message<'_>)
        requires row { 0 < self.old.row_room }
        requires bytes { length message.now.payload.now ≤ self.old.byte_room }
        ensures records { self.new.records
            ≡ self.old.records
            ++ record {
              slot = slot;
              content = Indicates (NotifiedIs handle (message_model message.now));
            } ∷ [] }
        ensures row_room { self.old.row_room ≤ self.new.row_room + 1 }
        ensures byte_room { self.old.byte_room
            ≤ self.new.byte_room + length message.now.payload.now }
    {
        self.push_with(
            slot,
            RowForm::Notified(handle, heading_of(message)),
            message.payload,
        );
    }

    /// Adds that a listener heard a request, which the replier must answer.
    pub fn push_asked(
        &mut self,
        slot: u16,
        listener: u32,
        replier: u32,
        session: SessionId,
        message: &Message<'_>,
    )
        requires row { 0 < self.old.row_room }
        requires bytes { length message.now.payload.now ≤ self.old.byte_room }
        ensures records { self.new.records
            ≡ self.old.records
            ++ record {
              slot = slot;
              content = Indicates (AskedIs listener replier session (message_model message.now));
            } ∷ [] }
        ensures row_room { self.old.row_room ≤ self.new.row_room + 1 }
        ensures byte_room { self.old.byte_room
            ≤ self.new.byte_room + length message.now.payload.now }
    {
        let form = RowForm::Asked(listener, replier, session, heading_of(message));
        self.push_with(slot, form, message.payload);
    }

    /// Adds that a caller received an answer.
    pub fn push_replied(&mut self, slot: u16, handle: u32, reply: &Reply<'_>)
        requires row { 0 < self.old.row_room }
        requires bytes { length reply.now.payload.now ≤ self.old.byte_room }
        ensures records { self.new.records
            ≡ self.old.records
            ++ record {
              slot = slot;
              content = Indicates (RepliedIs handle (reply_model reply.now));
            } ∷ [] }
        ensures row_room { self.old.row_room ≤ self.new.row_room + 1 }
        ensures byte_room { self.old.byte_room
            ≤ self.new.byte_room + length reply.now.payload.now }
    {
        let heading = ReplyHeading {
            src: reply.src,
            kind: reply.kind,
            status: reply.status,
            com_id: reply.com_id,
        };
        self.push_with(slot, RowForm::Replied(handle, heading), reply.payload);
    }

    /// Adds a process data telegram, which it writes into its own bytes.
    pub fn push_pd(&mut self, slot: u16, to: Place, head: &PdHead, payload: &[u8])
        requires row { 0 < self.old.row_room }
        requires payload { length payload.now ≤ pd_payload_limit }
        requires bytes { pd_length_of (length payload.now) ≤ self.old.byte_room }
        ensures records { self.new.records
            ≡ self.old.records
            ++ record { slot = slot; content = Sends Pd to (pd_bytes head.now payload.now) }
            ∷ [] }
        ensures row_room { self.old.row_room ≤ self.new.row_room + 1 }
        ensures byte_room { self.old.byte_room
            ≤ self.new.byte_room + pd_length_of (length payload.now) }
    {
        let at = self.bytes.len();
        let len = push_pd(head, payload, &mut self.bytes);
        push_row(
            &mut self.rows,
            slot,
            RowForm::Send(Protocol::Pd, to),
            at,
            len,
        );
    }

    /// Adds a message data telegram, which it writes into its own bytes.
    pub fn push_md(&mut self, slot: u16, to: Place, head: &MdHead, payload: &[u8])
        requires row { 0 < self.old.row_room }
        requires payload { length payload.now ≤ md_payload_limit }
        requires bytes { md_length_of (length payload.now) ≤ self.old.byte_room }
        ensures records { self.new.records
            ≡ self.old.records
            ++ record { slot = slot; content = Sends Md to (md_bytes head.now payload.now) }
            ∷ [] }
        ensures row_room { self.old.row_room ≤ self.new.row_room + 1 }
        ensures byte_room { self.old.byte_room
            ≤ self.new.byte_room + md_length_of (length payload.now) }
    {
        let at = self.bytes.len();
        let len = push_md(head, payload, &mut self.bytes);
        push_row(
            &mut self.rows,
            slot,
            RowForm::Send(Protocol::Md, to),
            at,
            len,
        );
    }
}

/// A message without its payload.
fn heading_of(message: &Message<'_>) -> Heading
    ensures { headed result message.now.payload.now ≡ message_model message.now }
{
    Heading {
        src: message.src,
        com_id: message.com_id,
        source_uri: message.source_uri,
        dest_uri: message.dest_uri,
    }
}

/// The i-th row, from 0; None past the last.
fn row_at(rows: &[Row], i: usize) -> Option<&Row>
    ensures { option_copied result ≡ slice_get rows.now i }
{
    rows.get(i)
}

/// The bytes of a row.
fn part<'a>(bytes: &'a [u8], row: &Row) -> &'a [u8]
    requires { row.now.at + row.now.len ≤ length bytes.now }
    ensures { result.now ≡ take row.now.len (drop row.now.at bytes.now) }
{
    &bytes[row.at..row.at + row.len]
}

/// Adds bytes at the end, within the room, and returns how many.
fn append(bytes: &mut Vec<u8>, more: &[u8]) -> usize
    requires { vec_len bytes.old + length more.now ≤ vec_capacity bytes.old }
    ensures items { bytes.new.items ≡ bytes.old.items ++ more.now }
    ensures length { result ≡ length more.now }
    ensures len { vec_len bytes.new ≡ vec_len bytes.old + length more.now }
    ensures capacity { vec_capacity bytes.old ≤ vec_capacity bytes.new }
{
    bytes.extend_from_slice(more).unwrap();
    more.len()
}
