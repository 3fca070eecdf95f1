//! A record in numbers, as C gets it.

ghost use Rattle.std.specs.Prelude.{◌≡◌, Some, None, length};
ghost use Rattle.byteorder.specs.Endian.{big_bytes};
ghost use Rattle.trdp_base.specs.Uris.{uri_field};
ghost use Rattle.trdp_model.specs.Records.{answer_model, content_model, indication_model};
ghost use Rattle.trdp_model.specs.Records.{message_model, record_model, reply_model};
ghost use Rattle.trdp_node.specs.Codes.{message_code, reason_code, refusal_code, value_code};
ghost use Rattle.trdp_node.specs.RecordOf.{no_numbers, record_numbers, with_answer, with_content};
ghost use Rattle.trdp_node.specs.RecordOf.{with_indication, with_message, with_place, with_reply};
ghost use Rattle.trdp_node.specs.RecordOf.{sending_code};

use crate::numbers::{message_number, reason_number, refusal_number, value_number};
use crate::record_numbers::{
    ALIVE, ASKED, CLOSED, CONFIRMED, DONE, HANDLE, NOTIFIED, OPENED, OVERRUN, REFUSED, REPLIED,
    SEND_MD, SEND_PD, SILENT, VALUE,
};
use crate::start::start_of;
use byteorder::{BigEndian, ByteOrder};
use trdp_engine::{
    Answer, Indication, Message, Place, Protocol, Record, Reply, SessionId, Uri, What,
};
use trdp_text::bytes_in;

/// A record in numbers: `struct trdp_node_record`. `what` says which fields count; the others are
/// 0.
#[repr(C)]
#[derive(Drop)]
pub struct RecordNumbers {
    /// Where its value, payload or telegram lies until the next event.
    pub bytes: *const u8,
    /// How many bytes that has.
    pub len: usize,
    /// Which record it is; 0 for none.
    pub what: u32,
    /// The handle of the object.
    pub handle: u32,
    /// The handle of the replier.
    pub replier: u32,
    /// The refusal, how good a value is, the reason or the message type.
    pub code: u32,
    /// The sequence counter of a subscription's latest telegram.
    pub counter: u32,
    /// The comId.
    pub com_id: u32,
    /// The address that it came from, or goes to.
    pub address: u32,
    /// The status of a reply or of a confirmation.
    pub status: i32,
    /// The slot that it is for.
    pub slot: u16,
    /// The port of `address`.
    pub port: u16,
    /// The session, the highest byte first.
    pub session: [u8; 16],
    /// The source URI, with zeros behind it.
    pub source_uri: [u8; 32],
    /// The destination URI, with zeros behind it.
    pub destination_uri: [u8; 32],
}

impl RecordNumbers {
    /// Writes a record.
    #[tactic(auto, unfolding(crate::specs::RecordOf::record_numbers))]
    pub fn put(&mut self, record: &Record<'_>)
        ensures { self.new ≡ record_numbers self.new.bytes (Some (record_model «record».now)) }
    {
        self.clear();
        let bytes = bytes_in(&record.what);
        self.bytes = start_of(bytes);
        self.len = bytes.len();
        self.slot = record.slot;
        self.put_content(&record.what);
    }

    /// Writes that there is none.
    #[tactic(auto, unfolding(crate::specs::RecordOf::record_numbers))]
    pub fn clear(&mut self)
        ensures { self.new ≡ record_numbers self.new.bytes None }
    {
        self.bytes = start_of(&[]);
        self.len = 0;
        self.what = 0;
        self.handle = 0;
        self.replier = 0;
        self.code = 0;
        self.counter = 0;
        self.com_id = 0;
        self.address = 0;
        self.status = 0;
        self.slot = 0;
        self.port = 0;
        self.session = [0; 16];
        self.source_uri = [0; 32];
        self.destination_uri = [0; 32];
    }

    /// Writes what a record says.
    #[tactic(auto, unfolding(crate::specs::RecordOf::with_content))]
    fn put_content(&mut self, what: &What<'_>)
        ensures { self.new ≡ with_content (content_model what.now) self.old }
    {
        match what {
            What::Answer(answer) => self.put_answer(answer),
            What::Indication(indication) => self.put_indication(indication),
            What::Send { kind, to, .. } => {
                self.what = sending_number(*kind);
                self.put_place(*to);
            }
        }
    }

    /// Writes an answer.
    #[tactic(auto, unfolding(crate::specs::RecordOf::with_answer))]
    fn put_answer(&mut self, answer: &Answer<'_>)
        ensures { self.new ≡ with_answer (answer_model answer.now) self.old }
    {
        match answer {
            Answer::Handle(handle) => self.put_handle(HANDLE, *handle),
            Answer::Done => self.what = DONE,
            Answer::Value(peek) => {
                self.what = VALUE;
                self.code = value_number(peek.state);
                self.counter = peek.counter;
            }
            Answer::Refused(refusal) => {
                self.what = REFUSED;
                self.code = refusal_number(*refusal);
            }
            Answer::Opened => self.what = OPENED,
        }
    }

    /// Writes an indication.
    #[tactic(auto, unfolding(crate::specs::RecordOf::with_indication))]
    fn put_indication(&mut self, indication: &Indication<'_>)
        ensures { self.new ≡ with_indication (indication_model indication.now) self.old }
    {
        match indication {
            Indication::Silent(handle) => self.put_handle(SILENT, *handle),
            Indication::Alive(handle) => self.put_handle(ALIVE, *handle),
            Indication::Notified(handle, message) => {
                self.put_handle(NOTIFIED, *handle);
                self.put_message(message);
            }
            Indication::Asked {
                listener,
                replier,
                session,
                message,
            } => {
                self.put_handle(ASKED, *listener);
                self.replier = *replier;
                self.put_session(*session);
                self.put_message(message);
            }
            Indication::Overrun(handle) => self.put_handle(OVERRUN, *handle),
            Indication::Replied(handle, reply) => {
                self.put_handle(REPLIED, *handle);
                self.put_reply(reply);
            }
            Indication::Confirmed(handle, status) => {
                self.put_handle(CONFIRMED, *handle);
                self.status = *status;
            }
            Indication::Closed(handle, reason) => {
                self.put_handle(CLOSED, *handle);
                self.code = reason_number(*reason);
            }
        }
    }

    /// Writes which record it is, and a handle.
    fn put_handle(&mut self, what: u32, handle: u32)
        ensures { self.new ≡ record self.old { what = what; handle = handle } }
    {
        self.what = what;
        self.handle = handle;
    }

    /// Writes an address and its port.
    fn put_place(&mut self, place: Place)
        ensures { self.new ≡ with_place place self.old }
    {
        self.address = place.ip.0;
        self.port = place.port;
    }

    /// Writes a session.
    fn put_session(&mut self, session: SessionId)
        ensures { self.new ≡ record self.old { session = big_bytes 16 session.0 } }
    {
        BigEndian::write_u128(&mut self.session, session.0);
    }

    /// Writes a message that came in.
    #[tactic(auto, unfolding(crate::specs::RecordOf::with_message))]
    fn put_message(&mut self, message: &Message<'_>)
        ensures { self.new ≡ with_message (message_model message.now) self.old }
    {
        self.put_place(message.src);
        self.com_id = message.com_id;
        put_uri(&mut self.source_uri, message.source_uri);
        put_uri(&mut self.destination_uri, message.dest_uri);
    }

    /// Writes an answer to a request that came in.
    #[tactic(auto, unfolding(crate::specs::RecordOf::with_reply))]
    fn put_reply(&mut self, reply: &Reply<'_>)
        ensures { self.new ≡ with_reply (reply_model reply.now) self.old }
    {
        self.put_place(reply.src);
        self.code = message_number(reply.kind);
        self.status = reply.status;
        self.com_id = reply.com_id;
    }
}

/// The number of a telegram that is to be sent.
fn sending_number(protocol: Protocol) -> u32
    ensures { result ≡ sending_code protocol }
{
    match protocol {
        Protocol::Pd => SEND_PD,
        Protocol::Md => SEND_MD,
    }
}

/// Writes a URI, and zeros behind it.
fn put_uri(room: &mut [u8], uri: Uri)
    requires { length room.old ≡ 32 }
    ensures { room.new ≡ uri_field uri }
{
    room.copy_from_slice(uri.field());
}
