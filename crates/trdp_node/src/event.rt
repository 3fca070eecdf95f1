//! An event in numbers, as C hands it in.

ghost use Rattle.std.specs.Prelude.{◌≡◌};
ghost use Rattle.trdp_model.specs.Events.{call_model, event_model, NotifyCall, RequestCall};
ghost use Rattle.trdp_model.specs.Events.{ReplyCall, QueryCall, ReplyErrorCall, ConfirmCall};
ghost use Rattle.trdp_node.specs.EventOf.{call_meant, call_read, caller_of, datagram_of, event_of};
ghost use Rattle.trdp_node.specs.EventOf.{event_read, flag_of, listener_of, notice_of};
ghost use Rattle.trdp_node.specs.EventOf.{publisher_of, requester_of, subscription_meant, to_of};
ghost use Rattle.trdp_node.specs.EventOf.{topo_of};

use crate::event_numbers::{
    ABORT, ADD_SLOT, CLOSE_PULL, CONFIRM, GET, LISTEN, MD, MOMENT, NOTIFY, OPEN_PULL, PD, PUBLISH,
    PULL, PUT, QUERY, REPLY, REPLY_ERROR, REQUEST, RESET, ROLE, SUBSCRIBE, TOPOLOGY, UNLISTEN,
    UNPUBLISH, UNSUBSCRIBE,
};
use crate::numbers::{BAD_FLAG, BAD_QUOTA, NO_EVENT};
use byteorder::{BigEndian, ByteOrder};
use trdp_engine::{
    Behaviour, Call, CallerTerms, Event, Ip, MdFilter, NotifyTerms, PdFilter, Place, Protocol,
    PublisherTerms, Quotas, RequesterTerms, SessionId, SubscriptionTerms, Topo, Uri,
};

/// An event in numbers: `struct trdp_node_event`. Which fields count says `what`.
#[repr(C)]
#[derive(Drop)]
pub struct EventNumbers {
    /// The moment, in microseconds.
    pub moment: u64,
    /// Which event it is, or which call.
    pub what: u32,
    /// The handle of the object that the call is for.
    pub handle: u32,
    /// The comId.
    pub com_id: u32,
    /// The dataset, 0 for any bytes.
    pub dataset: u32,
    /// A cycle, a supervision time or a timeout, in microseconds.
    pub time: u32,
    /// etbTopoCnt.
    pub etb: u32,
    /// opTrnTopoCnt.
    pub op_trn: u32,
    /// The address that a datagram came from.
    pub from_address: u32,
    /// The address that a datagram, or an object's telegrams, go to.
    pub to_address: u32,
    /// The lowest source address that passes.
    pub low: u32,
    /// The highest source address that passes.
    pub high: u32,
    /// The destination address that passes, 0 for any.
    pub destination: u32,
    /// The comId that a pull asks for, 0 for `com_id`.
    pub reply_com_id: u32,
    /// Where a pull's reply is sent, 0 for the node itself.
    pub reply_address: u32,
    /// The status of a reply or of a confirmation.
    pub status: i32,
    /// The slot whose call it is.
    pub slot: u16,
    /// The port of `from_address`.
    pub from_port: u16,
    /// The port of `to_address`.
    pub to_port: u16,
    /// The quotas of a new slot, each 0 to 256.
    pub quotas: [u16; 6],
    /// A redundancy group.
    pub group: u8,
    /// 1 where the node leads the group from now on, 0 where it doesn't.
    pub leader: u8,
    /// 1 where a silent subscription keeps its value, 0 where that becomes zero.
    pub keep: u8,
    /// 1 where a listener hears every comId, 0 where it hears `com_id`.
    pub any: u8,
    /// From how many places a caller expects answers, 0 for any number.
    pub expected: u8,
    /// How often a request is sent again at most.
    pub retries: u8,
    /// The session, the highest byte first.
    pub session: [u8; 16],
    /// The source URI, with zeros behind it.
    pub source_uri: [u8; 32],
    /// The destination URI, with zeros behind it.
    pub destination_uri: [u8; 32],
}

impl EventNumbers {
    /// The event that these numbers mean, with its bytes.
    ///
    /// # Errors
    /// The status: `NO_EVENT` where `what` is none, `BAD_FLAG`, `BAD_QUOTA`.
    #[tactic(auto, unfolding(crate::specs::EventOf::event_of, crate::specs::EventOf::datagram_of, crate::specs::EventOf::slot_meant))]
    pub fn read<'a>(&self, bytes: &'a [u8]) -> Result<Event<'a>, u32>
        ensures { event_read result ≡ event_of self.now bytes.now }
    {
        match self.what {
            MOMENT => Ok(Event::Moment(self.moment)),
            TOPOLOGY => Ok(Event::Topology(self.topo())),
            ROLE => Ok(Event::Role {
                group: self.group,
                leader: read_flag(self.leader)?,
            }),
            PD => Ok(self.datagram(Protocol::Pd, bytes)),
            MD => Ok(self.datagram(Protocol::Md, bytes)),
            ADD_SLOT => match Quotas::new(self.quotas) {
                Some(quotas) => Ok(Event::AddSlot(quotas)),
                None => Err(BAD_QUOTA),
            },
            _ => match self.call(bytes) {
                Ok(call) => Ok(Event::Call {
                    slot: self.slot,
                    call,
                }),
                Err(status) => Err(status),
            },
        }
    }

    /// A datagram at the protocol's port.
    #[tactic(auto, unfolding(crate::specs::EventOf::datagram_of))]
    fn datagram<'a>(&self, protocol: Protocol, bytes: &'a [u8]) -> Event<'a>
        ensures { event_model result ≡ datagram_of protocol self.now bytes.now }
    {
        Event::Datagram {
            kind: protocol,
            src: Place {
                ip: Ip(self.from_address),
                port: self.from_port,
            },
            dst: self.to(),
            bytes,
        }
    }

    /// The call that these numbers mean.
    ///
    /// # Errors
    /// `NO_EVENT`, `BAD_FLAG`.
    #[tactic(auto, unfolding(crate::specs::EventOf::call_meant))]
    fn call<'a>(&self, bytes: &'a [u8]) -> Result<Call<'a>, u32>
        ensures { call_read result ≡ call_meant self.now bytes.now }
    {
        let handle = self.handle;
        match self.what {
            PUBLISH => Ok(Call::Publish(self.publisher())),
            PUT => Ok(Call::Put { handle, bytes }),
            UNPUBLISH => Ok(Call::Unpublish { handle }),
            SUBSCRIBE => Ok(Call::Subscribe(self.subscription(read_flag(self.keep)?))),
            GET => Ok(Call::Get { handle }),
            UNSUBSCRIBE => Ok(Call::Unsubscribe { handle }),
            OPEN_PULL => Ok(Call::OpenPull(self.requester())),
            PULL => Ok(Call::Pull { handle }),
            CLOSE_PULL => Ok(Call::ClosePull { handle }),
            LISTEN => Ok(Call::Listen(self.listener(read_flag(self.any)?))),
            UNLISTEN => Ok(Call::Unlisten { handle }),
            NOTIFY => Ok(self.notify(bytes)),
            REQUEST => Ok(self.request(bytes)),
            REPLY => Ok(self.reply(bytes)),
            QUERY => Ok(self.query(bytes)),
            REPLY_ERROR => Ok(self.reply_error()),
            CONFIRM => Ok(self.confirm()),
            ABORT => Ok(Call::Abort { handle }),
            RESET => Ok(Call::Reset),
            _ => Err(NO_EVENT),
        }
    }

    /// The call that sends a notification.
    #[tactic(auto, unfolding(crate::specs::EventOf::notice_of))]
    fn notify<'a>(&self, payload: &'a [u8]) -> Call<'a>
        ensures { call_model result ≡ NotifyCall (notice_of self.now) payload.now }
    {
        let terms = NotifyTerms {
            com_id: self.com_id,
            topo: self.topo(),
            to: self.to(),
            source_uri: Uri::from_field(&self.source_uri),
            dest_uri: Uri::from_field(&self.destination_uri),
        };
        Call::Notify { terms, payload }
    }

    /// The call that sends a request.
    #[tactic(auto, unfolding(crate::specs::EventOf::caller_of))]
    fn request<'a>(&self, payload: &'a [u8]) -> Call<'a>
        ensures { call_model result ≡ RequestCall (caller_of self.now) payload.now }
    {
        let terms = CallerTerms {
            com_id: self.com_id,
            session: SessionId(BigEndian::read_u128(&self.session)),
            expected: self.expected,
            timeout: self.time,
            retries: self.retries,
            topo: self.topo(),
            to: self.to(),
            source_uri: Uri::from_field(&self.source_uri),
            dest_uri: Uri::from_field(&self.destination_uri),
        };
        Call::Request { terms, payload }
    }

    /// The call that replies.
    fn reply<'a>(&self, payload: &'a [u8]) -> Call<'a>
        ensures { call_model result
            ≡ ReplyCall self.now.handle self.now.com_id self.now.status payload.now }
    {
        Call::Reply {
            handle: self.handle,
            com_id: self.com_id,
            status: self.status,
            payload,
        }
    }

    /// The call that replies, and awaits a confirmation.
    fn query<'a>(&self, payload: &'a [u8]) -> Call<'a>
        ensures { call_model result ≡ QueryCall self.now.handle self.now.com_id self.now.status
            self.now.time payload.now }
    {
        Call::Query {
            handle: self.handle,
            com_id: self.com_id,
            status: self.status,
            timeout: self.time,
            payload,
        }
    }

    /// The call that replies with an error.
    fn reply_error<'a>(&self) -> Call<'a>
        ensures { call_model result
            ≡ ReplyErrorCall self.now.handle self.now.com_id self.now.status }
    {
        Call::ReplyError {
            handle: self.handle,
            com_id: self.com_id,
            status: self.status,
        }
    }

    /// The call that confirms a query.
    fn confirm<'a>(&self) -> Call<'a>
        ensures { call_model result
            ≡ ConfirmCall self.now.handle (to_of self.now) self.now.status }
    {
        Call::Confirm {
            handle: self.handle,
            place: self.to(),
            status: self.status,
        }
    }

    /// Where a datagram or an object's telegrams go.
    fn to(&self) -> Place
        ensures { result ≡ to_of self.now }
    {
        Place {
            ip: Ip(self.to_address),
            port: self.to_port,
        }
    }

    /// The topology counters.
    fn topo(&self) -> Topo
        ensures { result ≡ topo_of self.now }
    {
        Topo {
            etb: self.etb,
            op_trn: self.op_trn,
        }
    }

    /// What a publisher is made from.
    #[tactic(auto, unfolding(crate::specs::EventOf::publisher_of))]
    fn publisher(&self) -> PublisherTerms
        ensures { result ≡ publisher_of self.now }
    {
        PublisherTerms {
            com_id: self.com_id,
            dataset: self.dataset,
            cycle: self.time,
            group: self.group,
            topo: self.topo(),
            to: self.to(),
        }
    }

    /// What a subscription is made from, which keeps its value or not.
    #[tactic(auto, unfolding(crate::specs::EventOf::subscription_meant))]
    fn subscription(&self, keep: bool) -> SubscriptionTerms
        ensures { result ≡ subscription_meant self.now keep }
    {
        SubscriptionTerms {
            filter: PdFilter {
                com_id: self.com_id,
                low: Ip(self.low),
                high: Ip(self.high),
                dest: Ip(self.destination),
                topo: self.topo(),
            },
            dataset: self.dataset,
            supervision: self.time,
            behaviour: if keep {
                Behaviour::Keep
            } else {
                Behaviour::Zero
            },
        }
    }

    /// What a requester is made from.
    #[tactic(auto, unfolding(crate::specs::EventOf::requester_of))]
    fn requester(&self) -> RequesterTerms
        ensures { result ≡ requester_of self.now }
    {
        RequesterTerms {
            com_id: self.com_id,
            reply_com_id: self.reply_com_id,
            reply_ip: Ip(self.reply_address),
            topo: self.topo(),
            to: self.to(),
        }
    }

    /// Which messages a listener hears: of any comId or not.
    #[tactic(auto, unfolding(crate::specs::EventOf::listener_of))]
    fn listener(&self, any: bool) -> MdFilter
        ensures { result ≡ listener_of self.now any }
    {
        MdFilter {
            com_id: if any { None } else { Some(self.com_id) },
            low: Ip(self.low),
            high: Ip(self.high),
            dest: Ip(self.destination),
            uri: Uri::from_field(&self.destination_uri),
            topo: self.topo(),
        }
    }
}

/// Whether a flag is set.
///
/// # Errors
/// `BAD_FLAG` where it is neither 0 nor 1.
#[tactic(auto, unfolding(crate::specs::EventOf::flag_of))]
fn read_flag(flag: u8) -> Result<bool, u32>
    ensures { result ≡ flag_of flag }
{
    match flag {
        0 => Ok(false),
        1 => Ok(true),
        _ => Err(BAD_FLAG),
    }
}
