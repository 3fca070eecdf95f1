//! Each call of an object. Scripts show what objects do, telegram by telegram and moment by moment
//! (`rows`).

ghost use Rattle.std.specs.Prelude.{◌≤◌};
ghost use Rattle.trdp_base.specs.Moments.{last_moment};

use crate::same::same;
use std::process::Abort;
use std::test::Fail;
use trdp_base::{Ip, Place, SessionId, Topo, Uri};
use trdp_filter::{Globals, Groups, MdFilter, PdFilter, Telegram};
use trdp_head::{MdHead, MdKind, MdView, PdHead, PdKind, PdView};
use trdp_md::{
    Caller, CallerTerms, Listener, NotifyTerms, Replier, Stage, notification, request_head,
};
use trdp_model::{AnyObject, Kind};
use trdp_pd::{
    Behaviour, Fired, Object, Publisher, PublisherTerms, Reason, Requester, RequesterTerms,
    Subscription, SubscriptionTerms, Taken, ValueState,
};

const ANY: Topo = Topo { etb: 0, op_trn: 0 };

/// Where telegrams come from and go to.
const THERE: Place = Place {
    ip: Ip(0x0a00_0002),
    port: 17224,
};

/// A header of process data of comId 100.
fn data(kind: PdKind, counter: u32) -> PdHead {
    PdHead {
        counter,
        kind,
        com_id: 100,
        topo: ANY,
        reply_com_id: 0,
        reply_ip: Ip(0),
    }
}

/// A header of message data of comId 300 and session 9.
fn message(kind: MdKind, status: i32) -> MdHead {
    MdHead {
        counter: 0,
        kind,
        com_id: 300,
        topo: ANY,
        status,
        session: SessionId(9),
        timeout: 0,
        source_uri: Uri::empty(),
        dest_uri: Uri::empty(),
    }
}

/// What each object sees at that moment.
fn globals(now: u32) -> Globals
    ensures { result.now ≤ last_moment }
{
    Globals {
        now: u64::from(now),
        topo: ANY,
        led: Groups::none(),
    }
}

/// What the object does with process data of this header; None where it isn't for it.
fn takes_data<O: Object>(object: &mut O, head: PdHead) -> Option<Taken> {
    let (src, dst, payload) = (THERE, THERE, b"");
    let view = PdView { head, payload };
    let telegram = Telegram::Pd { src, dst, view };
    let globals = globals(0);
    if !object.addressed(&telegram, &globals) {
        return None;
    }
    Some(object.take(&telegram, &globals, true))
}

/// What the object does with a message of this header; None where it isn't for it.
fn takes_message<O: Object>(object: &mut O, head: MdHead) -> Option<Taken> {
    let (src, dst, payload) = (THERE, THERE, b"");
    let view = MdView { head, payload };
    let telegram = Telegram::Md { src, dst, view };
    let globals = globals(0);
    if !object.addressed(&telegram, &globals) {
        return None;
    }
    Some(object.take(&telegram, &globals, true))
}

/// What the object does at that moment; None where it isn't due.
fn acts<O: Object>(object: &mut O, now: u32) -> Option<Fired> {
    let globals = globals(now);
    match object.due() {
        Some(due) if due <= globals.now => Some(object.fire(&globals)),
        _ => None,
    }
}

/// The object does this with process data of this type and counter 7.
fn on_data<O: Object>(
    rt: &(impl Abort + AllocGlobal),
    object: &mut O,
    kind: PdKind,
    wanted: Option<Taken>,
) {
    let taken = takes_data(object, data(kind, 7));
    same(rt, "a telegram", taken, wanted);
}

/// The object does this with a message of this type and status 7.
fn on_message<O: Object>(
    rt: &(impl Abort + AllocGlobal),
    object: &mut O,
    kind: MdKind,
    wanted: Option<Taken>,
) {
    let taken = takes_message(object, message(kind, 7));
    same(rt, "a message", taken, wanted);
}

/// The object does this at that moment.
fn on_moment<O: Object>(
    rt: &(impl Abort + AllocGlobal),
    object: &mut O,
    now: u32,
    wanted: Option<Fired>,
) {
    let fired = acts(object, now);
    same(rt, now, fired, wanted);
}

const PUBLISHED: PublisherTerms = PublisherTerms {
    com_id: 100,
    dataset: 1001,
    cycle: 100_000,
    group: 0,
    topo: ANY,
    to: THERE,
};

#[test]
fn publisher(rt: HostRuntime) -> Result<(), Fail> {
    let mut p = Publisher::new(rt.alloc(), &PUBLISHED, 0)?;
    let had_none = p.value().is_none();
    p.put(b"\x0a\x0b");
    assert!(rt; had_none && p.value() == Some(b"\x0a\x0b".as_slice()));
    assert!(rt; p.com_id() == 100 && p.dataset() == 1001 && p.to() == THERE);
    let pulled = Some(Taken::Pulled(data(PdKind::PullReply, 0)));
    on_data(&rt, &mut p, PdKind::PullRequest, pulled);
    let sent = Some(Fired::Data(data(PdKind::Data, 1)));
    on_moment(&rt, &mut p, 100_000, sent);
    Ok(())
}

const SUBSCRIBED: SubscriptionTerms = SubscriptionTerms {
    filter: PdFilter {
        com_id: 100,
        low: Ip(0),
        high: Ip(0),
        dest: Ip(0),
        topo: ANY,
    },
    dataset: 1001,
    supervision: 50_000,
    behaviour: Behaviour::Zero,
};

/// The subscription shows this state and counter, and the zero value of its dataset.
fn shows(rt: &impl Abort, s: &Subscription, state: ValueState, counter: u32) {
    let peek = s.peek();
    assert!(rt; peek.state == state && peek.counter == counter);
    assert!(rt; peek.bytes == [0; 1432].as_slice());
}

#[test]
fn subscription(rt: HostRuntime) -> Result<(), Fail> {
    let mut s = Subscription::new(rt.alloc(), &SUBSCRIBED, 1432, 0)?;
    shows(&rt, &s, ValueState::Never, 0);
    assert!(rt; s.com_id() == 100 && s.dataset() == 1001);
    on_data(&rt, &mut s, PdKind::Data, Some(Taken::Stored));
    on_moment(&rt, &mut s, 50_000, Some(Fired::Silent));
    shows(&rt, &s, ValueState::Silent, 7);
    Ok(())
}

const PULLED: RequesterTerms = RequesterTerms {
    com_id: 100,
    reply_com_id: 0,
    reply_ip: Ip(0),
    topo: ANY,
    to: THERE,
};

#[test]
fn requester(rt: HostRuntime) {
    let mut r = Requester::new(&PULLED);
    same(&rt, "pulls", r.pull(), data(PdKind::PullRequest, 0));
    assert!(rt; r.com_id() == 100 && r.topo() == ANY && r.to() == THERE);
    on_data(&rt, &mut r, PdKind::PullRequest, None);
    on_moment(&rt, &mut r, u32::MAX, None);
}

/// Passes messages of comId 300.
fn heard() -> MdFilter {
    MdFilter {
        com_id: Some(300),
        low: Ip(0),
        high: Ip(0),
        dest: Ip(0),
        uri: Uri::empty(),
        topo: ANY,
    }
}

#[test]
fn listener(rt: HostRuntime) {
    let mut l = Listener::new(&heard());
    assert!(rt; l.com_id() == Some(300));
    on_message(&rt, &mut l, MdKind::Notify, Some(Taken::Heard));
    on_moment(&rt, &mut l, u32::MAX, None);
}

/// The terms of a caller that expects one answer within 1,000 microseconds, and sends its request
/// again at most once.
fn asks() -> CallerTerms {
    CallerTerms {
        com_id: 300,
        session: SessionId(9),
        expected: 1,
        timeout: 1000,
        retries: 1,
        topo: ANY,
        to: THERE,
        source_uri: Uri::from_field(b"car1"),
        dest_uri: Uri::from_field(b"car2"),
    }
}

/// It passes whichever single request for memory is refused.
#[test]
fn caller_keeps_its_payload(rt: HostRuntime) -> Result<(), Fail> {
    let terms = asks();
    let caller = match Caller::new(rt.alloc(), &terms, b"\x0d\x0e", 0) {
        Ok(caller) => caller,
        Err(_) => Caller::new(rt.alloc(), &terms, b"\x0d\x0e", 0)?,
    };
    assert!(rt; caller.to() == THERE && caller.payload() == b"\x0d\x0e".as_slice());
    Ok(())
}

/// The caller, which has one answer that awaits a confirmation, is over once it has confirmed it.
fn is_confirmed(rt: &impl Abort, caller: &mut Caller) {
    assert!(rt; caller.answers().len() == 1 && caller.closed().is_none());
    assert!(rt; caller.awaits(THERE) && caller.confirm(THERE));
    assert!(rt; !caller.awaits(THERE) && caller.closed() == Some(Reason::Done));
}

#[test]
fn caller(rt: HostRuntime) -> Result<(), Fail> {
    let terms = asks();
    let mut c = Caller::new(rt.alloc(), &terms, b"", 0)?;
    assert!(rt; c.session() == SessionId(9));
    let again = Some(Fired::Again(request_head(&terms, 1)));
    on_moment(&rt, &mut c, 1000, again);
    on_message(&rt, &mut c, MdKind::Query, Some(Taken::Replied));
    is_confirmed(&rt, &mut c);
    Ok(())
}

#[test]
fn replier(rt: HostRuntime) {
    let mut r = Replier::new(THERE, &message(MdKind::Request, 0), 0);
    assert!(rt; r.peer() == THERE && r.session() == SessionId(9));
    r.query(100, 1000);
    assert!(rt; r.state() == Stage::AwaitConfirm);
    on_message(&rt, &mut r, MdKind::Confirm, Some(Taken::Confirmed(7)));
}

/// What a node holds does what its kind does.
#[test]
fn any_object(rt: HostRuntime) {
    let asked = Replier::new(THERE, &message(MdKind::Request, 0), 0);
    let mut any = AnyObject::Replier(asked);
    assert!(rt; Kind::of(&any).index() == 5);
    on_message(&rt, &mut any, MdKind::Confirm, None);
    let missed = Some(Fired::Closed(Reason::ReplyMissed));
    on_moment(&rt, &mut any, 5_000_000, missed);
}

/// Whether the header has this type, status, timeout and source URI.
fn is_head(head: MdHead, kind: MdKind, status: i32, timeout: u32, source_uri: Uri) -> bool {
    head.kind == kind
        && head.status == status
        && head.timeout == timeout
        && head.source_uri == source_uri
}

// rule: replier.answer: three kinds of answers have the request's URIs swapped
// rule: confirmation.fields: the confirmation has the URIs as they were, and timeout 0
#[test]
fn headers_of_a_session(rt: HostRuntime) -> Result<(), Fail> {
    let terms = asks();
    let (a, b) = (terms.source_uri, terms.dest_uri);
    let request = request_head(&terms, 0);
    assert!(rt; is_head(request, MdKind::Request, 0, 1000, a));
    let replier = Replier::new(THERE, &request, 0);
    assert!(rt; is_head(replier.reply_head(300, 5), MdKind::Reply, 5, 0, b));
    assert!(rt; is_head(replier.query_head(300, 5, 8), MdKind::Query, 5, 8, b));
    assert!(rt; is_head(replier.error_head(300, -1), MdKind::Error, -1, 0, b));
    let confirm = Caller::new(rt.alloc(), &terms, b"", 0)?.confirm_head(5);
    assert!(rt; is_head(confirm, MdKind::Confirm, 5, 0, a));
    Ok(())
}

// rule: notification.fields: counter, session, status and timeout are 0
#[test]
fn notification_of_no_session(rt: HostRuntime) {
    let sent = notification(&NotifyTerms {
        com_id: 300,
        topo: ANY,
        to: THERE,
        source_uri: Uri::empty(),
        dest_uri: Uri::empty(),
    });
    let mut wanted = message(MdKind::Notify, 0);
    wanted.session = SessionId(0);
    same(&rt, "its header", sent, wanted);
}
