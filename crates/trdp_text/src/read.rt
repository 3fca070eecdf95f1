//! What the words of a form say.

ghost use Rattle.std.specs.Prelude.{◌≡◌, ℕ, List, Some, Ok, Err, IfOk, IfErr};
ghost use Rattle.trdp_model.specs.Events.{CallIs, CallModel};
ghost use Rattle.trdp_text.specs.Forms.{handle_form, datagram_form, moment_form};
ghost use Rattle.trdp_text.specs.Forms.{topology_form, role_form, put_form, publish_form};
ghost use Rattle.trdp_text.specs.Forms.{subscribe_form, open_pull_form, unpublish_form};
ghost use Rattle.trdp_text.specs.Forms.{get_form, unsubscribe_form, pull_form, close_pull_form};
ghost use Rattle.trdp_text.specs.Forms.{behaviour_of, add_slot_form, reset_form};
ghost use Rattle.trdp_text.specs.Lines.{ReadsEvent, form_says};
ghost use Rattle.trdp_text.specs.WordsLeft.{words_left};

use crate::fault::LineFault;
use crate::words::Words;
use trdp_base::{Quotas, Topo};
use trdp_filter::PdFilter;
use trdp_model::{Call, Event, Protocol};
use trdp_pd::{Behaviour, PublisherTerms, RequesterTerms, SubscriptionTerms};

/// `moment T`
#[tactic(auto, unfolding(crate::specs::Lines::form_says))]
pub(crate) fn read_moment<'b>(mut words: Words<'_, '_>) -> Result<Event<'b>, LineFault>
    ensures { ReadsEvent (form_says moment_form (words_left words.entry)) result }
{
    words.expect(2)?;
    words.next_word();
    let moment = words.next_u64().ok_or(LineFault::BadWord)?;
    Ok(Event::Moment(moment))
}

/// `topology ETB OPTRN`
#[tactic(auto, unfolding(crate::specs::Lines::form_says))]
pub(crate) fn read_topology<'b>(mut words: Words<'_, '_>) -> Result<Event<'b>, LineFault>
    ensures { ReadsEvent (form_says topology_form (words_left words.entry)) result }
{
    words.expect(3)?;
    words.next_word();
    let etb = words.next_u32().ok_or(LineFault::BadWord)?;
    let op_trn = words.next_u32().ok_or(LineFault::BadWord)?;
    Ok(Event::Topology(Topo { etb, op_trn }))
}

/// `role GROUP leader|follower`
#[tactic(auto, unfolding(crate::specs::Lines::form_says))]
pub(crate) fn read_role<'b>(mut words: Words<'_, '_>) -> Result<Event<'b>, LineFault>
    ensures { ReadsEvent (form_says role_form (words_left words.entry)) result }
{
    words.expect(3)?;
    words.next_word();
    let group = words.next_u8().ok_or(LineFault::BadWord)?;
    let leader = words
        .next_choice(b"leader", b"follower")
        .ok_or(LineFault::BadWord)?;
    Ok(Event::Role { group, leader })
}

/// `addslot PUBLISHERS SUBSCRIPTIONS REQUESTERS LISTENERS CALLERS REPLIERS`
#[tactic(auto, unfolding(crate::specs::Lines::form_says))]
pub(crate) fn read_add_slot<'b>(mut words: Words<'_, '_>) -> Result<Event<'b>, LineFault>
    ensures { ReadsEvent (form_says add_slot_form (words_left words.entry)) result }
{
    words.expect(7)?;
    words.next_word();
    let publishers = words.next_quota().ok_or(LineFault::BadWord)?;
    let subscriptions = words.next_quota().ok_or(LineFault::BadWord)?;
    let requesters = words.next_quota().ok_or(LineFault::BadWord)?;
    let listeners = words.next_quota().ok_or(LineFault::BadWord)?;
    let callers = words.next_quota().ok_or(LineFault::BadWord)?;
    let repliers = words.next_quota().ok_or(LineFault::BadWord)?;
    let quotas = Quotas::new([
        publishers,
        subscriptions,
        requesters,
        listeners,
        callers,
        repliers,
    ])
    .ok_or(LineFault::BadWord)?;
    Ok(Event::AddSlot(quotas))
}

/// `call SLOT publish COMID DATASET CYCLE GROUP ETB OPTRN TO`
#[tactic(auto, unfolding(crate::specs::Lines::form_says))]
pub(crate) fn read_publish<'b>(mut words: Words<'_, '_>) -> Result<Event<'b>, LineFault>
    ensures { ReadsEvent (form_says publish_form (words_left words.entry)) result }
{
    words.expect(10)?;
    words.next_word();
    let slot = words.next_u16().ok_or(LineFault::BadWord)?;
    words.next_word();
    let com_id = words.next_u32().ok_or(LineFault::BadWord)?;
    let dataset = words.next_u32().ok_or(LineFault::BadWord)?;
    let cycle = words.next_u32().ok_or(LineFault::BadWord)?;
    let group = words.next_u8().ok_or(LineFault::BadWord)?;
    let etb = words.next_u32().ok_or(LineFault::BadWord)?;
    let op_trn = words.next_u32().ok_or(LineFault::BadWord)?;
    let to = words.next_place().ok_or(LineFault::BadWord)?;
    let terms = PublisherTerms {
        com_id,
        dataset,
        cycle,
        group,
        topo: Topo { etb, op_trn },
        to,
    };
    Ok(Event::Call {
        slot,
        call: Call::Publish(terms),
    })
}

/// `call SLOT subscribe COMID DATASET LOW HIGH DEST ETB OPTRN TIME zero|keep`
#[tactic(auto, unfolding(crate::specs::Lines::form_says))]
pub(crate) fn read_subscribe<'b>(mut words: Words<'_, '_>) -> Result<Event<'b>, LineFault>
    ensures { ReadsEvent (form_says subscribe_form (words_left words.entry)) result }
{
    words.expect(12)?;
    words.next_word();
    let slot = words.next_u16().ok_or(LineFault::BadWord)?;
    words.next_word();
    let com_id = words.next_u32().ok_or(LineFault::BadWord)?;
    let dataset = words.next_u32().ok_or(LineFault::BadWord)?;
    let low = words.next_ip().ok_or(LineFault::BadWord)?;
    let high = words.next_ip().ok_or(LineFault::BadWord)?;
    let dest = words.next_ip().ok_or(LineFault::BadWord)?;
    let etb = words.next_u32().ok_or(LineFault::BadWord)?;
    let op_trn = words.next_u32().ok_or(LineFault::BadWord)?;
    let supervision = words.next_u32().ok_or(LineFault::BadWord)?;
    let zero = words
        .next_choice(b"zero", b"keep")
        .ok_or(LineFault::BadWord)?;
    let filter = PdFilter {
        com_id,
        low,
        high,
        dest,
        topo: Topo { etb, op_trn },
    };
    let terms = SubscriptionTerms {
        filter,
        dataset,
        supervision,
        behaviour: behaviour(zero),
    };
    Ok(Event::Call {
        slot,
        call: Call::Subscribe(terms),
    })
}

/// What a time-out does to the value: `zero` or `keep`.
fn behaviour(zero: bool) -> Behaviour
    ensures { result ≡ behaviour_of zero }
{
    if zero {
        Behaviour::Zero
    } else {
        Behaviour::Keep
    }
}

/// `call SLOT openpull COMID REPLYCOMID REPLYIP ETB OPTRN TO`
#[tactic(auto, unfolding(crate::specs::Lines::form_says))]
pub(crate) fn read_open_pull<'b>(mut words: Words<'_, '_>) -> Result<Event<'b>, LineFault>
    ensures { ReadsEvent (form_says open_pull_form (words_left words.entry)) result }
{
    words.expect(9)?;
    words.next_word();
    let slot = words.next_u16().ok_or(LineFault::BadWord)?;
    words.next_word();
    let com_id = words.next_u32().ok_or(LineFault::BadWord)?;
    let reply_com_id = words.next_u32().ok_or(LineFault::BadWord)?;
    let reply_ip = words.next_ip().ok_or(LineFault::BadWord)?;
    let etb = words.next_u32().ok_or(LineFault::BadWord)?;
    let op_trn = words.next_u32().ok_or(LineFault::BadWord)?;
    let to = words.next_place().ok_or(LineFault::BadWord)?;
    let terms = RequesterTerms {
        com_id,
        reply_com_id,
        reply_ip,
        topo: Topo { etb, op_trn },
        to,
    };
    Ok(Event::Call {
        slot,
        call: Call::OpenPull(terms),
    })
}

/// `call SLOT unpublish HANDLE`
pub(crate) fn read_unpublish<'b>(words: Words<'_, '_>) -> Result<Event<'b>, LineFault>
    ensures { ReadsEvent (form_says unpublish_form (words_left words.entry)) result }
{
    let (slot, handle) = slot_and_handle(words)?;
    let call = Call::Unpublish { handle };
    Ok(Event::Call { slot, call })
}

/// `call SLOT get HANDLE`
pub(crate) fn read_get<'b>(words: Words<'_, '_>) -> Result<Event<'b>, LineFault>
    ensures { ReadsEvent (form_says get_form (words_left words.entry)) result }
{
    let (slot, handle) = slot_and_handle(words)?;
    let call = Call::Get { handle };
    Ok(Event::Call { slot, call })
}

/// `call SLOT unsubscribe HANDLE`
pub(crate) fn read_unsubscribe<'b>(words: Words<'_, '_>) -> Result<Event<'b>, LineFault>
    ensures { ReadsEvent (form_says unsubscribe_form (words_left words.entry)) result }
{
    let (slot, handle) = slot_and_handle(words)?;
    let call = Call::Unsubscribe { handle };
    Ok(Event::Call { slot, call })
}

/// `call SLOT pull HANDLE`
pub(crate) fn read_pull<'b>(words: Words<'_, '_>) -> Result<Event<'b>, LineFault>
    ensures { ReadsEvent (form_says pull_form (words_left words.entry)) result }
{
    let (slot, handle) = slot_and_handle(words)?;
    let call = Call::Pull { handle };
    Ok(Event::Call { slot, call })
}

/// `call SLOT closepull HANDLE`
pub(crate) fn read_close_pull<'b>(words: Words<'_, '_>) -> Result<Event<'b>, LineFault>
    ensures { ReadsEvent (form_says close_pull_form (words_left words.entry)) result }
{
    let (slot, handle) = slot_and_handle(words)?;
    let call = Call::ClosePull { handle };
    Ok(Event::Call { slot, call })
}

/// `call SLOT reset`
#[tactic(auto, unfolding(crate::specs::Lines::form_says))]
pub(crate) fn read_reset<'b>(mut words: Words<'_, '_>) -> Result<Event<'b>, LineFault>
    ensures { ReadsEvent (form_says reset_form (words_left words.entry)) result }
{
    words.expect(3)?;
    words.next_word();
    let slot = words.next_u16().ok_or(LineFault::BadWord)?;
    let call = Call::Reset;
    Ok(Event::Call { slot, call })
}

/// The slot and the handle in `call SLOT WORD HANDLE`.
#[tactic(auto, unfolding(crate::specs::Lines::form_says))]
pub(crate) fn slot_and_handle(mut words: Words<'_, '_>) -> Result<(u16, u32), LineFault>
    ensures ok { IfOk result (λ found. (word : List ℕ) (call : ℕ → CallModel)
        → form_says (handle_form word call) (words_left words.entry)
        ≡ Ok (Some (CallIs found.0 (call found.1)))) }
    ensures err { IfErr result (λ fault. (word : List ℕ) (call : ℕ → CallModel)
        → form_says (handle_form word call) (words_left words.entry) ≡ Err fault) }
{
    words.expect(4)?;
    words.next_word();
    let slot = words.next_u16().ok_or(LineFault::BadWord)?;
    words.next_word();
    let handle = words.next_u32().ok_or(LineFault::BadWord)?;
    Ok((slot, handle))
}

/// `call SLOT put HANDLE HEX`
#[tactic(auto, unfolding(crate::specs::Lines::form_says))]
pub(crate) fn read_put<'b>(
    buffer: &'b mut Vec<u8>,
    mut words: Words<'_, '_>,
) -> Result<Event<'b>, LineFault>
    ensures { ReadsEvent (form_says put_form (words_left words.entry)) result }
{
    words.expect(5)?;
    words.next_word();
    let slot = words.next_u16().ok_or(LineFault::BadWord)?;
    words.next_word();
    let handle = words.next_u32().ok_or(LineFault::BadWord)?;
    words.next_bytes(buffer)?;
    Ok(Event::Call {
        slot,
        call: Call::Put {
            handle,
            bytes: buffer,
        },
    })
}

/// `pd SRC DST HEX` or `md SRC DST HEX`
#[tactic(auto, unfolding(crate::specs::Lines::form_says))]
pub(crate) fn read_datagram<'b>(
    protocol: Protocol,
    buffer: &'b mut Vec<u8>,
    mut words: Words<'_, '_>,
) -> Result<Event<'b>, LineFault>
    ensures { ReadsEvent (form_says (datagram_form protocol) (words_left words.entry)) result }
{
    words.expect(4)?;
    words.next_word();
    let src = words.next_place().ok_or(LineFault::BadWord)?;
    let dst = words.next_place().ok_or(LineFault::BadWord)?;
    words.next_bytes(buffer)?;
    Ok(Event::Datagram {
        kind: protocol,
        src,
        dst,
        bytes: buffer,
    })
}
