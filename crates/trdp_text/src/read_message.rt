//! What the words of a call for messages without an answer say.

ghost use Rattle.trdp_text.specs.Forms.{listen_form, unlisten_form, notify_form};
ghost use Rattle.trdp_text.specs.Lines.{ReadsEvent, form_says};
ghost use Rattle.trdp_text.specs.WordsLeft.{words_left};

use crate::fault::LineFault;
use crate::read::slot_and_handle;
use crate::words::Words;
use trdp_base::Topo;
use trdp_filter::MdFilter;
use trdp_md::NotifyTerms;
use trdp_model::{Call, Event};

/// `call SLOT listen COMID|any LOW HIGH DEST URI ETB OPTRN`
#[tactic(auto, unfolding(crate::specs::Lines::form_says))]
pub(crate) fn read_listen<'b>(mut words: Words<'_, '_>) -> Result<Event<'b>, LineFault>
    ensures { ReadsEvent (form_says listen_form (words_left words.entry)) result }
{
    words.expect(10)?;
    words.next_word();
    let slot = words.next_u16().ok_or(LineFault::BadWord)?;
    words.next_word();
    let com_id = words.next_any_or_u32().ok_or(LineFault::BadWord)?;
    let low = words.next_ip().ok_or(LineFault::BadWord)?;
    let high = words.next_ip().ok_or(LineFault::BadWord)?;
    let dest = words.next_ip().ok_or(LineFault::BadWord)?;
    let uri = words.next_uri().ok_or(LineFault::BadWord)?;
    let etb = words.next_u32().ok_or(LineFault::BadWord)?;
    let op_trn = words.next_u32().ok_or(LineFault::BadWord)?;
    let filter = MdFilter {
        com_id,
        low,
        high,
        dest,
        uri,
        topo: Topo { etb, op_trn },
    };
    Ok(Event::Call {
        slot,
        call: Call::Listen(filter),
    })
}

/// `call SLOT unlisten HANDLE`
pub(crate) fn read_unlisten<'b>(words: Words<'_, '_>) -> Result<Event<'b>, LineFault>
    ensures { ReadsEvent (form_says unlisten_form (words_left words.entry)) result }
{
    let (slot, handle) = slot_and_handle(words)?;
    let call = Call::Unlisten { handle };
    Ok(Event::Call { slot, call })
}

/// `call SLOT notify COMID SOURCEURI DESTURI ETB OPTRN TO HEX`
#[tactic(auto, unfolding(crate::specs::Lines::form_says))]
pub(crate) fn read_notify<'b>(
    buffer: &'b mut Vec<u8>,
    mut words: Words<'_, '_>,
) -> Result<Event<'b>, LineFault>
    ensures { ReadsEvent (form_says notify_form (words_left words.entry)) result }
{
    words.expect(10)?;
    words.next_word();
    let slot = words.next_u16().ok_or(LineFault::BadWord)?;
    words.next_word();
    let com_id = words.next_u32().ok_or(LineFault::BadWord)?;
    let source_uri = words.next_uri().ok_or(LineFault::BadWord)?;
    let dest_uri = words.next_uri().ok_or(LineFault::BadWord)?;
    let etb = words.next_u32().ok_or(LineFault::BadWord)?;
    let op_trn = words.next_u32().ok_or(LineFault::BadWord)?;
    let to = words.next_place().ok_or(LineFault::BadWord)?;
    words.next_bytes(buffer)?;
    let terms = NotifyTerms {
        com_id,
        topo: Topo { etb, op_trn },
        to,
        source_uri,
        dest_uri,
    };
    Ok(Event::Call {
        slot,
        call: Call::Notify {
            terms,
            payload: buffer,
        },
    })
}
