//! What the words of a call of a message session say: a request, its answers, its confirmations.

ghost use Rattle.trdp_text.specs.Forms.{request_form, reply_form, query_form};
ghost use Rattle.trdp_text.specs.Forms.{reply_error_form, confirm_form, abort_form};
ghost use Rattle.trdp_text.specs.Lines.{ReadsEvent, form_says};
ghost use Rattle.trdp_text.specs.WordsLeft.{words_left};

use crate::fault::LineFault;
use crate::field::read_bytes;
use crate::read::slot_and_handle;
use crate::words::Words;
use trdp_base::Topo;
use trdp_md::CallerTerms;
use trdp_model::{Call, Event};

/// `call SLOT request COMID SESSION EXPECTED TIME SOURCEURI DESTURI ETB OPTRN TO HEX [RETRIES]`:
/// the number at the end is read before any allocation for the bytes.
#[tactic(auto, unfolding(crate::specs::Lines::form_says))]
pub(crate) fn read_request<'b>(
    buffer: &'b mut Vec<u8>,
    mut words: Words<'_, '_>,
) -> Result<Event<'b>, LineFault>
    ensures { ReadsEvent (form_says request_form (words_left words.entry)) result }
{
    words.expect_between(13, 14)?;
    words.next_word();
    let slot = words.next_u16().ok_or(LineFault::BadWord)?;
    words.next_word();
    let com_id = words.next_u32().ok_or(LineFault::BadWord)?;
    let session = words.next_session().ok_or(LineFault::BadWord)?;
    let expected = words.next_u8().ok_or(LineFault::BadWord)?;
    let timeout = words.next_u32().ok_or(LineFault::BadWord)?;
    let source_uri = words.next_uri().ok_or(LineFault::BadWord)?;
    let dest_uri = words.next_uri().ok_or(LineFault::BadWord)?;
    let etb = words.next_u32().ok_or(LineFault::BadWord)?;
    let op_trn = words.next_u32().ok_or(LineFault::BadWord)?;
    let to = words.next_place().ok_or(LineFault::BadWord)?;
    let hex = words.next_word();
    let retries = words.last_u8().ok_or(LineFault::BadWord)?;
    read_bytes(hex, buffer)?;
    let terms = CallerTerms {
        com_id,
        session,
        expected,
        timeout,
        retries,
        topo: Topo { etb, op_trn },
        to,
        source_uri,
        dest_uri,
    };
    Ok(Event::Call {
        slot,
        call: Call::Request {
            terms,
            payload: buffer,
        },
    })
}

/// `call SLOT reply HANDLE COMID STATUS HEX`
#[tactic(auto, unfolding(crate::specs::Lines::form_says))]
pub(crate) fn read_reply<'b>(
    buffer: &'b mut Vec<u8>,
    mut words: Words<'_, '_>,
) -> Result<Event<'b>, LineFault>
    ensures { ReadsEvent (form_says reply_form (words_left words.entry)) result }
{
    words.expect(7)?;
    words.next_word();
    let slot = words.next_u16().ok_or(LineFault::BadWord)?;
    words.next_word();
    let handle = words.next_u32().ok_or(LineFault::BadWord)?;
    let com_id = words.next_u32().ok_or(LineFault::BadWord)?;
    let status = words.next_status().ok_or(LineFault::BadWord)?;
    words.next_bytes(buffer)?;
    let call = Call::Reply {
        handle,
        com_id,
        status,
        payload: buffer,
    };
    Ok(Event::Call { slot, call })
}

/// `call SLOT query HANDLE COMID STATUS TIME HEX`
#[tactic(auto, unfolding(crate::specs::Lines::form_says))]
pub(crate) fn read_query<'b>(
    buffer: &'b mut Vec<u8>,
    mut words: Words<'_, '_>,
) -> Result<Event<'b>, LineFault>
    ensures { ReadsEvent (form_says query_form (words_left words.entry)) result }
{
    words.expect(8)?;
    words.next_word();
    let slot = words.next_u16().ok_or(LineFault::BadWord)?;
    words.next_word();
    let handle = words.next_u32().ok_or(LineFault::BadWord)?;
    let com_id = words.next_u32().ok_or(LineFault::BadWord)?;
    let status = words.next_status().ok_or(LineFault::BadWord)?;
    let timeout = words.next_u32().ok_or(LineFault::BadWord)?;
    words.next_bytes(buffer)?;
    let call = Call::Query {
        handle,
        com_id,
        status,
        timeout,
        payload: buffer,
    };
    Ok(Event::Call { slot, call })
}

/// `call SLOT replyerror HANDLE COMID STATUS`
#[tactic(auto, unfolding(crate::specs::Lines::form_says))]
pub(crate) fn read_reply_error<'b>(mut words: Words<'_, '_>) -> Result<Event<'b>, LineFault>
    ensures { ReadsEvent (form_says reply_error_form (words_left words.entry)) result }
{
    words.expect(6)?;
    words.next_word();
    let slot = words.next_u16().ok_or(LineFault::BadWord)?;
    words.next_word();
    let handle = words.next_u32().ok_or(LineFault::BadWord)?;
    let com_id = words.next_u32().ok_or(LineFault::BadWord)?;
    let status = words.next_status().ok_or(LineFault::BadWord)?;
    let call = Call::ReplyError {
        handle,
        com_id,
        status,
    };
    Ok(Event::Call { slot, call })
}

/// `call SLOT confirm HANDLE PLACE STATUS`
#[tactic(auto, unfolding(crate::specs::Lines::form_says))]
pub(crate) fn read_confirm<'b>(mut words: Words<'_, '_>) -> Result<Event<'b>, LineFault>
    ensures { ReadsEvent (form_says confirm_form (words_left words.entry)) result }
{
    words.expect(6)?;
    words.next_word();
    let slot = words.next_u16().ok_or(LineFault::BadWord)?;
    words.next_word();
    let handle = words.next_u32().ok_or(LineFault::BadWord)?;
    let place = words.next_place().ok_or(LineFault::BadWord)?;
    let status = words.next_status().ok_or(LineFault::BadWord)?;
    let call = Call::Confirm {
        handle,
        place,
        status,
    };
    Ok(Event::Call { slot, call })
}

/// `call SLOT abort HANDLE`
pub(crate) fn read_abort<'b>(words: Words<'_, '_>) -> Result<Event<'b>, LineFault>
    ensures { ReadsEvent (form_says abort_form (words_left words.entry)) result }
{
    let (slot, handle) = slot_and_handle(words)?;
    let call = Call::Abort { handle };
    Ok(Event::Call { slot, call })
}
