//! Reading a process data telegram.

ghost use Rattle.std.specs.Prelude.{◌≡◌, List, ℕ, Some, None, IfOk, IfErr, IsOkAnd};
ghost use Rattle.trdp_head.specs.PdKinds.{pd_kind_of};
ghost use Rattle.trdp_head.specs.IsPdTelegram.{IsPdTelegram};
ghost use Rattle.trdp_head.specs.PdFaults.{pd_fault_of};
ghost use Rattle.trdp_head.specs.PdTelegrams.{pd_telegram_of};
ghost use Rattle.trdp_head.specs.declared.pd.PdHead.{PdHead};

use crate::fault::HeadFault;
use crate::fields::u32_at;
use crate::pd::{PD_HEAD, PD_TELEGRAM_MAX, PdHead, PdKind, PdView, layout};
use crate::prefix::{DATASET_LENGTH, read_prefix};
use trdp_base::Ip;

/// The type of a code, if it is one of process data.
fn kind_of_code(code: u16) -> Option<PdKind>
    ensures { result ≡ pd_kind_of code }
{
    match code {
        0x5064 => Some(PdKind::Data),
        0x5070 => Some(PdKind::PullReply),
        0x5072 => Some(PdKind::PullRequest),
        0x5065 => Some(PdKind::Error),
        _ => None,
    }
}

/// The process data telegram in the bytes, whose payload it lends (IEC 61375-2-3).
///
/// Byte 5, the reserved field and what follows the dataset are ignored. Which tests are made, and
/// in which order, is the profile's choice.
///
/// # Errors
/// The first that holds:
/// - [`HeadFault::Short`]: there are fewer than 40 bytes.
/// - [`HeadFault::TooLong`]: there are more than 1472 bytes.
/// - [`HeadFault::Fcs`]: bytes 36 to 39 are not the frame check of the 36 before them.
/// - [`HeadFault::Version`]: byte 4 is not 1.
/// - [`HeadFault::Kind`]: the type is not one of [`PdKind`].
/// - [`HeadFault::Length`]: the dataset is longer than what follows the header.
pub fn read_pd(bytes: &[u8]) -> Result<PdView<'_>, HeadFault>
    ensures telegram { IfOk result (λ view. IsPdTelegram bytes.now view.head view.payload.now) }
    ensures exact { (head : PdHead) (payload : List ℕ) → IsPdTelegram bytes.now head payload
        → IsOkAnd result (λ view. (view.head ≡ head) × (view.payload.now ≡ payload)) }

    ensures fault { IfErr result (λ fault. pd_fault_of bytes.now ≡ Some fault) }
    ensures no_fault { IfOk result (λ _. pd_fault_of bytes.now ≡ None) }

    // The same as a function of the bytes.
    ensures found { IfOk result (λ view. pd_telegram_of bytes.now
        ≡ Some (record { head = view.head; payload = view.payload.now })) }
    ensures none_found { IfErr result (λ _. pd_telegram_of bytes.now ≡ None) }
{
    let prefix = read_prefix(bytes, PD_HEAD, PD_TELEGRAM_MAX)?;
    let Some(kind) = kind_of_code(prefix.code) else {
        return Err(HeadFault::Kind);
    };
    let (_, rest) = bytes.split_at(PD_HEAD);
    let Some(payload) = rest.get(..u32_at(bytes, DATASET_LENGTH) as usize) else {
        return Err(HeadFault::Length);
    };
    let head = PdHead {
        counter: prefix.counter,
        kind,
        com_id: prefix.com_id,
        topo: prefix.topo,
        reply_com_id: u32_at(bytes, layout::REPLY_COM_ID),
        reply_ip: Ip(u32_at(bytes, layout::REPLY_IP)),
    };
    Ok(PdView { head, payload })
}
