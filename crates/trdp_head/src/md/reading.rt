//! Reading a message data telegram.

ghost use Rattle.std.specs.Prelude.{◌≡◌, ◌≤◌, ◌+◌, List, ℕ, length};
ghost use Rattle.std.specs.Prelude.{Some, None, IfOk, IfErr, IsOkAnd};
ghost use Rattle.trdp_head.specs.MdKinds.{md_kind_of};
ghost use Rattle.trdp_head.specs.MdHeads.{uri_in};
ghost use Rattle.trdp_head.specs.IsMdTelegram.{IsMdTelegram};
ghost use Rattle.trdp_head.specs.MdFaults.{md_fault_of};
ghost use Rattle.trdp_head.specs.MdTelegrams.{md_telegram_of};
ghost use Rattle.trdp_head.specs.declared.md.MdHead.{MdHead};

use crate::fault::HeadFault;
use crate::fields::{i32_at, u32_at, u128_at};
use crate::md::{MD_HEAD, MD_TELEGRAM_MAX, MdHead, MdKind, MdView, layout};
use crate::prefix::{DATASET_LENGTH, read_prefix};
use trdp_base::{SessionId, URI_LIMIT, Uri};

/// The type of a code, if it is one of message data.
fn kind_of_code(code: u16) -> Option<MdKind>
    ensures { result ≡ md_kind_of code }
{
    match code {
        0x4d6e => Some(MdKind::Notify),
        0x4d72 => Some(MdKind::Request),
        0x4d70 => Some(MdKind::Reply),
        0x4d71 => Some(MdKind::Query),
        0x4d63 => Some(MdKind::Confirm),
        0x4d65 => Some(MdKind::Error),
        _ => None,
    }
}

/// The URI in the field at the offset.
fn uri_at(bytes: &[u8], offset: usize) -> Uri
    requires { offset + 32 ≤ length bytes.now }
    ensures { result ≡ uri_in offset bytes.now }
{
    let (_, rest) = bytes.split_at(offset);
    let (field, _) = rest.split_at(URI_LIMIT);
    Uri::from_field(field)
}

/// The message data telegram in the bytes, whose payload it lends (IEC 61375-2-3).
///
/// Byte 5, what follows the first zero byte of a URI, and what follows the dataset are ignored. The
/// fields are as the header has them. Which tests are made, and in which order, is the profile's
/// choice.
///
/// # Errors
/// The first that holds:
/// - [`HeadFault::Short`]: there are fewer than 116 bytes.
/// - [`HeadFault::TooLong`]: there are more than 65504 bytes.
/// - [`HeadFault::Fcs`]: bytes 112 to 115 are not the frame check of the 112 before them.
/// - [`HeadFault::Version`]: byte 4 is not 1.
/// - [`HeadFault::Kind`]: the type is not one of [`MdKind`].
/// - [`HeadFault::Length`]: the dataset is longer than what follows the header.
pub fn read_md(bytes: &[u8]) -> Result<MdView<'_>, HeadFault>
    ensures telegram { IfOk result (λ view. IsMdTelegram bytes.now view.head view.payload.now) }
    ensures exact { (head : MdHead) (payload : List ℕ) → IsMdTelegram bytes.now head payload
        → IsOkAnd result (λ view. (view.head ≡ head) × (view.payload.now ≡ payload)) }

    ensures fault { IfErr result (λ fault. md_fault_of bytes.now ≡ Some fault) }
    ensures no_fault { IfOk result (λ _. md_fault_of bytes.now ≡ None) }

    // The same as a function of the bytes.
    ensures found { IfOk result (λ view. md_telegram_of bytes.now
        ≡ Some (record { head = view.head; payload = view.payload.now })) }
    ensures none_found { IfErr result (λ _. md_telegram_of bytes.now ≡ None) }
{
    let prefix = read_prefix(bytes, MD_HEAD, MD_TELEGRAM_MAX)?;
    let Some(kind) = kind_of_code(prefix.code) else {
        return Err(HeadFault::Kind);
    };
    let (_, rest) = bytes.split_at(MD_HEAD);
    let Some(payload) = rest.get(..u32_at(bytes, DATASET_LENGTH) as usize) else {
        return Err(HeadFault::Length);
    };
    let head = MdHead {
        counter: prefix.counter,
        kind,
        com_id: prefix.com_id,
        topo: prefix.topo,
        status: i32_at(bytes, layout::STATUS),
        session: SessionId(u128_at(bytes, layout::SESSION)),
        timeout: u32_at(bytes, layout::TIMEOUT),
        source_uri: uri_at(bytes, layout::SOURCE_URI),
        dest_uri: uri_at(bytes, layout::DEST_URI),
    };
    Ok(MdView { head, payload })
}
