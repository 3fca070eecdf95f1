//! What the headers of all telegrams begin with, 24 bytes. The frame check with which a header
//! ends is read here, too.
//!
//! | Offset | Field | Type |
//! |---|---|---|
//! | 0 | sequenceCounter | u32 |
//! | 4 | protocolVersion | u16, 0x0100 |
//! | 6 | msgType | u16 |
//! | 8 | comId | u32 |
//! | 12 | etbTopoCnt | u32 |
//! | 16 | opTrnTopoCnt | u32 |
//! | 20 | datasetLength | u32 |

ghost use Rattle.std.specs.Prelude.{ℕ, ◌≡◌, ◌≤◌, length, take, drop};
ghost use Rattle.std.specs.Prelude.{Some, None, IfOk, IfErr};
ghost use Rattle.trdp_head.specs.Prefixes.{prefix_in, prefix_bytes, IsPrefix};
ghost use Rattle.trdp_head.specs.Faults.{prefix_fault_of};

use crate::fault::HeadFault;
use crate::fields::{little_u32_at, put_u16, put_u32, u16_at, u32_at};
use trdp_base::Topo;
use trdp_fcs::frame_check;

/// The offset of sequenceCounter, 4 bytes.
const COUNTER: usize = 0;

/// The offset of protocolVersion, 2 bytes, of which the first is the main version.
const VERSION: usize = 4;

/// The offset of msgType, 2 bytes.
const KIND: usize = 6;

/// The offset of comId, 4 bytes.
const COM_ID: usize = 8;

/// The offset of etbTopoCnt, 4 bytes.
const ETB_TOPO: usize = 12;

/// The offset of opTrnTopoCnt, 4 bytes.
const OP_TRN_TOPO: usize = 16;

/// The offset of datasetLength, 4 bytes.
pub(crate) const DATASET_LENGTH: usize = 20;

/// The length in bytes of the frame check, with which a header ends.
pub(crate) const CHECK_LENGTH: usize = 4;

/// The protocol version 1.0.
const PROTOCOL_VERSION: u16 = 0x0100;

/// The main protocol version.
const MAIN_VERSION: u8 = 1;

/// The fields that all headers begin with and that a node chooses.
#[derive(Clone, Copy)]
pub(crate) struct Prefix {
    /// sequenceCounter.
    pub counter: u32,
    /// msgType.
    pub code: u16,
    /// comId.
    pub com_id: u32,
    /// etbTopoCnt and opTrnTopoCnt.
    pub topo: Topo,
}

/// The first fields of the telegram in the bytes, or its first fault, other than those of its type
/// and payload. Headers have `size` bytes, telegrams at most `longest`.
#[tactic(auto, unfolding(crate::specs::Faults::prefix_fault_of, crate::specs::Checks::is_checked))]
pub(crate) fn read_prefix(bytes: &[u8], size: usize, longest: usize) -> Result<Prefix, HeadFault>
    requires { 28 ≤ size }
    ensures value { IfOk result (λ prefix. prefix ≡ prefix_in bytes.now) }
    ensures room { IfOk result (λ _. size ≤ length bytes.now) }
    ensures none { IfOk result (λ _. prefix_fault_of size longest bytes.now ≡ None) }
    ensures fault { IfErr result (λ fault. prefix_fault_of size longest bytes.now ≡ Some fault) }
{
    if bytes.len() < size {
        return Err(HeadFault::Short);
    }
    if bytes.len() > longest {
        return Err(HeadFault::TooLong);
    }
    // The header ends with the frame check of the bytes before it, least significant byte first.
    let (checked, _) = bytes.split_at(size - CHECK_LENGTH);
    if little_u32_at(bytes, size - CHECK_LENGTH) != frame_check(checked) {
        return Err(HeadFault::Fcs);
    }
    if bytes[VERSION] != MAIN_VERSION {
        return Err(HeadFault::Version);
    }
    Ok(Prefix {
        counter: u32_at(bytes, COUNTER),
        code: u16_at(bytes, KIND),
        com_id: u32_at(bytes, COM_ID),
        topo: Topo {
            etb: u32_at(bytes, ETB_TOPO),
            op_trn: u32_at(bytes, OP_TRN_TOPO),
        },
    })
}

/// Writes the first fields of a header, with the length of the payload and the version 1.0.
pub(crate) fn put_prefix(room: &mut [u8], prefix: Prefix, payload: u32)
    requires { 24 ≤ length room.old }
    ensures front { take 24 room.new ≡ prefix_bytes prefix payload }
    ensures rest { (n : ℕ) → 24 ≤ n → drop n room.new ≡ drop n room.old }
    ensures ranges { IsPrefix prefix }
{
    put_u32(room, COUNTER, prefix.counter);
    put_u16(room, VERSION, PROTOCOL_VERSION);
    put_u16(room, KIND, prefix.code);
    put_u32(room, COM_ID, prefix.com_id);
    put_u32(room, ETB_TOPO, prefix.topo.etb);
    put_u32(room, OP_TRN_TOPO, prefix.topo.op_trn);
    put_u32(room, DATASET_LENGTH, payload);
}
