//! A value that a caller passes as an item.

ghost use Rattle.std.specs.Prelude.{◌≡◌, IfOk, IfErr, None};
ghost use Rattle.trdp_marshal.specs.Items.{model_of};
ghost use Rattle.trdp_model.specs.Values.{item_refusal_of, bytes_for};
ghost use Rattle.trdp_calls.specs.Spelled.{IsRefusedAs};
ghost use Rattle.trdp_model.specs.Configs.{setup_of};

use std::alloc::Global;
use trdp_dataset::NodeConfig;
use trdp_marshal::{Item, MarshalFault, encode};
use trdp_model::{AnyObject, Refusal};

/// Why an item has no bytes for an object.
#[derive(Clone, Copy)]
pub enum SpellFault {
    /// The call is refused for this reason.
    Refused(Refusal),
    /// There is no memory for the bytes.
    NoMemory,
}

/// The bytes of an item as a value of the object.
///
/// # Errors
/// Refused: the first that applies of `WrongKind`, `NoDataset` (dataset 0), `Shape` and `TooLong`.
/// `NoMemory` comes last.
pub fn spell(
    alloc: Global,
    config: &NodeConfig,
    object: &AnyObject,
    item: &Item,
) -> Result<Vec<u8>, SpellFault>
    ensures bytes { IfOk result
        (λ bytes. bytes.items ≡ bytes_for (setup_of config.now) (model_of item.now) object.now) }
    ensures spelled { IfOk result
        (λ bytes. item_refusal_of (setup_of config.now) (model_of item.now) object.now ≡ None) }
    ensures refused { IfErr result
        (IsRefusedAs (item_refusal_of (setup_of config.now) (model_of item.now) object.now)) }
{
    match object {
        AnyObject::Publisher(publisher) => {
            match encode(alloc, config.registry(), publisher.dataset(), item) {
                Ok(bytes) => Ok(bytes),
                Err(MarshalFault::NoDataset) => Err(SpellFault::Refused(Refusal::NoDataset)),
                Err(MarshalFault::Shape) => Err(SpellFault::Refused(Refusal::Shape)),
                Err(MarshalFault::TooLong) => Err(SpellFault::Refused(Refusal::TooLong)),
                Err(MarshalFault::OutOfMemory) => Err(SpellFault::NoMemory),
            }
        }
        _ => Err(SpellFault::Refused(Refusal::WrongKind)),
    }
}
