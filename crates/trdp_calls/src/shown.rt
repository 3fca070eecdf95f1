//! The item that a subscription shows.

ghost use Rattle.trdp_model.specs.Fitting.{ShowsFitting};
ghost use Rattle.trdp_model.specs.ShownItems.{showing, ShowsItem};
ghost use Rattle.trdp_model.specs.Configs.{setup_of};

use std::alloc::Global;
use trdp_dataset::NodeConfig;
use trdp_marshal::{Item, MarshalFault, decode};
use trdp_model::{LookFault, ValueFault};
use trdp_pd::Subscription;

/// The item that the subscription shows. Its bytes are always a value of its dataset.
///
/// # Errors
/// `NoDataset` where that is dataset 0, and last `OutOfMemory`.
pub fn item_shown(
    alloc: Global,
    config: &NodeConfig,
    subscription: &Subscription,
) -> Result<Item, ValueFault>
    requires { ShowsFitting (setup_of config.now) subscription.now }
    ensures { ShowsItem (setup_of config.now) (showing subscription.now) result }
{
    let dataset = subscription.dataset();
    match decode(alloc, config.registry(), dataset, subscription.peek().bytes) {
        Ok(item) => Ok(item),
        Err(MarshalFault::NoDataset) => Err(ValueFault::NoDataset),
        Err(MarshalFault::OutOfMemory) => Err(ValueFault::OutOfMemory),
        Err(MarshalFault::Shape) => unreachable!(),
        Err(MarshalFault::TooLong) => unreachable!(),
    }
}
