//! A look at a subscription of a slot.

ghost use Rattle.std.specs.Prelude.{◌≡◌, ◌<◌, length, IfOk, IfErr, Ok, Err};
ghost use Rattle.trdp_model.specs.Looks.{as_subscription, subscription_at};
ghost use Rattle.trdp_store.specs.Acting.{slot_at};

use trdp_model::{AnyObject, LookFault};
use trdp_pd::Subscription;
use trdp_store::{Store, object_of};

/// The object as a subscription.
///
/// # Errors
/// `WrongKind` where it is none.
pub fn as_subscription(object: &AnyObject) -> Result<&Subscription, LookFault>
    ensures found { IfOk result (λ s. as_subscription object.now ≡ Ok s.now) }
    ensures fault { IfErr result (λ fault. as_subscription object.now ≡ Err fault) }
{
    match object {
        AnyObject::Subscription(subscription) => Ok(subscription),
        _ => Err(LookFault::WrongKind),
    }
}

/// The subscription of that handle in slot `s`.
///
/// # Errors
/// The first that applies of `NoHandle` and `WrongKind`.
pub fn subscription_at(store: &Store, s: u16, handle: u32) -> Result<&Subscription, LookFault>
    requires { s < length store.now }
    ensures found { IfOk result
        (λ found. subscription_at handle (slot_at s store.now).objects ≡ Ok found.now) }
    ensures fault { IfErr result
        (λ fault. subscription_at handle (slot_at s store.now).objects ≡ Err fault) }
{
    match object_of(store, s, handle) {
        None => Err(LookFault::NoHandle),
        Some(object) => as_subscription(object),
    }
}
