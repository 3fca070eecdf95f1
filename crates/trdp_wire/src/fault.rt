//! Why a wire doesn't take or give.

ghost use Rattle.std.specs.Prelude.{◌≡◌, ◌<◌, ◌-◌, ◌^◌, nat_lt, is_err, OnErr};
ghost use Rattle.trdp_wire.specs.Failures.{one_more_if};

use thiserror::Error;

/// The wire can't take or give a datagram.
#[derive(Clone, Copy, Debug, PartialEq, Eq, Error)]
#[error("the wire couldn't take or give a datagram")]
pub struct WireFault;

/// Counts one more failure of a wire. A count of 2^64 - 1 stays; the call then counts as one that
/// found nothing, or sent.
///
/// # Errors
/// `WireFault` if the count rose.
#[tactic(auto, unfolding(crate::specs::Failures::one_more_if))]
pub fn fail(failures: &mut u64) -> Result<(), WireFault>
    ensures fault { OnErr result (failures.old < failures.new) }
    ensures fails { is_err result ≡ nat_lt failures.old (2 ^ 64 - 1) }
    ensures count { failures.new ≡ one_more_if (is_err result) failures.old }
{
    if *failures < u64::MAX {
        *failures += 1;
        Err(WireFault)
    } else {
        Ok(())
    }
}
