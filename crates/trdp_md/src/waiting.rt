//! The waiting time that a received message sets.

ghost use Rattle.std.specs.Prelude.{◌≡◌, ◌+◌, ◌≤◌, ◌^◌};
ghost use Rattle.trdp_base.specs.Moments.{last_moment};
ghost use Rattle.trdp_md.specs.Waiting.{reply_time, reply_by};

/// What a received replyTimeout of 0 means, in microseconds (profile).
const REPLY_TIME: u32 = 5_000_000;

/// The time that a received replyTimeout means, in microseconds.
#[tactic(auto, unfolding(crate::specs::Waiting::reply_time))]
fn reply_time(timeout: u32) -> u32
    ensures { result ≡ reply_time timeout }
{
    if timeout == 0 { REPLY_TIME } else { timeout }
}

/// When the time of a received replyTimeout ends, in microseconds; it begins now.
#[tactic(auto, unfolding(crate::specs::Waiting::reply_by))]
pub fn reply_by(timeout: u32, now: u64) -> u64
    requires { now ≤ last_moment }
    ensures { result ≡ reply_by timeout now }
{
    now + u64::from(reply_time(timeout))
}
