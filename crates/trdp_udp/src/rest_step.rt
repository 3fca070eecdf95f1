//! What a rest does.

ghost use Rattle.std.specs.Prelude.{◌≡◌};
ghost use Rattle.trdp_udp.specs.RestSteps.{is_breathless, is_rest, rest_left, step_of};

/// How much earlier than asked a wait ends, in microseconds: the system comes late.
const WAKE_TIME: u64 = 200;

/// The microseconds of one step of the system's waits.
const WAIT_STEP: u64 = 1_000;

/// The most microseconds without a rest: a quarter of the 0.2 s that
/// `examples/systemd/trdpd.service.d/priority.conf` allows a process of a real-time policy.
const BREATHLESS: u64 = 50_000;

/// What a rest does.
#[derive(Clone, Copy)]
pub(crate) enum RestStep {
    /// Nothing: the next turn begins.
    GoOn,
    /// The system is asked for news, without a wait.
    Look,
    /// A sleep of that many microseconds, after which the system is asked for news.
    Sleep(u64),
    /// A wait of that many milliseconds, which news ends.
    Wait(u64),
}

impl RestStep {
    /// The step of a rest of at most `most` microseconds: if something was heard since the rest
    /// before, as `heard` says, or if no time is left, it is no rest. `is_first` is whether the turn
    /// is the first after a rest.
    #[tactic(auto, unfolding(crate::specs::RestSteps::step_of))]
    pub(crate) fn of(heard: bool, most: u64, is_first: bool) -> RestStep
        ensures { result ≡ step_of heard most is_first }
    {
        let early = most.saturating_sub(WAKE_TIME);
        if heard || most == 0 {
            if is_first {
                RestStep::GoOn
            } else {
                RestStep::Look
            }
        } else if early < WAIT_STEP {
            RestStep::Sleep(most)
        } else {
            RestStep::Wait(early / WAIT_STEP)
        }
    }

    /// Whether it is a rest: a sleep or a wait.
    pub(crate) fn is_rest(self) -> bool
        ensures { result ≡ is_rest self }
    {
        matches!(self, RestStep::Sleep(_) | RestStep::Wait(_))
    }
}

/// What is left of a rest of at most `most` microseconds that begins at the reading `began`. If the
/// rest before ended at `ended`, the turn between them has used some of it.
pub(crate) fn rest_left(ended: Option<u64>, began: u64, most: u64) -> u64
    ensures { result ≡ rest_left ended began most }
{
    match ended {
        Some(ended) => most.saturating_sub(began.saturating_sub(ended)),
        None => most,
    }
}

/// Whether there was no rest for 50 milliseconds up to this reading of the clock. `busy` is the
/// reading since which there was none; None if the latest turn ended with one.
#[tactic(auto, unfolding(crate::specs::RestSteps::is_breathless))]
pub(crate) fn is_breathless(busy: Option<u64>, reading: u64) -> bool
    ensures { result ≡ is_breathless busy reading }
{
    busy.is_some_and(|since| BREATHLESS <= reading.saturating_sub(since))
}
