//! The kinds of objects.

ghost use Rattle.std.specs.Prelude.{◌≡◌, ◌<◌};
ghost use Rattle.trdp_base.specs.QuotaLimits.{quota_kinds};
ghost use Rattle.trdp_model.specs.Kinds.{kind_index, kind_of};

use crate::any_object::AnyObject;

/// A kind of object of IEC 61375-2-3, in the order of a slot's quotas (profile).
#[derive(Clone, Copy, Debug, PartialEq, Eq)]
pub enum Kind {
    /// It sends process data in its cycle, and as the reply to a pull request.
    Publisher,
    /// It keeps the latest process data of one comId.
    Subscription,
    /// It asks for process data.
    Requester,
    /// It hears notifications and requests.
    Listener,
    /// It sent a request and waits for its answers.
    Caller,
    /// It has a request that was received and owes an answer.
    Replier,
}

impl Kind {
    /// The kind of an object.
    pub fn of(object: &AnyObject) -> Kind
        ensures { result ≡ kind_of object.now }
    {
        match object {
            AnyObject::Publisher(_) => Kind::Publisher,
            AnyObject::Subscription(_) => Kind::Subscription,
            AnyObject::Requester(_) => Kind::Requester,
            AnyObject::Listener(_) => Kind::Listener,
            AnyObject::Caller(_) => Kind::Caller,
            AnyObject::Replier(_) => Kind::Replier,
        }
    }

    /// The index of the kind among the quotas: 0 for publishers, 1 for subscriptions, 2 for
    /// requesters, 3 for listeners, 4 for callers, 5 for repliers.
    pub fn index(self) -> usize
        ensures value { result ≡ kind_index self }
        ensures within { result < quota_kinds }
    {
        match self {
            Kind::Publisher => 0,
            Kind::Subscription => 1,
            Kind::Requester => 2,
            Kind::Listener => 3,
            Kind::Caller => 4,
            Kind::Replier => 5,
        }
    }
}
