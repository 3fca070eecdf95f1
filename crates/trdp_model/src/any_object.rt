//! The objects of a slot, of any kind.

use trdp_filter::{Globals, Telegram};
use trdp_md::{Caller, Listener, Replier};
use trdp_pd::{Fired, Object, Publisher, Requester, Subscription, Taken};

/// An object of any kind.
#[derive(Drop)]
pub enum AnyObject {
    /// It sends process data in its cycle, and as the reply to a pull request.
    Publisher(Publisher),
    /// It keeps the latest process data of one comId.
    Subscription(Subscription),
    /// It asks for process data.
    Requester(Requester),
    /// It hears notifications and requests.
    Listener(Listener),
    /// It sent a request and waits for its answers.
    Caller(Caller),
    /// It has a request that was received and owes an answer.
    Replier(Replier),
}

impl Object for AnyObject {
    ghost use Rattle.trdp_model.specs.Objects.{due_of, is_sound, is_addressed};
    ghost use Rattle.trdp_model.specs.Objects.{taking, firing};
    ghost use Rattle.trdp_model.specs.ObjectLaws.{taking-unaddressed, due-firing, due-taking};
    ghost use Rattle.trdp_model.specs.ObjectLaws.{is_sound-taking, is_sound-firing};

    ghost due_of = { due_of };

    ghost is_sound = { is_sound };

    ghost is_addressed = { is_addressed };

    ghost taking = { taking };

    ghost firing = { firing };

    ghost unaddressed = { taking-unaddressed };

    ghost later = { due-firing };

    ghost undue = { due-taking };

    ghost kept_sound_by_taking = { is_sound-taking };

    ghost kept_sound_by_firing = { is_sound-firing };

    fn due(&self) -> Option<u64> {
        match self {
            AnyObject::Publisher(publisher) => publisher.due(),
            AnyObject::Subscription(subscription) => subscription.due(),
            AnyObject::Requester(requester) => requester.due(),
            AnyObject::Listener(listener) => listener.due(),
            AnyObject::Caller(caller) => caller.due(),
            AnyObject::Replier(replier) => replier.due(),
        }
    }

    fn addressed(&self, telegram: &Telegram<'_>, globals: &Globals) -> bool {
        match self {
            AnyObject::Publisher(publisher) => publisher.addressed(telegram, globals),
            AnyObject::Subscription(subscription) => subscription.addressed(telegram, globals),
            AnyObject::Requester(requester) => requester.addressed(telegram, globals),
            AnyObject::Listener(listener) => listener.addressed(telegram, globals),
            AnyObject::Caller(caller) => caller.addressed(telegram, globals),
            AnyObject::Replier(replier) => replier.addressed(telegram, globals),
        }
    }

    fn take(&mut self, telegram: &Telegram<'_>, globals: &Globals, fits: bool) -> Taken {
        match self {
            AnyObject::Publisher(publisher) => publisher.take(telegram, globals, fits),
            AnyObject::Subscription(subscription) => subscription.take(telegram, globals, fits),
            AnyObject::Requester(requester) => requester.take(telegram, globals, fits),
            AnyObject::Listener(listener) => listener.take(telegram, globals, fits),
            AnyObject::Caller(caller) => caller.take(telegram, globals, fits),
            AnyObject::Replier(replier) => replier.take(telegram, globals, fits),
        }
    }

    fn fire(&mut self, globals: &Globals) -> Fired {
        match self {
            AnyObject::Publisher(publisher) => publisher.fire(globals),
            AnyObject::Subscription(subscription) => subscription.fire(globals),
            AnyObject::Requester(requester) => requester.fire(globals),
            AnyObject::Listener(listener) => listener.fire(globals),
            AnyObject::Caller(caller) => caller.fire(globals),
            AnyObject::Replier(replier) => replier.fire(globals),
        }
    }
}
