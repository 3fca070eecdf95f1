//! What is true of every object of one kind, whatever came before, in addition to the laws of the
//! trait [`Object`].

ghost use Rattle.std.specs.Prelude.{◌≡◌, ℕ, ◌⊎◌, Bool, true, false, IsSome};
ghost use Rattle.trdp_head.specs.declared.pd.PdHead.{PdHead};
ghost use Rattle.trdp_filter.specs.declared.globals.Globals.{Globals};
ghost use Rattle.trdp_filter.specs.Telegrams.{TelegramModel};
ghost use Rattle.trdp_pd.specs.declared.terms.PublisherTerms.{PublisherTerms};
ghost use Rattle.trdp_pd.specs.declared.terms.SubscriptionTerms.{SubscriptionTerms};
ghost use Rattle.trdp_pd.specs.Due.{has_come_by};
ghost use Rattle.trdp_pd.specs.Publishers.{PublisherState, published, publisher_due};
ghost use Rattle.trdp_pd.specs.Publishers.{publisher_taking, publisher_firing};
ghost use Rattle.trdp_pd.specs.Subscriptions.{SubscriptionState, HasTaken, subscribed};
ghost use Rattle.trdp_pd.specs.Subscriptions.{subscription_taking, subscription_firing};

use crate::object::{Fired, Taken};
use crate::terms::ValueState;

/// A new object is due later than now, if ever.
pub fn new_is_later()
    ensures publisher { (terms : PublisherTerms) (now : ℕ)
        → has_come_by now (publisher_due (published terms now)) ≡ false }
    ensures subscription { (terms : SubscriptionTerms) (zero_size now : ℕ)
        → has_come_by now (subscribed terms zero_size now).deadline ≡ false }
{}

/// Neither a telegram nor a moment changes what a publisher is to send, or its value; and no
/// telegram moves its due moment.
pub fn publisher_keeps()
    ensures taken_terms { (p : PublisherState) (telegram : TelegramModel) (globals : Globals)
        (fits : Bool) → (publisher_taking p telegram globals fits).object.terms ≡ p.terms }
    ensures taken_value { (p : PublisherState) (telegram : TelegramModel) (globals : Globals)
        (fits : Bool) → (publisher_taking p telegram globals fits).object.value ≡ p.value }
    ensures taken_due { (p : PublisherState) (telegram : TelegramModel) (globals : Globals)
        (fits : Bool) → (publisher_taking p telegram globals fits).object.due ≡ p.due }
    ensures fired_terms { (p : PublisherState) (globals : Globals)
        → (publisher_firing p globals).object.terms ≡ p.terms }
    ensures fired_value { (p : PublisherState) (globals : Globals)
        → (publisher_firing p globals).object.value ≡ p.value }
{}

/// What a publisher sends has its comId, and it sends nothing before it has a value.
pub fn publisher_sends_its_own()
    ensures pulled_com_id { (p : PublisherState) (telegram : TelegramModel) (globals : Globals)
        (fits : Bool) (head : PdHead)
        → (publisher_taking p telegram globals fits).taken ≡ Taken.Pulled head
        → head.com_id ≡ p.terms.com_id }
    ensures pulled_value { (p : PublisherState) (telegram : TelegramModel) (globals : Globals)
        (fits : Bool) (head : PdHead)
        → (publisher_taking p telegram globals fits).taken ≡ Taken.Pulled head → IsSome p.value }
    ensures fired_com_id { (p : PublisherState) (globals : Globals) (head : PdHead)
        → (publisher_firing p globals).fired ≡ Fired.Data head → head.com_id ≡ p.terms.com_id }
    ensures fired_value { (p : PublisherState) (globals : Globals) (head : PdHead)
        → (publisher_firing p globals).fired ≡ Fired.Data head → IsSome p.value }
{}

/// Neither a telegram nor a moment changes the terms of a subscription.
pub fn subscription_keeps()
    ensures taken { (s : SubscriptionState) (telegram : TelegramModel) (globals : Globals)
        (fits : Bool) → (subscription_taking s telegram globals fits).object.terms ≡ s.terms }
    ensures fired { (s : SubscriptionState) (globals : Globals)
        → (subscription_firing s globals).object.terms ≡ s.terms }
{}

/// The value of a subscription is good only as the payload of a telegram that it accepted: of data
/// or a pull reply, of its own comId, and fitting its dataset.
///
/// A new one is `Never`, a telegram leaves it as it was or is accepted, and a time-out makes it
/// `Silent`.
pub fn subscription_shows_what_it_took()
    ensures new { (terms : SubscriptionTerms) (zero_size now : ℕ)
        → (subscribed terms zero_size now).state ≡ ValueState.Never }
    ensures taken { (s : SubscriptionState) (telegram : TelegramModel) (globals : Globals)
        (fits : Bool) → ((subscription_taking s telegram globals fits).object ≡ s)
        ⊎ HasTaken s telegram fits (subscription_taking s telegram globals fits).object }
    ensures fired { (s : SubscriptionState) (globals : Globals)
        → (subscription_firing s globals).object.state ≡ ValueState.Silent }
{}
