//! What is true of every slot and of every object, by the rules alone.

ghost use Rattle.std.specs.Prelude.{◌≡◌, Bool};
ghost use Rattle.trdp_filter.specs.declared.globals.Globals.{Globals};
ghost use Rattle.trdp_filter.specs.Telegrams.{TelegramModel};
ghost use Rattle.trdp_model.specs.declared.any_object.AnyObject.{AnyObject};
ghost use Rattle.trdp_model.specs.Kinds.{kind_of};
ghost use Rattle.trdp_model.specs.Objects.{after_taking, after_firing};
ghost use Rattle.std.specs.Prelude.{ℕ, List, Option, None, Some, true, take};
ghost use Rattle.trdp_base.specs.declared.place.Place.{Place};
ghost use Rattle.trdp_head.specs.declared.pd.PdKind.TheVariants.{Error};
ghost use Rattle.trdp_head.specs.PdTelegrams.{PdTelegram, pd_telegram_of};
ghost use Rattle.trdp_model.specs.declared.kind.Kind.TheVariants.{Listener as Listening};
ghost use Rattle.trdp_model.specs.Objects.{is_addressed};
ghost use Rattle.trdp_model.specs.Configs.{NodeSetup};
ghost use Rattle.trdp_model.specs.declared.record.Protocol.{Protocol};
ghost use Rattle.trdp_model.specs.declared.record.Protocol.TheVariants.{Pd};
ghost use Rattle.trdp_model.specs.Datagrams.{is_request, telegram_of};
ghost use Rattle.trdp_model.specs.Events.{EventModel, DatagramIs};
ghost use Rattle.trdp_model.specs.Slots.{SlotState};
ghost use Rattle.trdp_model.specs.Alone.{refused_as, plain_effect, slot_after, records_after};
ghost use Rattle.trdp_model.specs.Alone.{view, alone_in_view};
ghost use Rattle.trdp_model.specs.Inert.{IsInert};

/// The law of equal views: two lists of events of which the same is seen at a slot's number have
/// the same result for that number. This holds whether a slot is open there or not, whatever else
/// they contain, and however many slots the two nodes have.
pub fn same_view()
    ensures { (setup : NodeSetup) (s n m : ℕ) (slot : Option SlotState) (globals : Globals)
        (events others : List EventModel)
        → view setup s n slot globals events ≡ view setup s m slot globals others
        → alone_in_view setup s n slot globals events
        ≡ alone_in_view setup s m slot globals others }
{}

/// The law of the view: an admitted event that a slot doesn't see does nothing in that slot's own
/// model. What the slot sees has the same result as all events without the calls of other slots.
#[tactic(auto, using(crate::proofs::ViewLemmas::view_is_plain))]
pub fn view_drops_nothing()
    ensures { (setup : NodeSetup) (s n : ℕ) (slot : SlotState) (globals : Globals)
        (event : EventModel) → refused_as n globals event ≡ None
        → plain_effect setup s slot globals event
        ≡ record {
          slot = slot_after setup s slot globals event;
          records = records_after setup s slot globals event;
        } }
{}

/// A request is for listeners alone, so that what it does to a slot is what its first listener and
/// the slot make of it.
#[tactic(auto, using(crate::proofs::RequestLemmas::for_listeners))]
pub fn requests_are_for_listeners()
    ensures { (object : AnyObject) (telegram : TelegramModel) (globals : Globals)
        → is_request telegram ≡ true → is_addressed object telegram globals ≡ true
        → kind_of object ≡ Listening }
{}

/// A datagram that is no telegram of its port's protocol is inert: the node accepts it, no slot
/// and no globals change, no slot gets a record, and it can't run out of memory.
pub fn malformed_datagrams_are_inert()
    ensures { (protocol : Protocol) (src dst : Place) (bytes : List ℕ)
        → telegram_of protocol src dst bytes ≡ None
        → IsInert (DatagramIs protocol src dst bytes) }
{}

/// A process data telegram that reports an error (`Pe`) is for no object, and as inert.
pub fn error_telegrams_are_inert()
    ensures { (src dst : Place) (bytes : List ℕ) (telegram : PdTelegram)
        → pd_telegram_of bytes ≡ Some telegram → telegram.head.kind ≡ Error
        → IsInert (DatagramIs Pd src dst bytes) }
{}

/// An object keeps its kind.
pub fn kind_stays()
    ensures taken { (object : AnyObject) (telegram : TelegramModel) (globals : Globals)
        (fits : Bool) → kind_of (after_taking object telegram globals fits) ≡ kind_of object }
    ensures fired { (object : AnyObject) (globals : Globals)
        → kind_of (after_firing object globals) ≡ kind_of object }
{}
