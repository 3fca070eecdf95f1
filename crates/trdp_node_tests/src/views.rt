//! What a slot sees of a node's events, computed for some of them.

ghost use Rattle.std.specs.Prelude.{◌≡◌, List, ℕ, [], ◌∷◌, None, Some, true};
ghost use Rattle.trdp_base.specs.declared.place.Place.{Place};
ghost use Rattle.trdp_head.specs.PdTelegrams.{PdTelegram};
ghost use Rattle.trdp_filter.specs.declared.globals.Globals.{Globals};
ghost use Rattle.trdp_filter.specs.Globals.{first_globals};
ghost use Rattle.trdp_filter.specs.Telegrams.{PdIs};
ghost use Rattle.trdp_pd.specs.Subscriptions.{SubscriptionState, is_for_subscription, is_stale};
ghost use Rattle.trdp_model.specs.declared.record.Protocol.{Protocol};
ghost use Rattle.trdp_model.specs.declared.record.Protocol.TheVariants.{Pd};
ghost use Rattle.trdp_model.specs.Configs.{NodeSetup};
ghost use Rattle.trdp_model.specs.Events.{CallIs, DatagramIs, MomentIs, RoleIs, AddSlotIs};
ghost use Rattle.trdp_model.specs.Events.{GetCall, PutCall};
ghost use Rattle.trdp_model.specs.Slots.{empty_slot, unchanged};
ghost use Rattle.trdp_model.specs.Datagrams.{telegram_of, is_valid_at};
ghost use Rattle.trdp_model.specs.Alone.{view, seen_effect};
ghost use Rattle.trdp_node_tests.specs.Views.{with_subscription};

/// A slot sees its own calls, refused ones too, and accepted moments. A call of another slot, a
/// moment before the latest one, a role in group 0 and the opening of another slot drop out.
pub fn refused_call_stays()
    ensures { (setup : NodeSetup) (n : ℕ) (quotas : List ℕ)
        → view setup 0 n (Some (empty_slot [])) first_globals
        (CallIs 0 (GetCall 7) ∷ CallIs 1 (GetCall 7) ∷ MomentIs 5 ∷ MomentIs 4
        ∷ RoleIs 0 true ∷ AddSlotIs quotas ∷ CallIs 0 (PutCall 7 []) ∷ [])
        ≡ CallIs 0 (GetCall 7) ∷ MomentIs 5 ∷ CallIs 0 (PutCall 7 []) ∷ [] }
{}

/// A number at which no slot is open sees what every slot sees, no call, no datagram, and of the
/// slots that are opened its own, here the second one. From then on it sees its calls.
pub fn number_without_slot_sees_what_all_see()
    ensures { (setup : NodeSetup) (protocol : Protocol) (src dst : Place) (bytes : List ℕ)
        (quotas : List ℕ)
        → view setup 2 1 None first_globals
        (CallIs 2 (GetCall 7) ∷ MomentIs 5 ∷ MomentIs 4 ∷ AddSlotIs quotas
        ∷ DatagramIs protocol src dst bytes ∷ AddSlotIs quotas ∷ AddSlotIs quotas
        ∷ RoleIs 1 true ∷ CallIs 2 (GetCall 7) ∷ [])
        ≡ MomentIs 5 ∷ AddSlotIs quotas ∷ RoleIs 1 true ∷ CallIs 2 (GetCall 7) ∷ [] }
{}

/// A datagram that concerns none of a slot's objects drops out.
pub fn foreign_datagram_drops_out()
    ensures { (setup : NodeSetup) (n : ℕ) (globals : Globals) (protocol : Protocol)
        (src dst : Place) (bytes : List ℕ)
        → view setup 0 n (Some (empty_slot [])) globals (DatagramIs protocol src dst bytes ∷ [])
        ≡ [] }
{}

/// A stale telegram of a subscription stays in the view of its slot, and does nothing.
pub fn stale_telegram_stays()
    ensures stays { (setup : NodeSetup) (n : ℕ) (s : SubscriptionState) (globals : Globals)
        (src dst : Place) (telegram : PdTelegram) (bytes : List ℕ)
        → telegram_of Pd src dst bytes ≡ Some (PdIs src dst telegram)
        → is_valid_at globals (PdIs src dst telegram) ≡ true
        → is_for_subscription s src dst telegram.head globals ≡ true
        → is_stale s.latest src.ip telegram.head ≡ true
        → view setup 0 n (Some (with_subscription s)) globals (DatagramIs Pd src dst bytes ∷ [])
        ≡ DatagramIs Pd src dst bytes ∷ [] }
    ensures nothing { (setup : NodeSetup) (s : SubscriptionState) (globals : Globals)
        (src dst : Place) (telegram : PdTelegram) (bytes : List ℕ)
        → telegram_of Pd src dst bytes ≡ Some (PdIs src dst telegram)
        → is_valid_at globals (PdIs src dst telegram) ≡ true
        → is_for_subscription s src dst telegram.head globals ≡ true
        → is_stale s.latest src.ip telegram.head ≡ true
        → seen_effect setup (with_subscription s) globals (DatagramIs Pd src dst bytes)
        ≡ unchanged (with_subscription s) }
{}
