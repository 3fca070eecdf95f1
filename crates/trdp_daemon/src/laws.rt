//! What follows from the definitions.

ghost use Rattle.std.specs.Prelude.{◌≡◌, ◌≤◌, ◌↔◌, ℕ, List, [], length, map, All, true, false};
ghost use Rattle.std.specs.Prelude.{IfOk, IfSome, Option};
ghost use Rattle.trdp_base.specs.declared.place.Place.{Place};
ghost use Rattle.trdp_dataset.specs.Configs.{ConfigModel};
ghost use Rattle.trdp_model.specs.Events.{EventModel, CallIs, ResetCall};
ghost use Rattle.trdp_model.specs.NodeModels.{NodeModel};
ghost use Rattle.trdp_model.specs.NodeModels.{MayTakeMemory};
ghost use Rattle.trdp_text.specs.EventBytes.{carries_bytes};
ghost use Rattle.trdp_text.specs.PortLines.{control_line_of, operator_line_of};
ghost use Rattle.trdp_wire.specs.declared.port.Port.{Port};
ghost use Rattle.trdp_wire.specs.declared.port.Port.TheVariants.{Control, Operator};
ghost use Rattle.trdp_daemon.specs.declared.totals.Totals.{Totals};
ghost use Rattle.trdp_daemon.specs.Effects.{EventLost, LineLost, Loss, ServiceState, TextsLost};
ghost use Rattle.trdp_daemon.specs.Effects.{event_effect, silence};
ghost use Rattle.trdp_daemon.specs.Leases.{ended_effect};
ghost use Rattle.trdp_daemon.specs.Effects.{event_taken, is_reset, may_take_memory, texts_lost};
ghost use Rattle.trdp_wire.specs.Ports.{control_numbers, ports_of};
ghost use Rattle.trdp_daemon.specs.Silences.{HaveNoLine, times_out_in};
ghost use Rattle.trdp_daemon.specs.Turns.{Turn, turns_effect, unlost, AllTakeAt, TakesAtEach};
ghost use Rattle.trdp_daemon.specs.Turns.{opened_service};
ghost use Rattle.trdp_daemon.specs.Visits.{OpensNoSlot, datagram_effect, operator_event};
ghost use Rattle.trdp_daemon.specs.Visits.{operator_taken};

/// Turns in which `memory` counted nothing are turns in which nothing was lost: their results and
/// offers follow from the readings, the takes, and what was counted as each take was answered.
pub fn nothing_missed()
    ensures { (service : ServiceState) (turns : List Turn)
        → (turns_effect service turns).telling.missed ≡ 0
        → turns_effect service turns ≡ turns_effect service (map unlost turns) }
{}

/// An event may be lost only if the node says that it may need memory. Any other event has the
/// effect of an event that was taken, even if it or its line is marked as lost; the operator's is
/// also answered. A line may be lost only if it carries bytes. So no skipped line is lost, and at
/// the operator's port only the opening of a slot, which allocates, can be lost.
pub fn lost_only_where_memory_is_taken()
    ensures tested { (node : NodeModel) (event : EventModel)
        → (may_take_memory node event ≡ true)
        ↔ (MayTakeMemory node event × (is_reset event ≡ false)) }
    ensures reset { (service : ServiceState) (slot : ℕ) (loss : Loss)
        → event_effect service (CallIs slot ResetCall) loss
        ≡ event_taken service (CallIs slot ResetCall) (texts_lost loss) }
    ensures event { (service : ServiceState) (event : EventModel) (loss : Loss)
        → ¬ MayTakeMemory service.node event
        → event_effect service event loss ≡ event_taken service event (texts_lost loss) }
    ensures operator { (service : ServiceState) (from : Place) (event : EventModel)
        → ¬ MayTakeMemory service.node event
        → operator_event service from event EventLost ≡ operator_taken service from event [] }
    ensures operator_read { (service : ServiceState) (totals : Totals) (from : Place)
        (bytes : List ℕ)
        → datagram_effect service totals Operator from bytes LineLost
        ≡ datagram_effect service totals Operator from bytes (TextsLost []) }
    ensures operator_line { (service : ServiceState) (totals : Totals) (from : Place)
        (bytes : List ℕ) (loss : Loss)
        → IfOk (operator_line_of bytes) (λ line. IfSome line OpensNoSlot)
        → datagram_effect service totals Operator from bytes loss
        ≡ datagram_effect service totals Operator from bytes (TextsLost []) }
    ensures control_line { (service : ServiceState) (totals : Totals) (slot : ℕ) (from : Place)
        (bytes : List ℕ)
        → IfOk (control_line_of slot bytes) (λ event. carries_bytes event ≡ false)
        → datagram_effect service totals (Control slot) from bytes LineLost
        ≡ datagram_effect service totals (Control slot) from bytes (TextsLost []) }
{}

/// If the slots of all control ports of a configuration are open, each turn takes once at each port
/// of the configuration, in their order, each time with the room of a take: a slot that is open
/// stays so. A node opens each slot of its configuration from the start. So, if no spare port is
/// named, this holds from the first turn on.
pub fn each_port_is_taken_from()
    ensures served { (config : ConfigModel) (service : ServiceState) (turns : List Turn)
        → length (control_numbers config) ≤ length service.node.slots
        → AllTakeAt (ports_of config) service turns
        → All (TakesAtEach (ports_of config)) turns }
    ensures opened { (config : ConfigModel) (lease : Option ℕ) (turns : List Turn)
        → config.spare_control_ports ≡ []
        → AllTakeAt (ports_of config) (opened_service config lease) turns
        → All (TakesAtEach (ports_of config)) turns }
{}

/// In turns in which no line of a slot comes, the lease runs out for it once at most: after that
/// it can run out again only after the slot's next line.
pub fn silence_resets_once()
    ensures { (service : ServiceState) (slot : ℕ) (turns : List Turn)
        → HaveNoLine slot turns
        → times_out_in slot service turns ≤ 1 }
{}

/// If the wire reports the end of an application, nothing is sent for it: the answer to the slot's
/// reset belongs to no one, is offered to no wire, and nothing of it is lost.
pub fn an_end_tells_nobody()
    ensures { (service : ServiceState) (port : Port) (loss : Loss)
        → (ended_effect service port loss).telling ≡ silence }
{}
