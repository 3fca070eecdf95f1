//! The promises, of every list of steps from nodes that were just opened.
//!
//! What they may need:
//!
//! - `AreSingle`: no node's own address is a group address;
//! - `AreTypedSteps`: each number, URI and identifier in a call is one that its field in a
//!   telegram holds, as the types of a running node have it;
//! - `IsFresh`: no two granted Requests carry the same identifier;
//! - `HaveOwnPlaces`: no two nodes have the same place for message data.

ghost use Rattle.std.specs.Prelude.{◌≡◌, List, Some};
ghost use Rattle.trdp_dataset.specs.Configs.{ConfigModel};
ghost use Rattle.trdp_model.specs.declared.record.Protocol.TheVariants.{Md};
ghost use Rattle.trdp_model.specs.Records.{RecordModel};
ghost use Rattle.trdp_model.specs.Events.{EventModel};
ghost use Rattle.trdp_model.specs.NodeModels.{NodeModel};
ghost use Rattle.trdp_net.specs.Networks.{Step, Move, network_run, opened_network, place_of};
ghost use Rattle.trdp_net.specs.Provenance.{Always, In, Spot};
ghost use Rattle.trdp_net.specs.Typed.{AreTypedSteps};
ghost use Rattle.trdp_net.specs.Promises.{history, AreSingle, IsFresh, ValuesArePut};
ghost use Rattle.trdp_net.specs.Promises.{RepliesAreMade, ConfirmsAreMade, DoneIsDue};
ghost use Rattle.trdp_net.specs.Promises.{NoticesAreMade, RequestsAreMade, AreDistinct};
ghost use Rattle.trdp_net.specs.Promises.{all_replied};
ghost use Rattle.trdp_net.specs.Networks.{Network, network_step};
ghost use Rattle.trdp_net.specs.Running.{NetworkState, Shows, step_fault};
ghost use Rattle.trdp_net.specs.declared.fault.NetworkFault.{NetworkFault};
ghost use Rattle.trdp_net.specs.Ties.{IsStep, IsAtHome, HaveOwnPlaces, StepsSo, MovesSo};

/// A subscription whose value is valid shows bytes that a granted Put gave to a publisher of its
/// comId, at some node.
///
/// Needs `AreSingle` and `AreTypedSteps`. Not promised: that it is the latest such value, nor that
/// of one publisher rather than another of the same comId.
pub fn no_invented_value()
    ensures { (configs : List ConfigModel) (steps : List Step) → AreSingle configs
        → AreTypedSteps steps
        → ValuesArePut (network_run (opened_network configs) steps) }
{}

/// An answer that is reported to a caller was made by a granted Reply, Query or ReplyError, with
/// this message type, comId, status and payload. It was made at the node of the place that it
/// names, on a replier that this caller's own request had asked. And no two answers that are
/// reported to one caller are of one place.
///
/// The first needs `AreSingle`, `AreTypedSteps` and `IsFresh`; the second needs nothing.
pub fn no_invented_reply()
    ensures made { (configs : List ConfigModel) (steps : List Step) → AreSingle configs
        → AreTypedSteps steps → Always IsFresh (history configs steps)
        → Always RepliesAreMade (history configs steps) }
    ensures distinct { (configs : List ConfigModel) (steps : List Step) (caller : Spot)
        → AreDistinct (all_replied caller (history configs steps)) }
{}

/// A confirmation that is reported to a replier was made by a granted Confirm of this status for
/// the place of the replier's node. A caller of its session made it, to which a query from that
/// place had been reported; and the replier had queried.
///
/// Needs `AreSingle` and `AreTypedSteps`.
pub fn no_invented_confirm()
    ensures { (configs : List ConfigModel) (steps : List Step) → AreSingle configs
        → AreTypedSteps steps
        → Always ConfirmsAreMade (history configs steps) }
{}

/// Where `Done` is reported to a caller, as many answers have been reported to it as it expected,
/// at least one, each of another place. Each query that was reported to it was confirmed to its
/// place by a granted Confirm of this caller, also where it expected any number of answers.
///
/// Needs `AreSingle` and `AreTypedSteps`. Not promised: that the confirmations arrived.
pub fn no_early_done()
    ensures { (configs : List ConfigModel) (steps : List Step) → AreSingle configs
        → AreTypedSteps steps
        → Always DoneIsDue (history configs steps) }
{}

/// A notification that is reported to a listener was made by a granted Notify, and a request by a
/// granted Request of its identifier. Each was made at the node of the place that it names, with
/// this comId, these URIs and this payload; a request may have come as any of its repeats.
///
/// Needs `AreSingle` and `AreTypedSteps`. Not promised: that it is reported once. A notification
/// is reported as often as it arrives, and a request that comes again after its session has closed
/// is asked again.
pub fn no_invented_request()
    ensures notified { (configs : List ConfigModel) (steps : List Step) → AreSingle configs
        → AreTypedSteps steps
        → Always NoticesAreMade (history configs steps) }
    ensures asked { (configs : List ConfigModel) (steps : List Step) → AreSingle configs
        → AreTypedSteps steps
        → Always RequestsAreMade (history configs steps) }
{}

/// The history that the promises speak of is the run itself: each of its moves is a step of the
/// run, no node changes its place, and the node of a place is one node.
///
/// The last needs `HaveOwnPlaces`; the others need nothing.
pub fn history_is_the_run()
    ensures steps { (configs : List ConfigModel) (steps : List Step)
        → Always (IsStep (opened_network configs) steps) (history configs steps) }
    ensures places { (configs : List ConfigModel) (steps : List Step)
        → Always (IsAtHome (opened_network configs)) (history configs steps) }
    ensures one_node { (configs : List ConfigModel) (steps : List Step) → HaveOwnPlaces configs
        → (m n : Move) → In m (history configs steps) → In n (history configs steps)
        → place_of Md m.before.setup ≡ place_of Md n.before.setup → m.node ≡ n.node }
{}

/// A node that accepts an event, as `trdp_engine::Node::step` says, does what a node of the
/// network does: the same globals, the same slots, the same records for each slot, and for one
/// that is opened.
pub fn nodes_move_so()
    ensures { (old new : NodeModel) (records records_then : List RecordModel) (event : EventModel)
        → StepsSo old new records records_then event
        → MovesSo old new records records_then event }
{}

/// A step that has a fault, as [`crate::Network`] reports it, changes nothing in the network that
/// is shown.
pub fn faults_change_nothing()
    ensures { (old : NetworkState) (w : Network) (step : Step) (fault : NetworkFault)
        → Shows old w → step_fault old step ≡ Some fault → network_step w step ≡ w }
{}
