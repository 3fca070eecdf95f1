//! A run in which each thing that the promises speak of happens.

ghost use Rattle.std.specs.Prelude.{◌≡◌, ◌∷◌, [], pos};
ghost use Rattle.trdp_head.specs.declared.md.MdKind.TheVariants.{Query};
ghost use Rattle.trdp_pd.specs.declared.object.Reason.TheVariants.{Done};
ghost use Rattle.trdp_model.specs.declared.record.Protocol.TheVariants.{Pd, Md};
ghost use Rattle.trdp_model.specs.Records.{Indicates, NotifiedIs, AskedIs, RepliedIs};
ghost use Rattle.trdp_model.specs.Records.{ConfirmedIs, ClosedIs};
ghost use Rattle.trdp_net.specs.Provenance.{Always};
ghost use Rattle.trdp_net.specs.Typed.{AreTypedSteps};
ghost use Rattle.trdp_net.specs.Promises.{AreSingle, IsFresh};
ghost use Rattle.trdp_net.specs.Ties.{HaveOwnPlaces};
ghost use Rattle.trdp_net.specs.ExampleTerms.{example_configs, example_session};
ghost use Rattle.trdp_net.specs.ExampleTerms.{data_0, data_1, messages_0, messages_1};
ghost use Rattle.trdp_net.specs.ExampleTerms.{notice_told, request_told, value_bytes};
ghost use Rattle.trdp_net.specs.ExampleTerms.{notice_bytes, request_bytes, query_bytes};
ghost use Rattle.trdp_net.specs.ExampleTerms.{confirm_bytes};
ghost use Rattle.trdp_net.specs.Example.{example_rows, example_steps, example_network};
ghost use Rattle.trdp_net.specs.Example.{example_history, turns_of, turns_in, telegram};
ghost use Rattle.trdp_net.specs.Example.{WasTold, ShowsValid};

/// The promises are not empty: in this run of two nodes all their premises hold, each step is
/// accepted and reports what its row says, and each thing that they speak of happens.
///
/// Node 0 publishes a value, and a subscription of node 1 shows it as valid. A listener of node 1
/// is notified. Node 0 requests; the request arrives twice, and the listener is asked once. The
/// replier queries; the query arrives twice, and is reported to the caller once. The caller
/// confirms, and is done; the confirmation is reported to the replier.
pub fn the_promises_are_not_empty()
    ensures premises { AreSingle example_configs × AreTypedSteps example_steps
        × Always IsFresh example_history × HaveOwnPlaces example_configs }
    ensures told { turns_of example_history ≡ turns_in example_rows }
    ensures sent { example_network.sent
        ≡ telegram Pd data_0 data_1 value_bytes
        ∷ telegram Md messages_0 messages_1 notice_bytes
        ∷ telegram Md messages_0 messages_1 request_bytes
        ∷ telegram Md messages_1 messages_0 query_bytes
        ∷ telegram Md messages_0 messages_1 confirm_bytes ∷ [] }
    ensures valid { ShowsValid example_network 1 0 1000 (1 ∷ 2 ∷ 3 ∷ 4 ∷ []) }
    ensures notified { WasTold 1 0 (Indicates (NotifiedIs 2 notice_told)) example_history }
    ensures asked { WasTold 1 0
        (Indicates (AskedIs 2 3 example_session request_told)) example_history }
    ensures replied { WasTold 0 0 (Indicates (RepliedIs 2 (record {
      src = messages_1;
      kind = Query;
      status = pos 0;
      com_id = 3001;
      payload = 8 ∷ 9 ∷ [];
    }))) example_history }
    ensures confirmed { WasTold 1 0 (Indicates (ConfirmedIs 3 (pos 3))) example_history }
    ensures done { WasTold 0 0 (Indicates (ClosedIs 2 Done)) example_history }
{}
