//! Calls about requesters.

ghost use Rattle.std.specs.Prelude.{◌≡◌, ◌<◌, ◌++◌, length, slice_set, Some};
ghost use Rattle.trdp_model.specs.Kinds.{kind_of};
ghost use Rattle.trdp_model.specs.Events.{OpenPullCall};
ghost use Rattle.trdp_model.specs.Configs.{NodeSetup};
ghost use Rattle.trdp_store.specs.TableSlots.{slots_of};
ghost use Rattle.trdp_model.specs.Records.{labelled};
ghost use Rattle.trdp_model.specs.Pulls.{pulls};
ghost use Rattle.trdp_model.specs.Openings.{opening_refusal, opened_unless, answered};
ghost use Rattle.trdp_outbox.specs.Outboxes.{plain_answer_model};
ghost use Rattle.trdp_outbox.specs.Rooms.{HasRoom, answer_room};
ghost use Rattle.trdp_store.specs.Acting.{slot_at};
ghost use Rattle.trdp_pd.specs.Requesters.{opened};
ghost use Rattle.trdp_model.specs.declared.kind.Kind.TheVariants.{Requester as Requesting};
ghost use Rattle.trdp_store.specs.Indexed.{com_of};
ghost use Rattle.trdp_store.specs.InSession.{own_session};

use crate::opening::open;
use trdp_filter::{Globals, topo_valid};
use trdp_model::{AnyObject, Refusal};
use trdp_outbox::{Outbox, PlainAnswer};
use trdp_pd::{Requester, RequesterTerms};
use trdp_store::{Counts, Store};

/// Makes a requester in slot `s`. It needs no memory.
pub fn open_pull(store: &mut Store, s: u16, terms: &RequesterTerms) -> PlainAnswer
    requires { s < length store.old }
    ensures outcome { opened_unless (opening_refusal (slot_at s store.old) Requesting)
        (slot_at s store.old) (AnyObject.Requester (opened terms.now))
        ≡ answered (slot_at s store.new) (plain_answer_model result) }
    ensures others { slots_of store.new ≡ slice_set (slots_of store.old) s (slot_at s store.new) }
{
    open(
        store,
        s,
        AnyObject::Requester(Requester::new(terms)),
        &mut Counts::none(),
    )
}

/// Lets the object pull, and records the answer and its pull request (PD 'Pr').
pub fn pull(object: &mut AnyObject, globals: &Globals, s: u16, out: &mut Outbox)
    requires { HasRoom out.old answer_room }
    ensures object { Some object.new ≡ (pulls globals.entry.now object.old).left }
    ensures records { out.new.records
        ≡ out.old.records ++ labelled s (pulls globals.entry.now object.old).records }
    ensures kind { kind_of object.new ≡ kind_of object.old }
    ensures sought { com_of object.new ≡ com_of object.old }
    ensures session { own_session object.new ≡ own_session object.old }
{
    match object {
        AnyObject::Requester(requester) => {
            if !topo_valid(requester.topo(), globals.topo) {
                out.push_plain_answer(s, PlainAnswer::Refused(Refusal::State));
                return;
            }
            let to = requester.to();
            let head = requester.pull();
            out.push_plain_answer(s, PlainAnswer::Done);
            out.push_pd(s, to, &head, b"");
        }
        _ => out.push_plain_answer(s, PlainAnswer::Refused(Refusal::WrongKind)),
    }
}
