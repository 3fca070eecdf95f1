//! What is done to one object of the store: it receives a telegram, it fires, or a call asks
//! something of it.

ghost use Rattle.std.specs.Prelude.{◌≡◌, ℕ, ◌++◌};
ghost use Rattle.trdp_model.specs.declared.any_object.AnyObject.{AnyObject};
ghost use Rattle.trdp_model.specs.Kinds.{kind_of};
ghost use Rattle.trdp_model.specs.Objects.{due_of};
ghost use Rattle.trdp_model.specs.Acts.{Act};
ghost use Rattle.trdp_model.specs.Records.{labelled};
ghost use Rattle.trdp_outbox.specs.Outboxes.{OutboxState};
ghost use Rattle.trdp_store.specs.Deeds.{object_left};
ghost use Rattle.trdp_store.specs.Indexed.{com_of};
ghost use Rattle.trdp_store.specs.InSession.{own_session};
ghost use Rattle.trdp_store.specs.Timed.{IsOver};

use trdp_model::AnyObject;
use trdp_outbox::Outbox;

/// Whether an object to which something is done stays.
#[derive(Clone, Copy)]
pub enum Left {
    /// It stays.
    Stays,
    /// It ends, and must be taken out of the table.
    Ended,
}

/// What is done to an object. It keeps its kind, the comId that telegrams look for it under, and
/// its session.
pub trait Deed {
    /// The effect on an object under a handle.
    ghost act: { Self → ℕ → AnyObject → Act };

    /// What has to be true of the object, its handle and the outbox before.
    ghost may: { Self → ℕ → AnyObject → OutboxState → Type 0 };

    /// What is true of the outbox after it.
    ghost spends: { Self → AnyObject → OutboxState → OutboxState → Type 0 };

    /// Where this holds, an object that it ends kept its due moment, or has none.
    ghost ends_still: { Self → Type 0 };

    /// Does it to an object of that handle in slot `s`, and adds its records to the outbox.
    fn on(&self, object: &mut AnyObject, handle: u32, s: u16, out: &mut Outbox) -> Left
        requires may { may self.now handle object.old out.old }
        ensures left { object_left result object.new ≡ (act self.now handle object.old).left }
        ensures records { out.new.records
            ≡ out.old.records ++ labelled s (act self.now handle object.old).records }
        ensures spends { spends self.now object.old out.old out.new }
        ensures kind { kind_of object.new ≡ kind_of object.old }
        ensures sought { com_of object.new ≡ com_of object.old }
        ensures session { own_session object.new ≡ own_session object.old }
        ensures over { result ≡ Left.Ended → ends_still self.now
            → IsOver (due_of object.old) (due_of object.new) };
}
