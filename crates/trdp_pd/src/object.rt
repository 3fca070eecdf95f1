//! What all kinds of objects have in common.

ghost use Rattle.std.specs.Prelude.{◌≡◌, ℕ, ◌≤◌, Option, Bool, true, false};
ghost use Rattle.trdp_base.specs.Moments.{last_moment};
ghost use Rattle.trdp_filter.specs.Telegrams.{TelegramModel, telegram_model, IsWithinLimit};
ghost use Rattle.trdp_filter.specs.declared.globals.Globals.{Globals};
ghost use Rattle.trdp_pd.specs.Due.{IsDueBy, has_come_by};
ghost use Rattle.trdp_pd.specs.Effects.{Reception, Firing};

use trdp_filter::{Globals, Telegram};
use trdp_head::{MdHead, PdHead};

/// What an object did with a telegram.
#[derive(Clone, Copy, Debug, PartialEq, Eq)]
pub enum Taken {
    /// Nothing: the object is as it was.
    Nothing,
    /// It stored the value.
    Stored,
    /// It stored the value, and had been silent before.
    Alive,
    /// It answers a pull request with its value, with this header.
    Pulled(PdHead),
    /// It heard a message.
    Heard,
    /// It accepted an answer to its request.
    Replied,
    /// It accepted an answer to its request, and has all that it waits for.
    RepliedLast,
    /// It accepted the confirmation of its reply, with this status, and is over.
    Confirmed(i32),
}

/// Why an open request or an open reply is over.
#[derive(Clone, Copy, Debug, PartialEq, Eq)]
pub enum Reason {
    /// Each expected answer came, and none awaits a confirmation.
    Done,
    /// No answer came in time.
    NoReply,
    /// Fewer answers than expected came in time.
    NotAllReplies,
    /// An answer wasn't confirmed in time.
    NotConfirmed,
    /// The request wasn't answered in time.
    ReplyMissed,
    /// The reply wasn't confirmed in time by its peer.
    NoConfirm,
}

/// What an object does as it fires.
#[derive(Clone, Copy, Debug, PartialEq, Eq)]
pub enum Fired {
    /// It sends nothing and reports nothing.
    Nothing,
    /// It sends its value with this header.
    Data(PdHead),
    /// It sends its request again with this header.
    Again(MdHead),
    /// Its supervision time ran out.
    Silent,
    /// Its deadline came, and it is over.
    Closed(Reason),
}

/// An object of a slot. What it does depends on its own state, the telegram and the globals alone.
pub trait Object {
    ghost use Rattle.trdp_pd.specs.declared.object.Taken.TheVariants.{Nothing as NotTaken};

    /// When the object is to act next, in microseconds since the node began; None for never.
    ghost due_of: { Self → Option ℕ };

    /// What the laws below require of an object: each object that a node holds is sound. Objects
    /// of a kind whose laws require nothing are always sound.
    ghost is_sound: { Self → Bool };

    /// The telegram is for the object.
    ghost is_addressed: { Self → TelegramModel → Globals → Bool };

    /// The object once it was handed a telegram, which fits its dataset or doesn't, and what it
    /// did with it.
    ghost taking: { Self → TelegramModel → Globals → Bool → Reception Self };

    /// The object once it fired, and what it did.
    ghost firing: { Self → Globals → Firing Self };

    /// When it is to act next, in microseconds since the node began; None for never.
    fn due(&self) -> Option<u64>
        ensures { result ≡ due_of self.now };

    /// Whether the telegram is for it.
    fn addressed(&self, telegram: &Telegram<'_>, globals: &Globals) -> bool
        ensures { result ≡ is_addressed self.now (telegram_model telegram.now) globals.entry.now };

    /// Hands it a telegram; `fits` says whether the payload is one of its dataset, if its kind has
    /// values.
    fn take(&mut self, telegram: &Telegram<'_>, globals: &Globals, fits: bool) -> Taken
        requires limit { IsWithinLimit (telegram_model telegram.now) }
        requires now { globals.now.now ≤ last_moment }
        ensures state { self.new
            ≡ (taking self.old (telegram_model telegram.now) globals.entry.now fits).object }
        ensures outcome { result
            ≡ (taking self.old (telegram_model telegram.now) globals.entry.now fits).taken };

    /// Lets it act once its due moment has come.
    fn fire(&mut self, globals: &Globals) -> Fired
        requires due { IsDueBy (due_of self.old) globals.now.now }
        requires now { globals.now.now ≤ last_moment }
        ensures state { self.new ≡ (firing self.old globals.entry.now).object }
        ensures outcome { result ≡ (firing self.old globals.entry.now).fired };

    /// A telegram that isn't addressed to the object changes nothing.
    ghost unaddressed: { (x : Self) (telegram : TelegramModel) (globals : Globals) (fits : Bool)
        → is_addressed x telegram globals ≡ false
        → taking x telegram globals fits ≡ record { object = x; taken = NotTaken } };

    /// An object that fired isn't due by now.
    ghost later: { (x : Self) (globals : Globals) → is_sound x ≡ true
        → has_come_by globals.now (due_of (firing x globals).object) ≡ false };

    /// An object that isn't due before it is handed a telegram isn't due after it.
    ghost undue: { (x : Self) (telegram : TelegramModel) (globals : Globals) (fits : Bool)
        → is_sound x ≡ true → has_come_by globals.now (due_of x) ≡ false
        → has_come_by globals.now (due_of (taking x telegram globals fits).object) ≡ false };

    /// A sound object that was handed a telegram is sound.
    ghost kept_sound_by_taking: { (x : Self) (telegram : TelegramModel) (globals : Globals)
        (fits : Bool) → is_sound x ≡ true
        → is_sound (taking x telegram globals fits).object ≡ true };

    /// A sound object that fired is sound.
    ghost kept_sound_by_firing: { (x : Self) (globals : Globals) → is_sound x ≡ true
        → is_sound (firing x globals).object ≡ true };
}
