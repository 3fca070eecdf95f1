//! What is true of every object of one kind, whatever came before, in addition to the laws of the
//! trait [`trdp_pd::Object`].

ghost use Rattle.std.specs.Prelude.{◌≡◌, ◌↔◌, ℕ, ℤ, ◌<◌, ◌⊎◌, Bool, true, false, Some, List, []};
ghost use Rattle.trdp_base.specs.declared.place.Place.{Place};
ghost use Rattle.trdp_head.specs.declared.md.MdHead.{MdHead};
ghost use Rattle.trdp_filter.specs.declared.globals.Globals.{Globals};
ghost use Rattle.trdp_filter.specs.Telegrams.{TelegramModel, MdIs};
ghost use Rattle.trdp_head.specs.MdTelegrams.{MdTelegram};
ghost use Rattle.trdp_pd.specs.declared.object.Reason.{Reason};
ghost use Rattle.trdp_pd.specs.declared.object.Reason.TheVariants.{Done};
ghost use Rattle.trdp_pd.specs.Due.{has_come_by};
ghost use Rattle.trdp_md.specs.declared.listener.Listener.{Listener};
ghost use Rattle.trdp_md.specs.declared.terms.CallerTerms.{CallerTerms};
ghost use Rattle.trdp_md.specs.declared.caller.Caller.{Caller};
ghost use Rattle.trdp_md.specs.declared.replier.Replier.{Replier};
ghost use Rattle.trdp_md.specs.Listeners.{listener_taking, listener_firing, IsHeard};
ghost use Rattle.trdp_md.specs.Answers.{has_answered, awaits};
ghost use Rattle.trdp_md.specs.Callers.{new_caller, caller_due, caller_taking, caller_firing};
ghost use Rattle.trdp_md.specs.Callers.{confirming, closed_of, request_of};
ghost use Rattle.trdp_md.specs.Repliers.{asked_by, queried, replier_due, replier_taking};
ghost use Rattle.trdp_md.specs.Repliers.{replier_firing};
ghost use Rattle.trdp_md.specs.Sessions.{IsAnswerTaken, IsAccepted, HasAdded, AwaitsQueriesOnly};
ghost use Rattle.trdp_md.specs.Sessions.{HasAwaiting, IsDone, IsOfSameRequest, IsItsConfirmation};
ghost use Rattle.trdp_md.specs.Sessions.{AreApart, IsAnswerKind, SettlesAt};

use trdp_pd::{Fired, Taken};

/// Neither a telegram nor a moment changes a listener.
pub fn listener_stays()
    ensures taken { (l : Listener) (telegram : TelegramModel) (globals : Globals) (fits : Bool)
        → (listener_taking l telegram globals fits).object ≡ l }
    ensures fired { (l : Listener) (globals : Globals) → (listener_firing l globals).object ≡ l }
{}

/// A listener hears the notifications and requests that its filter passes, and nothing else.
pub fn listener_hears_its_own()
    ensures { (l : Listener) (telegram : TelegramModel) (globals : Globals) (fits : Bool)
        → ((listener_taking l telegram globals fits).taken ≡ Taken.Heard)
        ↔ IsHeard l telegram globals }
{}

/// A session that begins, and a confirmation that is awaited from now on, end later than now.
pub fn session_ends_later()
    ensures caller { (terms : CallerTerms) (payload : List ℕ) (now : ℕ) → 0 < terms.timeout
        → has_come_by now (caller_due (new_caller terms payload now)) ≡ false }
    ensures replier { (peer : Place) (head : MdHead) (now : ℕ)
        → has_come_by now (replier_due (asked_by peer head now)) ≡ false }
    ensures query { (r : Replier) (now timeout : ℕ) → 0 < timeout
        → has_come_by now (replier_due (queried r now timeout)) ≡ false }
{}

/// Nothing changes the request of a caller.
pub fn caller_keeps()
    ensures taken { (c : Caller) (telegram : TelegramModel) (globals : Globals) (fits : Bool)
        → (caller_taking c telegram globals fits).object.terms ≡ c.terms }
    ensures fired { (c : Caller) (globals : Globals)
        → (caller_firing c globals).object.terms ≡ c.terms }
    ensures confirmed { (c : Caller) (place : Place) → (confirming c place).terms ≡ c.terms }
    ensures taken_payload { (c : Caller) (telegram : TelegramModel) (globals : Globals)
        (fits : Bool) → (caller_taking c telegram globals fits).object.payload ≡ c.payload }
    ensures fired_payload { (c : Caller) (globals : Globals)
        → (caller_firing c globals).object.payload ≡ c.payload }
{}

/// What a caller sends again is its request, with the number of those sent before as its sequence
/// counter, and only while no answer came; each repeat, sent or not, uses up one that is left.
pub fn caller_repeats_its_request()
    ensures unanswered { (c : Caller) (globals : Globals) (head : MdHead)
        → (caller_firing c globals).fired ≡ Fired.Again head → c.answers ≡ [] }
    ensures same { (c : Caller) (globals : Globals) (head : MdHead)
        → (caller_firing c globals).fired ≡ Fired.Again head → head ≡ request_of c.terms c.counter }
    ensures fewer { (c : Caller) (globals : Globals) (head : MdHead)
        → (caller_firing c globals).fired ≡ Fired.Again head
        → (caller_firing c globals).object.left < c.left }
    ensures answers { (c : Caller) (globals : Globals)
        → (caller_firing c globals).object.answers ≡ c.answers }
{}

/// A caller reports each answer that it accepts, and no other telegram, and keeps it as it came.
pub fn caller_tells_its_answers()
    ensures told { (c : Caller) (telegram : TelegramModel) (globals : Globals) (fits : Bool)
        → IsAnswerTaken (caller_taking c telegram globals fits).taken ↔ IsAccepted c telegram }
    ensures added { (c : Caller) (telegram : TelegramModel) (globals : Globals) (fits : Bool)
        → IsAccepted c telegram
        → HasAdded c telegram (caller_taking c telegram globals fits).object }
{}

/// A caller accepts one answer from each place.
pub fn caller_hears_each_place_once()
    ensures once { (c : Caller) (src dst : Place) (telegram : MdTelegram)
        → has_answered c.answers src ≡ true → ¬ IsAccepted c (MdIs src dst telegram) }
    ensures counted { (c : Caller) (src dst : Place) (telegram : MdTelegram) (globals : Globals)
        (fits : Bool) → IsAccepted c (MdIs src dst telegram) → has_answered
        (caller_taking c (MdIs src dst telegram) globals fits).object.answers src ≡ true }
    ensures taken { (c : Caller) (telegram : TelegramModel) (globals : Globals) (fits : Bool)
        (place : Place) → has_answered c.answers place ≡ true
        → has_answered (caller_taking c telegram globals fits).object.answers place ≡ true }
{}

/// No two answers of a caller are from one place: a new caller has none, and whatever it accepts,
/// fires or confirms, they stay from different places.
pub fn caller_answers_stay_apart()
    ensures new { (terms : CallerTerms) (payload : List ℕ) (now : ℕ)
        → AreApart (new_caller terms payload now).answers }
    ensures taken { (c : Caller) (telegram : TelegramModel) (globals : Globals) (fits : Bool)
        → AreApart c.answers → AreApart (caller_taking c telegram globals fits).object.answers }
    ensures fired { (c : Caller) (globals : Globals) → AreApart c.answers
        → AreApart (caller_firing c globals).object.answers }
    ensures confirmed { (c : Caller) (place : Place) → AreApart c.answers
        → AreApart (confirming c place).answers }
{}

/// What a caller accepts is an answer, and of its own session.
pub fn caller_accepts_its_session()
    ensures session { (c : Caller) (src dst : Place) (telegram : MdTelegram)
        → IsAccepted c (MdIs src dst telegram) → telegram.head.session ≡ c.terms.session }
    ensures kind { (c : Caller) (src dst : Place) (telegram : MdTelegram)
        → IsAccepted c (MdIs src dst telegram) → IsAnswerKind telegram.head.kind }
{}

/// A confirmation settles the answers from its place alone; which places answered, and how, stays.
pub fn caller_confirms_one_place()
    ensures { (c : Caller) (place : Place)
        → SettlesAt place c.answers (confirming c place).answers }
{}

/// Only queries await a confirmation: a new caller has none, and neither a telegram nor a
/// confirmation adds another answer that awaits one.
pub fn caller_awaits_queries_only()
    ensures new { (terms : CallerTerms) (payload : List ℕ) (now : ℕ)
        → AwaitsQueriesOnly (new_caller terms payload now).answers }
    ensures taken { (c : Caller) (telegram : TelegramModel) (globals : Globals) (fits : Bool)
        → AwaitsQueriesOnly c.answers
        → AwaitsQueriesOnly (caller_taking c telegram globals fits).object.answers }
    ensures fired { (c : Caller) (globals : Globals) → AwaitsQueriesOnly c.answers
        → AwaitsQueriesOnly (caller_firing c globals).object.answers }
    ensures confirmed { (c : Caller) (place : Place) → AwaitsQueriesOnly c.answers
        → AwaitsQueriesOnly (confirming c place).answers }
{}

/// A place is confirmed where an answer from it awaits this, and then no more.
pub fn caller_confirms_what_awaits()
    ensures found { (c : Caller) (place : Place) → awaits c.answers place ≡ true
        → HasAwaiting c.answers place }
    ensures ended { (c : Caller) (place : Place)
        → awaits (confirming c place).answers place ≡ false }
{}

/// A caller that is done has as many answers as it expected, at least one, and none awaits a
/// confirmation.
pub fn caller_is_done_with_all()
    ensures closed { (c : Caller) (reason : Reason) → closed_of c ≡ Some reason
        → (reason ≡ Done) × IsDone c }
    ensures last { (c : Caller) (telegram : TelegramModel) (globals : Globals) (fits : Bool)
        → (caller_taking c telegram globals fits).taken ≡ Taken.RepliedLast
        → IsDone (caller_taking c telegram globals fits).object }
    ensures fired { (c : Caller) (globals : Globals)
        → (caller_firing c globals).fired ≡ Fired.Closed Done → IsDone c }
{}

/// Nothing changes which request a replier is to answer.
pub fn replier_keeps()
    ensures taken { (r : Replier) (telegram : TelegramModel) (globals : Globals) (fits : Bool)
        → IsOfSameRequest r (replier_taking r telegram globals fits).object }
    ensures fired { (r : Replier) (globals : Globals)
        → IsOfSameRequest r (replier_firing r globals).object }
    ensures queried { (r : Replier) (now timeout : ℕ) → IsOfSameRequest r (queried r now timeout) }
{}

/// A replier is confirmed by the confirmation that it awaits, of its session and from its peer's
/// address, and by nothing else.
pub fn replier_is_confirmed_by_its_peer()
    ensures { (r : Replier) (telegram : TelegramModel) (globals : Globals) (fits : Bool)
        (status : ℤ)
        → ((replier_taking r telegram globals fits).taken ≡ Taken.Confirmed status)
        ↔ IsItsConfirmation r telegram status }
{}
