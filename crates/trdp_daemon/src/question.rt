//! The answers to the operator's questions, each put into a list that has room for it.

ghost use Rattle.std.specs.Prelude.{◌≡◌, ◌<◌, ◌≤◌, ◌+◌, ◌++◌, codes, length};
ghost use Rattle.std.specs.Prelude.{vec_len, vec_capacity, ℕ, Option};
ghost use Rattle.trdp_base.specs.NumberText.{text_of_number};
ghost use Rattle.trdp_base.specs.declared.number.TheConstants.{NUMBER_LENGTH};
ghost use Rattle.trdp_engine.specs.NodeStates.{uncounted};
ghost use Rattle.trdp_model.specs.Slots.{slot_limit};
ghost use Rattle.trdp_daemon.specs.Questions.{frame_room, slot_numbered, text_of_age};
ghost use Rattle.trdp_daemon.specs.Questions.{text_of_slot, text_of_slots, text_of_totals};
ghost use Rattle.trdp_daemon.specs.Questions.{text_of_question, text_of_usage, text_of_usages};

use crate::contact::{Contact, contact_of};
use crate::totals::Totals;
use trdp_base::{NUMBER_LENGTH, push_number};
use trdp_engine::{Kind, Node};
use trdp_text::Question;

/// The most bytes of an answer: those of a datagram in one frame of Ethernet.
pub(crate) const FRAME_ROOM: usize = 1_472;

/// Puts the answer to a question in place of what the list holds, with these totals and this
/// reading of the clock.
#[tactic(auto, unfolding(crate::specs::Questions::text_of_question))]
pub(crate) fn put_answer(
    text: &mut Vec<u8>,
    question: Question,
    totals: Totals,
    node: &Node,
    contacts: &[Option<Contact>],
    reading: u64,
)
    requires room { frame_room ≤ vec_capacity text.old }
    ensures items { (lease : Option ℕ) → text.new.items ≡ text_of_question (record {
      node = uncounted node.now;
      contacts = contacts.now;
      reading = reading;
      lease = lease;
    }) totals question }
    ensures len { vec_len text.new ≤ frame_room }
    ensures capacity { vec_capacity text.old ≤ vec_capacity text.new }
{
    text.clear();
    match question {
        Question::Totals => put_totals(text, totals),
        Question::Slots => put_slots(text, node, contacts, reading),
    }
}

/// Puts the line of the totals.
fn put_totals(text: &mut Vec<u8>, totals: Totals)
    requires room { vec_len text.old + frame_room ≤ vec_capacity text.old }
    ensures items { text.new.items ≡ text.old.items ++ text_of_totals totals ++ codes "\n" }
    ensures len { vec_len text.new ≤ vec_len text.old + frame_room }
    ensures capacity { vec_capacity text.old ≤ vec_capacity text.new }
{
    put_count(text, b"taken ", totals.taken);
    put_count(text, b" offered ", totals.offered);
    put_count(text, b" lost ", totals.lost);
    put_count(text, b" unread ", totals.unread);
    put_count(text, b" memory ", totals.memory);
    put_word(text, b"\n");
}

/// Puts the lines of a node's slots, by a reading of the clock, slots rising: at most 16 of at most
/// 73 bytes.
fn put_slots(text: &mut Vec<u8>, node: &Node, contacts: &[Option<Contact>], reading: u64)
    requires room { vec_len text.old + frame_room ≤ vec_capacity text.old }
    ensures items { text.new.items
        ≡ text.old.items ++ text_of_slots reading contacts.now 0 node.now.slots }
    ensures len { vec_len text.new ≤ vec_len text.old + frame_room }
    ensures capacity { vec_capacity text.old ≤ vec_capacity text.new }
{
    for slot in 0..node.slots() {
        put_slot(text, node, contacts, reading, slot as u16);
    }
}

/// Puts the line of a slot.
#[tactic(auto, unfolding(crate::specs::Questions::text_of_slot))]
fn put_slot(text: &mut Vec<u8>, node: &Node, contacts: &[Option<Contact>], reading: u64, slot: u16)
    requires slot { slot < length node.now.slots }
    requires few { slot < slot_limit }
    requires room { vec_len text.old + 100 ≤ vec_capacity text.old }
    ensures items { text.new.items ≡ text.old.items
        ++ text_of_slot reading contacts.now slot (slot_numbered node.now.slots slot) }
    ensures len { vec_len text.new ≤ vec_len text.old + 73 }
    ensures capacity { vec_capacity text.old ≤ vec_capacity text.new }
{
    put_small(text, slot);
    put_usages(text, node, slot);
    put_word(text, b" ");
    put_age(text, reading, contact_of(contacts, slot));
    put_word(text, b"\n");
}

/// Puts what a slot holds and may hold of each kind.
#[tactic(auto, unfolding(crate::specs::Questions::text_of_usages))]
fn put_usages(text: &mut Vec<u8>, node: &Node, slot: u16)
    requires slot { slot < length node.now.slots }
    requires room { vec_len text.old + 72 ≤ vec_capacity text.old }
    ensures items { text.new.items
        ≡ text.old.items ++ text_of_usages (slot_numbered node.now.slots slot) }
    ensures len { vec_len text.new ≤ vec_len text.old + 48 }
    ensures capacity { vec_capacity text.old ≤ vec_capacity text.new }
{
    put_usage(text, node, slot, Kind::Publisher);
    put_usage(text, node, slot, Kind::Subscription);
    put_usage(text, node, slot, Kind::Requester);
    put_usage(text, node, slot, Kind::Listener);
    put_usage(text, node, slot, Kind::Caller);
    put_usage(text, node, slot, Kind::Replier);
}

/// Puts how many objects of a kind a slot has, and how many it may have.
#[tactic(auto, unfolding(crate::specs::Questions::text_of_usage))]
fn put_usage(text: &mut Vec<u8>, node: &Node, slot: u16, kind: Kind)
    requires slot { slot < length node.now.slots }
    requires room { vec_len text.old + 32 ≤ vec_capacity text.old }
    ensures items { text.new.items
        ≡ text.old.items ++ text_of_usage (slot_numbered node.now.slots slot) kind }
    ensures len { vec_len text.new ≤ vec_len text.old + 8 }
    ensures capacity { vec_capacity text.old ≤ vec_capacity text.new }
{
    let (count, quota) = node.usage(slot, kind);
    put_word(text, b" ");
    put_small(text, count);
    put_word(text, b"/");
    put_small(text, quota);
}

/// Puts how long before a reading of the clock a slot had its latest line, or `-`.
#[tactic(auto, unfolding(crate::specs::Questions::text_of_age))]
fn put_age(text: &mut Vec<u8>, reading: u64, contact: Option<Contact>)
    requires room { vec_len text.old + NUMBER_LENGTH ≤ vec_capacity text.old }
    ensures items { text.new.items ≡ text.old.items ++ text_of_age reading contact }
    ensures len { vec_len text.new ≤ vec_len text.old + NUMBER_LENGTH }
    ensures capacity { vec_capacity text.old ≤ vec_capacity text.new }
{
    match contact {
        Some(contact) => put_number(text, reading.saturating_sub(contact.reading)),
        None => put_word(text, b"-"),
    }
}

/// Puts a word and a number.
fn put_count(text: &mut Vec<u8>, word: &[u8], number: u64)
    requires room { vec_len text.old + length word.now + NUMBER_LENGTH ≤ vec_capacity text.old }
    ensures items { text.new.items ≡ text.old.items ++ word.now ++ text_of_number number }
    ensures len { vec_len text.new ≤ vec_len text.old + length word.now + NUMBER_LENGTH }
    ensures capacity { vec_capacity text.old ≤ vec_capacity text.new }
{
    put_word(text, word);
    put_number(text, number);
}

/// Puts a number of at most three digits.
fn put_small(text: &mut Vec<u8>, number: u16)
    requires small { number ≤ 999 }
    requires room { vec_len text.old + NUMBER_LENGTH ≤ vec_capacity text.old }
    ensures items { text.new.items ≡ text.old.items ++ text_of_number number }
    ensures len { vec_len text.new ≤ vec_len text.old + 3 }
    ensures capacity { vec_capacity text.old ≤ vec_capacity text.new }
{
    put_number(text, u64::from(number));
}

/// Puts a number.
fn put_number(text: &mut Vec<u8>, number: u64)
    requires room { vec_len text.old + NUMBER_LENGTH ≤ vec_capacity text.old }
    ensures items { text.new.items ≡ text.old.items ++ text_of_number number }
    ensures len { vec_len text.new ≤ vec_len text.old + NUMBER_LENGTH }
    ensures capacity { vec_capacity text.old ≤ vec_capacity text.new }
{
    push_number(text, number).unwrap();
}

/// Puts a word.
fn put_word(text: &mut Vec<u8>, word: &[u8])
    requires room { vec_len text.old + length word.now ≤ vec_capacity text.old }
    ensures items { text.new.items ≡ text.old.items ++ word.now }
    ensures len { vec_len text.new ≡ vec_len text.old + length word.now }
    ensures capacity { vec_capacity text.old ≤ vec_capacity text.new }
{
    text.extend_from_slice(word).unwrap();
}
