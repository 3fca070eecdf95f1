//! The node for programs in C: a static library without a socket, clock, thread or global.
//!
//! `clients/c/trdp_node.h` declares what is here, checks pointers, and says how to call it. A node
//! lies behind a pointer that [`trdp_node_raw_open`] writes and [`trdp_node_raw_close`] takes back.
//! Meanwhile C hands in one event at a time, in numbers ([`trdp_node_raw_step`]) or as a line of a
//! script ([`trdp_node_raw_line`]), and gets its records in numbers ([`trdp_node_raw_record`]) or
//! as text ([`trdp_node_raw_text`]). Three functions give names, and three tell a test what the
//! library takes for the layout of the header's structs.
//!
//! **Proved**, of the opening: the pointer that it writes is that of a node which was just opened
//! with the configuration, and which C now owns. If the configuration has a fault, the pointer is
//! null, and number and text are those of the fault.
//!
//! **Proved**, of each export that takes a node's pointer: whatever C hands in, it is safe, and
//! afterwards a node lies at the pointer again, of which the contract says what became of it
//! (`specs/Outcomes`). An event is the one that its numbers mean (`specs/EventOf`), the node is the
//! one after it, and each slot gets what it would get alone. A line gives the text of the model.
//! The numbers of a record say that record (`specs/RecordOf`), in the order of the text. The state
//! changes nothing. An event whose status is `OUT_OF_MEMORY` has changed nothing. With `TEXT_LOST`
//! the event was processed, and its records are there.
//!
//! **Proved**, of the others: that the names are those of the script.
//!
//! **Tested**, in `clients/c`: that the header has the structs and numbers of the library, and that
//! both ways to hand in an event do what `trdpd run` does.
//!
//! **Trusted**: that C hands in the pointer that [`trdp_node_raw_open`] wrote, until it closes the
//! node, from one thread at a time; that its other pointers are good, are no part of the node, and
//! are what their types say; the inline functions of the header; that the three functions which C
//! gives for memory are an allocator; and the compiler. That the address in a record is that of its
//! bytes is seen by reading `put` in `record.rt`.
#![tactic(auto)]

mod cursor;
mod event;
mod event_numbers;
mod held;
mod latest;
mod layout;
mod names;
mod numbers;
mod owned;
mod record;
mod record_numbers;
mod results;
mod start;

ghost use Rattle.std.specs.Prelude.{◌≡◌, ◌≢◌, [], Option};
ghost use Rattle.std.specs.Borrow.{sem};
ghost use Rattle.std_alloc.specs.Box.Ownership.{box_owns};
ghost use Rattle.std.specs.contracts.impls.GlobalAllocator.TheImpl.{ghosts};
ghost use Rattle.trdp_node.specs.contracts.held.HeldNode.{the_row as held_row};
ghost use Rattle.trdp_model.specs.declared.fault.NodeFault.{NodeFault};
ghost use Rattle.trdp_model.specs.declared.fault.Refusal.{Refusal};
ghost use Rattle.trdp_pd.specs.declared.object.Reason.{Reason};
ghost use Rattle.trdp_text.specs.RecordText.{name_of_fault, name_of_reason, name_of_refusal};
ghost use Rattle.trdp_node.specs.Codes.{reason_code, refusal_code, status_of_fault};
ghost use Rattle.trdp_node.specs.Openings.{TellsOpening, filled};
ghost use Rattle.trdp_node.specs.Owning.{owns_if};
ghost use Rattle.trdp_node.specs.Outcomes.{Prints, ShowsRecord, Steps, TakesInLine, TellsState};

use crate::held::HeldNode;
use crate::owned::{Owned, OwnedOrNull};
pub use event::EventNumbers;
pub use record::RecordNumbers;
pub use results::{Done, Fault, Name, State, Text};
use std::alloc::Global;

/// Opens a node with the configuration of a file in TOML, and writes where it lies; or writes null
/// and the fault of the configuration.
#[unsafe(no_mangle)]
pub extern "C" fn trdp_node_raw_open(
    alloc: Global,
    config: &[u8],
    at: &mut *mut u8,
    fault: &mut Fault,
)
    ensures* { ∃ₛ (λ (held : Option HeldNode). sem 𝓛
        (owns_if (ghosts.dealloc_token alloc) held_row at.new held)
        ∗ ⌜ TellsOpening config.now fault.new at.new held ⌝) }
{
    let OwnedOrNull {
        at: place,
        alloc: _,
    } = open(alloc, config, fault);
    put_pointer(at, place as *mut u8);
}

/// Opens a node, or writes why there is none.
fn open(alloc: Global, config: &[u8], fault: &mut Fault) -> OwnedOrNull<HeldNode, Global>
    ensures { TellsOpening config.now fault.new result.at result.value }
{
    match HeldNode::open(alloc, config) {
        Ok(held) => {
            fault.put_none();
            OwnedOrNull::of(held)
        }
        Err(why) => {
            fault.put(why);
            OwnedOrNull::none(alloc)
        }
    }
}

/// Writes a pointer.
fn put_pointer(at: &mut *mut u8, pointer: *mut u8)
    ensures { at.new ≡ pointer }
{
    *at = pointer;
}

/// Frees a node.
#[unsafe(no_mangle)]
pub unsafe extern "C" fn trdp_node_raw_close(alloc: Global, at: *mut u8)
    ghost held: { HeldNode }
    requires* { sem 𝓛 (box_owns (ghosts.dealloc_token alloc) held_row at held) }
{
    close(Owned {
        at: at as *mut HeldNode,
        alloc,
    });
}

/// Drops the node.
fn close(held: Owned<HeldNode, Global>) {
    drop(held.into_box());
}

/// Lets the node process the event of these numbers, with its bytes.
#[unsafe(no_mangle)]
pub unsafe extern "C" fn trdp_node_raw_step(
    alloc: Global,
    at: *mut u8,
    event: &EventNumbers,
    bytes: &[u8],
    done: &mut Done,
)
    ghost held: { HeldNode }
    requires* { sem 𝓛 (box_owns (ghosts.dealloc_token alloc) held_row at held) }
    ensures* { ∃ₛ (λ (after : HeldNode). sem 𝓛
        (box_owns (ghosts.dealloc_token alloc) held_row at after)
        ∗ ⌜ Steps held after event.now bytes.now done.new ⌝) }
{
    let held = &mut *(at as *mut HeldNode);
    step(held, event, bytes, done);
}

/// Lets the node process an event.
fn step(held: &mut HeldNode, event: &EventNumbers, bytes: &[u8], done: &mut Done)
    ensures { Steps held.old held.new event.now bytes.now done.new }
{
    held.step(event, bytes, done);
}

/// Writes the record of that index, from 0, of the latest event.
#[unsafe(no_mangle)]
pub unsafe extern "C" fn trdp_node_raw_record(
    alloc: Global,
    at: *mut u8,
    index: usize,
    numbers: &mut RecordNumbers,
)
    ghost held: { HeldNode }
    requires* { sem 𝓛 (box_owns (ghosts.dealloc_token alloc) held_row at held) }
    ensures* { ∃ₛ (λ (after : HeldNode). sem 𝓛
        (box_owns (ghosts.dealloc_token alloc) held_row at after)
        ∗ ⌜ ShowsRecord held after index numbers.new ⌝) }
{
    let held = &mut *(at as *mut HeldNode);
    show(held, index, numbers);
}

/// Writes a record.
fn show(held: &mut HeldNode, index: usize, numbers: &mut RecordNumbers)
    ensures { ShowsRecord held.old held.new index numbers.new }
{
    held.record(index, numbers);
}

/// Lets the node process the event of a line of a script, and prints its records.
#[unsafe(no_mangle)]
pub unsafe extern "C" fn trdp_node_raw_line(
    alloc: Global,
    at: *mut u8,
    line: &[u8],
    text: &mut Text,
)
    ghost held: { HeldNode }
    requires* { sem 𝓛 (box_owns (ghosts.dealloc_token alloc) held_row at held) }
    ensures* { ∃ₛ (λ (after : HeldNode). sem 𝓛
        (box_owns (ghosts.dealloc_token alloc) held_row at after)
        ∗ ⌜ TakesInLine held after line.now text.new ⌝) }
{
    let held = &mut *(at as *mut HeldNode);
    take_line(held, line, text);
}

/// Lets the node process the event of a line.
fn take_line(held: &mut HeldNode, line: &[u8], text: &mut Text)
    ensures { TakesInLine held.old held.new line.now text.new }
{
    held.line(line, text);
}

/// Prints the records of the latest event.
#[unsafe(no_mangle)]
pub unsafe extern "C" fn trdp_node_raw_text(alloc: Global, at: *mut u8, text: &mut Text)
    ghost held: { HeldNode }
    requires* { sem 𝓛 (box_owns (ghosts.dealloc_token alloc) held_row at held) }
    ensures* { ∃ₛ (λ (after : HeldNode). sem 𝓛
        (box_owns (ghosts.dealloc_token alloc) held_row at after)
        ∗ ⌜ Prints held after text.new ⌝) }
{
    let held = &mut *(at as *mut HeldNode);
    print(held, text);
}

/// Prints the records.
fn print(held: &mut HeldNode, text: &mut Text)
    ensures { Prints held.old held.new text.new }
{
    held.print(text);
}

/// Tells the node's latest moment, when something is due next, and how many slots it has.
#[unsafe(no_mangle)]
pub unsafe extern "C" fn trdp_node_raw_state(alloc: Global, at: *mut u8, state: &mut State)
    ghost held: { HeldNode }
    requires* { sem 𝓛 (box_owns (ghosts.dealloc_token alloc) held_row at held) }
    ensures* { ∃ₛ (λ (after : HeldNode). sem 𝓛
        (box_owns (ghosts.dealloc_token alloc) held_row at after)
        ∗ ⌜ TellsState held after state.new ⌝) }
{
    let held = &mut *(at as *mut HeldNode);
    look(held, state);
}

/// Tells of the node.
fn look(held: &mut HeldNode, state: &mut State)
    ensures { TellsState held.old held.new state.new }
{
    held.state(state);
}

/// Writes the name of a refusal; returns the status.
#[unsafe(no_mangle)]
pub extern "C" fn trdp_node_raw_refusal_name(number: u32, name: &mut Name) -> u32
    ensures found { (it : Refusal) → number ≡ refusal_code it
        → (name.new.text ≡ filled 16 (name_of_refusal it)) × (result ≡ 0) }
    ensures none { ((it : Refusal) → number ≢ refusal_code it)
        → (name.new.text ≡ filled 16 []) × (result ≡ 25) }
{
    names::put_refusal_name(number, name)
}

/// Writes the name of a node's fault; returns the status.
#[unsafe(no_mangle)]
pub extern "C" fn trdp_node_raw_fault_name(number: u32, name: &mut Name) -> u32
    ensures found { (it : NodeFault) → number ≡ status_of_fault it
        → (name.new.text ≡ filled 16 (name_of_fault it)) × (result ≡ 0) }
    ensures none { ((it : NodeFault) → number ≢ status_of_fault it)
        → (name.new.text ≡ filled 16 []) × (result ≡ 25) }
{
    names::put_fault_name(number, name)
}

/// Writes the name of a reason; returns the status.
#[unsafe(no_mangle)]
pub extern "C" fn trdp_node_raw_reason_name(number: u32, name: &mut Name) -> u32
    ensures found { (it : Reason) → number ≡ reason_code it
        → (name.new.text ≡ filled 16 (name_of_reason it)) × (result ≡ 0) }
    ensures none { ((it : Reason) → number ≢ reason_code it)
        → (name.new.text ≡ filled 16 []) × (result ≡ 25) }
{
    names::put_reason_name(number, name)
}

/// The size or number of that index, for a test of the header; 2^64 - 1 past the last.
#[unsafe(no_mangle)]
pub extern "C" fn trdp_node_layout(index: usize) -> u64 {
    layout::number_at(index)
}

/// The field of that index of an event, for a test of the header; 2^64 - 1 past the last.
#[unsafe(no_mangle)]
pub extern "C" fn trdp_node_layout_event(event: &EventNumbers, field: usize) -> u64 {
    layout::field_at(event, field)
}

/// Numbers the fields of what C gets, for a test of the header.
#[unsafe(no_mangle)]
pub extern "C" fn trdp_node_layout_results(
    record: &mut RecordNumbers,
    done: &mut Done,
    text: &mut Text,
    state: &mut State,
    fault: &mut Fault,
    name: &mut Name,
) {
    layout::number_fields(record, done, text, state, fault, name);
}
