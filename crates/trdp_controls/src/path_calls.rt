//! One call at a path of a wire, of which there may be none.

ghost use Rattle.std.specs.Prelude.{◌≡◌, ◌<◌, ◌≤◌, ◌-◌, ◌^◌, length, IfOk, IfSome, OnErr, None};
ghost use Rattle.std.specs.Prelude.{◌&&◌, is_err, nat_lt, List, ℕ};
ghost use Rattle.std.specs.Option.{option_map};
ghost use Rattle.trdp_controls.specs.ControlWires.{SaysAtControl, SaysAtPath, TakesAtPath};
ghost use Rattle.trdp_controls.specs.ControlWires.{control_at, found_in, has_ended_at, found_place};
ghost use Rattle.trdp_wire.specs.Failures.{one_more_if};
ghost use Rattle.trdp_wire.specs.Told.{arrived_in, stands_for_end};

use crate::place::{number_of, place_of};
use trdp_base::Place;
use trdp_lines::{AcceptFault, Connections, ControlPath, LostText, OperatorPath, Path, Policy};
use trdp_wire::{Missing, SocketFault, WireFault, fail};

/// What a take that failed finds: nothing, and the failure is counted.
///
/// # Errors
/// `WireFault` if the count of failures rose.
#[tactic(auto, unfolding(trdp_wire::specs::Failures::one_more_if))]
pub(crate) fn nothing(failures: &mut u64) -> Result<Option<(Place, usize)>, WireFault>
    ensures found { IfOk result (λ found. found ≡ None) }
    ensures fails { is_err result ≡ nat_lt failures.old (2 ^ 64 - 1) }
    ensures fault { OnErr result (failures.old < failures.new) }
    ensures count { failures.new ≡ one_more_if (is_err result) failures.old }
{
    fail(failures).map(|()| None)
}

/// The answer of a take at a path to what the path does.
///
/// # Errors
/// `WireFault` if nothing is there, the system refuses the next connection, and the count of
/// failures rose.
#[tactic(auto, unfolding(trdp_wire::specs::Failures::one_more_if))]
fn answer_of(
    taken: Result<Option<(u64, usize)>, AcceptFault>,
    failures: &mut u64,
) -> Result<Option<(Place, usize)>, WireFault>
    ensures found { found_in result ≡ option_map found_place (found_in taken) }
    ensures fails { is_err result ≡ is_err taken && nat_lt failures.old (2 ^ 64 - 1) }
    ensures fault { OnErr result (failures.old < failures.new) }
    ensures count { failures.new ≡ one_more_if (is_err result) failures.old }
{
    match taken {
        Ok(Some((number, len))) => Ok(Some((place_of(number), len))),
        Ok(None) => Ok(None),
        Err(_) => nothing(failures),
    }
}

/// Takes the next line at a path, or the end of its application; if there is no path, nothing ever
/// comes. Also returns whether something was heard there.
#[tactic(auto, unfolding(trdp_wire::specs::Failures::one_more_if))]
pub(crate) fn take_line<C: Connections, P: Policy>(
    path: &mut Option<Path<C, P>>,
    room: &mut [u8],
    failures: &mut u64,
) -> (Result<Option<(Place, usize)>, WireFault>, bool)
    ensures within { IfOk result.0 (λ found. IfSome found (λ f. f.1 ≤ length room.new)) }
    ensures takes { TakesAtPath P.rule C.calls path.old path.new (length room.old) result.0
        result.1 room.new failures.old }
    ensures fault { OnErr result.0 (failures.old < failures.new) }
    ensures count { failures.new ≡ one_more_if (is_err result.0) failures.old }
{
    let Some(path) = path else {
        return (Ok(None), false);
    };
    let taken = path.take(room);
    let heard = path.has_heard();
    (answer_of(taken, failures), heard)
}

/// Why the system refused the latest connection at a path. It has no number if there is no path,
/// none was refused yet, or the error has none.
pub(crate) fn accept_fault<C: Connections, P: Policy>(path: &Option<Path<C, P>>) -> SocketFault {
    let code = path
        .as_ref()
        .and_then(|path| path.connections().accept_error());
    SocketFault { code }
}

/// Which files of the operator's path and of the slots' paths are gone.
pub(crate) fn missing_files<'a, C: Connections>(
    operator: &'a Option<OperatorPath<C>>,
    controls: &'a [Option<ControlPath<C>>],
) -> Missing<'a> {
    let mut missing = Missing::default();
    note_file(&mut missing, operator);
    for control in controls.iter() {
        note_file(&mut missing, control);
    }
    missing
}

/// Notes one more file, if there is a path and its file is gone.
fn note_file<'a, C: Connections, P: Policy>(
    missing: &mut Missing<'a>,
    path: &'a Option<Path<C, P>>,
) {
    let file = path
        .as_ref()
        .and_then(|path| path.connections().missing_file());
    if file.is_some() {
        missing.first = missing.first.or(file);
        missing.count = missing.count.saturating_add(1);
    }
}

/// Whether what a take found at the path of a slot is the end of its application.
pub(crate) fn is_end_at<C: Connections>(
    controls: &[Option<ControlPath<C>>],
    slot: usize,
    found: Result<Option<(Place, usize)>, WireFault>,
) -> bool
    ensures { (room : List ℕ) → result
        ≡ stands_for_end (has_ended_at (control_at controls.now slot)) (arrived_in found room) }
{
    matches!(found, Ok(Some((from, _))) if has_ended_at(controls, slot, from))
}

/// Whether the application of a slot that was at a place has ended: its connection has no seat any
/// more. False if there is no path.
fn has_ended_at<C: Connections>(
    controls: &[Option<ControlPath<C>>],
    slot: usize,
    place: Place,
) -> bool
    ensures { result ≡ has_ended_at (control_at controls.now slot) place }
{
    match controls.get(slot) {
        Some(Some(path)) => !path.speaks(number_of(place)),
        _ => false,
    }
}

/// Says a text at a slot's path to the connection of the place, if it has a seat there.
///
/// # Errors
/// `LostText` if there is no room for it.
pub(crate) fn give_text_at<C: Connections>(
    controls: &mut Vec<Option<ControlPath<C>>>,
    slot: usize,
    to: Place,
    text: &[u8],
) -> Result<(), LostText>
    ensures { SaysAtControl C.calls slot controls.old.items controls.new.items to text.now
        result }
{
    if slot >= controls.len() {
        return Ok(());
    }
    let control = &mut controls[slot];
    give_text(control, to, text)
}

/// Says a text at a path to the connection of the place, if it has a seat there.
///
/// # Errors
/// `LostText` if there is no room for it.
pub(crate) fn give_text<C: Connections, P: Policy>(
    path: &mut Option<Path<C, P>>,
    to: Place,
    text: &[u8],
) -> Result<(), LostText>
    ensures { SaysAtPath C.calls path.old path.new to text.now result }
{
    match path {
        Some(path) => path.give(number_of(to), text),
        None => Ok(()),
    }
}
