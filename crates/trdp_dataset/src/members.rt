//! The faults of arrays of numbers and of addresses, member by member.

ghost use Rattle.std.specs.Prelude.{◌≡◌, ◌≤◌, ◌++◌, [], take, length, map, option_map, OnOk};
ghost use Rattle.std.specs.Prelude.{not, if◌then◌else◌};
ghost use Rattle.std.specs.List.{list_any};
ghost use Rattle.toml.specs.View.{view};
ghost use Rattle.trdp_dataset.specs.Keys.{wanted_by};
ghost use Rattle.trdp_dataset.specs.declared.fault.ConfigFault.TheVariants.{WrongType};
ghost use Rattle.trdp_dataset.specs.Values.{gives};
ghost use Rattle.trdp_dataset.specs.Findings.{faults_of, most_members, array_in, member_wanted};
ghost use Rattle.trdp_dataset.specs.Findings.{listed_unless, unwanted, members_faults};

use crate::fault::ConfigFault;
use crate::finding::{Cause, Finding};
use crate::key::{Key, Wanted};
use crate::place::FileTable;
use crate::value::{address_within, any_gives, items};
use std::alloc::AllocError;
use toml::Value;

/// The most members of the array that a key needs, if they are numbers or addresses.
pub(crate) fn most_members(key: Key) -> Option<u16>
    ensures value { result ≡ most_members (wanted_by key) }
{
    match key.wanted() {
        Wanted::Numbers(most, ..) | Wanted::Addresses(most, ..) => Some(most),
        _ => None,
    }
}

/// The members of what was found at a key, if it is an array.
pub(crate) fn array_in(found: Option<&Value>) -> Option<&[Value]>
    ensures value { option_map (λ vs. map view vs.now) result
        ≡ array_in (option_map (λ v. view v.now) found.entry) }
{
    match found {
        Some(value) if value.is_array() => Some(items(value)),
        _ => None,
    }
}

/// Adds the faults of an array of numbers or of addresses, of which at most `most` are allowed.
///
/// # Errors
/// [`AllocError`] where there is no memory.
#[tactic(auto, unfolding(crate::specs::Findings::members_faults))]
pub(crate) fn push_members<'a>(
    found: &mut Vec<Finding<'a>>,
    place: FileTable,
    key: Key,
    most: u16,
    members: &'a [Value],
) -> Result<(), AllocError>
    ensures faults { OnOk result (faults_of found.new.items
        ≡ faults_of found.old.items ++ members_faults key most (map view members.now)) }
{
    let are_few = members.len() <= usize::from(most);
    push_unwanted(found, place, key, are_few, members)?;
    if !are_few {
        found.push(Finding {
            fault: ConfigFault::TooMany,
            place,
            cause: Cause::TooMany(key, members.len(), most),
        })?;
    }
    Ok(())
}

/// Adds each member that isn't what the key needs.
///
/// # Errors
/// [`AllocError`] where there is no memory.
fn push_unwanted<'a>(
    found: &mut Vec<Finding<'a>>,
    place: FileTable,
    key: Key,
    are_few: bool,
    members: &'a [Value],
) -> Result<(), AllocError>
    ensures faults { OnOk result (faults_of found.new.items
        ≡ faults_of found.old.items ++ unwanted key are_few [] (map view members.now)) }
{
    for (index, member) in members.iter().enumerate() {
        let before = compared_with(members, index, are_few);
        push_if_unwanted(found, place, key, before, index, member)?;
    }
    Ok(())
}

/// The members that one is compared with: those before it. Where there are too many, none is looked
/// for among those.
fn compared_with(members: &[Value], index: usize, are_few: bool) -> &[Value]
    requires { index ≤ length members.now }
    ensures value { map view result.now
        ≡ (if are_few then map view (take index members.now) else []) }
{
    if are_few {
        let (before, _) = members.split_at(index);
        before
    } else {
        &[]
    }
}

/// Adds a member, if it isn't what the key needs.
///
/// # Errors
/// [`AllocError`] where there is no memory.
fn push_if_unwanted<'a>(
    found: &mut Vec<Finding<'a>>,
    place: FileTable,
    key: Key,
    before: &[Value],
    index: usize,
    member: &'a Value,
) -> Result<(), AllocError>
    ensures faults { OnOk result (faults_of found.new.items ≡ faults_of found.old.items
        ++ listed_unless
        (member_wanted (wanted_by key) (map view before.now) (view member.now)) (WrongType key)) }
{
    if !is_wanted(key, before, member) {
        found.push(Finding {
            fault: ConfigFault::WrongType(key),
            place,
            cause: Cause::UnwantedMember(key, index, member),
        })?;
    }
    Ok(())
}

/// Whether a member of an array is what the key needs. An address is that only once: where it is
/// among the members before, it isn't.
fn is_wanted(key: Key, before: &[Value], member: &Value) -> bool
    ensures value { result
        ≡ member_wanted (wanted_by key) (map view before.now) (view member.now) }
{
    let wanted = key.wanted();
    match wanted {
        Wanted::Numbers(..) => wanted.member(member).is_some(),
        Wanted::Addresses(_, least, greatest) => match address_within(member, least, greatest) {
            Some(address) => is_new(before, least, greatest, address),
            None => false,
        },
        _ => false,
    }
}

/// Whether none of the members is the text of that address, of those in the range, ends included.
fn is_new(members: &[Value], least: u32, greatest: u32, address: u32) -> bool
    ensures value { result
        ≡ not (list_any (gives least greatest address) (map view members.now)) }
{
    !any_gives(members, least, greatest, address)
}
