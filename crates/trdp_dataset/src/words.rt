//! Reports for a file's author: what is wrong with it, which of its keys mean nothing, and which
//! of its names and telegrams can't be meant.

use crate::config::NodeConfig;
use crate::fault::ConfigFault;
use crate::name::push_names;
use crate::telegram::push_telegrams;
use crate::told::push_faults;
use crate::unknown::push_unknown;
use std::alloc::{AllocError, Global};
use std::fmt::Write;

/// What is wrong with a configuration (TOML): each of its faults in a line, with the line of the
/// file, the table and the key there, its value, and what is expected. The first one that is this
/// fault comes first, and then the others in the order of their lines. For a file that is no TOML
/// it says what is wrong, and in which line; for `OutOfMemory` it is empty.
///
/// The line of the file is that on which the statement begins, such as that of `element = [`. To
/// look for all of them takes a second or two at most: where a long file has thousands of faults,
/// those whose lines weren't found by then are at the end, and name none.
///
/// # Errors
/// [`AllocError`] where there is no memory.
pub fn fault_place(alloc: Global, config: &[u8], fault: ConfigFault) -> Result<String, AllocError> {
    let mut text = String::new(alloc);
    if fault == ConfigFault::OutOfMemory {
        return Ok(text);
    }
    match toml::table_from_slice(alloc, config) {
        Ok(top) => push_faults(alloc, &mut text, config, &top, fault)?,
        Err(error) if error.is_memory() => return Err(AllocError),
        Err(error) => write!(text, "{error}")?,
    }
    Ok(text)
}

/// Which keys of a configuration (TOML) mean nothing, in a line each; nothing where the file is no
/// TOML.
///
/// # Errors
/// [`AllocError`] where there is no memory.
pub fn unknown_keys(alloc: Global, config: &[u8]) -> Result<String, AllocError> {
    let mut text = String::new(alloc);
    match toml::table_from_slice(alloc, config) {
        Ok(top) => push_unknown(&mut text, &top)?,
        Err(error) if error.is_memory() => return Err(AllocError),
        Err(_) => {}
    }
    Ok(text)
}

/// Which names, units, scales, offsets and readings in a configuration (TOML) can't be meant, in a
/// line each, which says what is expected; nothing where the file is no TOML. The clients read these
/// of slots, datasets and elements, and the node ignores them.
///
/// # Errors
/// [`AllocError`] where there is no memory.
pub fn name_doubts(alloc: Global, config: &[u8]) -> Result<String, AllocError> {
    let mut text = String::new(alloc);
    match toml::table_from_slice(alloc, config) {
        Ok(top) => push_names(alloc, &mut text, config, &top)?,
        Err(error) if error.is_memory() => return Err(AllocError),
        Err(_) => {}
    }
    Ok(text)
}

/// Which telegrams of a configuration (TOML) can't be meant, in a line each: those whose dataset
/// isn't there or whose comId an earlier one has, and those with a name or a time that is none.
/// `taken` is what the file means.
///
/// # Errors
/// [`AllocError`] where there is no memory.
pub fn telegram_doubts(
    alloc: Global,
    config: &[u8],
    taken: &NodeConfig,
) -> Result<String, AllocError> {
    let mut text = String::new(alloc);
    match toml::table_from_slice(alloc, config) {
        Ok(top) => push_telegrams(alloc, &mut text, config, &top, taken.registry())?,
        Err(error) if error.is_memory() => return Err(AllocError),
        Err(_) => {}
    }
    Ok(text)
}
