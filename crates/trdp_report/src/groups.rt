//! Which groups of a node no link of this machine has joined.

use crate::address::shown;
use std::alloc::{AllocError, Global};
use std::fmt::Write;
use std::fs;
use std::fs::Files;
use trdp_base::Ip;
use trdp_dataset::NodeConfig;

/// Where Linux says which groups its links have joined.
const JOINED: &str = "/proc/net/igmp";

/// The number of digits of a group there.
const DIGITS: usize = 8;

/// A line for each group of a node that no link has joined, so that nothing comes from there; none
/// if the system doesn't report which are joined.
///
/// # Errors
/// `AllocError` if an allocation fails.
pub fn unjoined_groups<R: Files + AllocGlobal>(
    rt: &R,
    alloc: Global,
    config: &NodeConfig,
) -> Result<String, AllocError> {
    let mut text = String::new(alloc);
    if config.groups().is_empty() {
        return Ok(text);
    }
    let Ok(joined) = fs::read(rt, JOINED) else {
        return Ok(text);
    };
    for group in config.groups() {
        // It is there in hexadecimal, its bytes reversed.
        let digits = format!(in alloc; "{:08X}", group.swap_bytes())?;
        if !joined.windows(DIGITS).any(|word| word == digits.as_bytes()) {
            let group = shown(Ip(*group));
            writeln!(
                text,
                "warning: no link has joined the group {group}: nothing comes from there"
            )?;
        }
    }
    Ok(text)
}
