//! The words about a configuration that is accepted.

use crate::setup::Setup;
use std::alloc::{AllocError, Global};
use trdp_dataset::{NodeConfig, name_doubts, telegram_doubts, unknown_keys};

/// What a configuration means, and what its author may not have meant, in lines. `file` has its
/// bytes (TOML); the ports for lines are files of a folder, if there is one.
///
/// # Errors
/// `AllocError` if an allocation fails.
pub fn report(
    alloc: Global,
    file: &[u8],
    config: &NodeConfig,
    folder: Option<&str>,
) -> Result<String, AllocError> {
    let setup = Setup { config, folder };
    let mut text = String::new(alloc);
    setup.push_meaning(&mut text)?;
    text.push_str(&unknown_keys(alloc, file)?)?;
    text.push_str(&name_doubts(alloc, file)?)?;
    text.push_str(&telegram_doubts(alloc, file, config)?)?;
    setup.push_warnings(&mut text, alloc)?;
    Ok(text)
}
