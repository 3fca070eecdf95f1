//! From bytes to a table.

ghost use Rattle.std.specs.Prelude.{◌≡◌};
ghost use Rattle.toml.specs.View.{table_view};
ghost use Rattle.trdp_dataset.specs.Configs.{Parses};

use crate::fault::ConfigFault;
use std::alloc::Global;
use toml::Table;

/// The table that the bytes of a file are.
pub(crate) fn parse(alloc: Global, bytes: &[u8]) -> Result<Table, ConfigFault>
    ensures { Parses bytes.now result }
{
    match toml::table_from_slice(alloc, bytes) {
        Ok(table) => Ok(table),
        Err(e) if e.is_memory() => Err(ConfigFault::OutOfMemory),
        Err(_) => Err(ConfigFault::Toml),
    }
}
