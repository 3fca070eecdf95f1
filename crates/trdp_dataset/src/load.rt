//! The registry of a file, once nothing in the file is wrong.

ghost use Rattle.std.specs.Prelude.{◌≡◌, ◌++◌, List, IfOk};
ghost use Rattle.toml.specs.View.{table_view};
ghost use Rattle.trdp_dataset.specs.Positions.{PositionModel, dataset_positions};
ghost use Rattle.trdp_dataset.specs.Seen.{positions_seen};
ghost use Rattle.trdp_dataset.specs.Faults.{before_datasets, fault_in, RefusedAs};
ghost use Rattle.trdp_dataset.specs.Configs.{datasets_in};

use crate::check::fit_together;
use crate::fault::ConfigFault;
use crate::fixed::fixed_datasets;
use crate::position::Position;
use crate::position_fault::least_fault;
use crate::read::datasets_in;
use crate::registry::Registry;
use std::alloc::Global;
use toml::Table;

/// The least fault of positions, where it comes before those of datasets: each one but TooMany
/// does.
fn before_datasets(least: Option<ConfigFault>) -> Option<ConfigFault>
    ensures value { result ≡ before_datasets least }
{
    match least {
        Some(ConfigFault::TooMany) => None,
        _ => least,
    }
}

/// The registry of a file, unless there is a fault at one of the positions or among the datasets.
pub(crate) fn load(
    alloc: Global,
    top: &Table,
    positions: &[Position<'_>],
) -> Result<Registry, ConfigFault>
    requires covers { (front : List PositionModel)
        × (positions_seen positions.now ≡ front ++ dataset_positions (table_view top.now)) }
    ensures value { IfOk result (λ registry. registry ≡ datasets_in (table_view top.now)) }
    ensures answers { RefusedAs
        (fault_in (positions_seen positions.now) (datasets_in (table_view top.now))) result }
{
    let least = least_fault(positions);
    match before_datasets(least) {
        Some(fault) => return Err(fault),
        None => {}
    }
    let datasets = datasets_in(alloc, top)?;
    let zero_sizes = fit_together(alloc, &datasets)?;
    let fixed = fixed_datasets(alloc, &datasets)?;
    match least {
        None => Ok(Registry::new(datasets, zero_sizes, fixed)),
        Some(fault) => Err(fault),
    }
}
