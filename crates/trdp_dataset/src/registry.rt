//! The datasets of a configuration.

use crate::datasets::Datasets;
use crate::element::Element;
use crate::fault::ConfigFault;
use crate::load::load;
use crate::parse::parse;
use crate::position::dataset_positions;
use std::alloc::Global;
use std::marker::Model;

/// The datasets of a configuration, in the order of the file. An identifier is 31 to
/// 4,294,967,295.
#[derive(Drop)]
pub struct Registry {
    /// The datasets in the order of the file, 0 to 256, no two with one identifier.
    datasets: Datasets,
    /// The length of each dataset's zero value in bytes, 0 to 65,388, in the same order.
    zero_sizes: Vec<u64>,
    /// Of each dataset in order, whether all its values have as many bytes as the zero value.
    fixed: Vec<bool>,
}

impl Model for Registry {
    ghost use Rattle.std.specs.Prelude.{◌≡◌, List};
    ghost use Rattle.trdp_dataset.specs.Datasets.{DatasetModel};
    ghost use Rattle.trdp_dataset.specs.Registries.{IsRegistry};
    ghost use Rattle.trdp_dataset.specs.Stored.{zero_sizes_of};
    ghost use Rattle.trdp_dataset.specs.FixedSizes.{fixed_row};

    ghost Value = { List DatasetModel };

    ghost view = { λ r. r.datasets };

    ghost invariant = { λ r. IsRegistry r.datasets
        × (r.zero_sizes.items ≡ zero_sizes_of r.datasets)
        × (r.fixed.items ≡ fixed_row r.datasets 5) };
}

impl Registry {
    ghost use Rattle.std.specs.Prelude.{◌≡◌, ◌==◌, ◌≤◌, length, option_map, option_and_then};
    ghost use Rattle.std.specs.Prelude.{is_some, slice_get, if◌then◌else◌, IfSome};
    ghost use Rattle.trdp_dataset.specs.Datasets.{elements_of, is_known};
    ghost use Rattle.trdp_dataset.specs.Limits.{value_limit};
    ghost use Rattle.trdp_dataset.specs.ZeroSizes.{zero_size};
    ghost use Rattle.trdp_dataset.specs.Registries.{IsRegistry};
    ghost use Rattle.trdp_dataset.specs.Stored.{zero_sizes_of};
    ghost use Rattle.trdp_dataset.specs.FixedSizes.{fixed_size, fixed_row};
    ghost use Rattle.trdp_dataset.specs.Configs.{ReadsToml, registry_of};

    /// The registry of a configuration file in TOML, which reads the key `dataset` alone. Without
    /// that key there is no dataset.
    ///
    /// # Errors
    /// The faults of [`ConfigFault`]; `Toml` is that of bytes that aren't UTF-8 or not TOML. Any
    /// file may give `OutOfMemory` in place of its own fault.
    pub fn from_toml(alloc: Global, bytes: &[u8]) -> Result<Self, ConfigFault>
        ensures reads { ReadsToml registry_of bytes.now result }
    {
        let top = parse(alloc, bytes)?;
        let positions = dataset_positions(alloc, &top)?;
        load(alloc, &top, &positions)
    }

    /// The registry of datasets that fit together, with the sizes of their zero values in order,
    /// and whether all values of each have one length.
    pub(crate) fn new(datasets: Datasets, zero_sizes: Vec<u64>, fixed: Vec<bool>) -> Self
        requires sound { IsRegistry datasets }
        requires sizes { zero_sizes.items ≡ zero_sizes_of datasets }
        requires fixed { fixed.items ≡ fixed_row datasets 5 }
        ensures value { result ≡ datasets }
    {
        Registry {
            datasets,
            zero_sizes,
            fixed,
        }
    }

    /// How many datasets there are.
    pub fn len(&self) -> usize
        ensures value { result ≡ length self.now }
    {
        self.datasets.len()
    }

    /// Whether there is no dataset.
    pub fn is_empty(&self) -> bool
        ensures value { result ≡ (length self.now == 0) }
    {
        self.len() == 0
    }

    /// The identifier of a dataset by its index in the file, from 0; None from `len()` on.
    pub fn id_at(&self, i: usize) -> Option<u32>
        ensures value { result ≡ option_map (λ d. d.id) (slice_get self.now i) }
    {
        match self.datasets.at(i) {
            Some((id, _)) => Some(id),
            None => None,
        }
    }

    /// The elements of a dataset in order; None where no dataset has that identifier.
    pub fn elements(&self, id: u32) -> Option<&[Element]>
        ensures value { option_map (λ es. es.now) result ≡ elements_of self.now id }
    {
        self.datasets.elements(id)
    }

    /// Whether a dataset has that identifier. None has identifier 0.
    pub fn has(&self, id: u32) -> bool
        ensures value { result ≡ is_known self.now id }
    {
        self.elements(id).is_some()
    }

    /// One element of a dataset by its index, from 0; None where there is none.
    pub fn element(&self, id: u32, i: usize) -> Option<Element>
        ensures value { result ≡ option_and_then (λ es. slice_get es i) (elements_of self.now id) }
    {
        match self.elements(id) {
            Some(elements) => elements.get(i).copied(),
            None => None,
        }
    }

    /// How many bytes the zero value of a dataset has, at most 65,388: every number in it is 0,
    /// and so each array of size 0 is empty. None where no dataset has that identifier.
    pub fn zero_size(&self, id: u32) -> Option<usize>
        ensures value { result
            ≡ (if is_known self.now id then Some (zero_size self.now id) else None) }
        ensures bound { IfSome result (λ n. n ≤ value_limit) }
    {
        match self.datasets.index_of(id) {
            Some(i) => Some(self.zero_sizes[i] as usize),
            None => None,
        }
    }

    /// How many bytes each value of a dataset has, at most 65,388: a dataset has values of one
    /// length where neither it nor those nested in it have an array of size 0. None of any other
    /// dataset, and where no dataset has that identifier.
    pub fn fixed_size(&self, id: u32) -> Option<usize>
        ensures value { result ≡ fixed_size self.now id }
        ensures bound { IfSome result (λ n. n ≤ value_limit) }
    {
        match self.datasets.index_of(id) {
            Some(i) => {
                if self.fixed[i] {
                    Some(self.zero_sizes[i] as usize)
                } else {
                    None
                }
            }
            None => None,
        }
    }

    /// What holds of every registry: a law for callers, which does nothing when it runs.
    pub fn sound(&self)
        ensures sound { IsRegistry self.now }
    {
        let _ = &self.datasets;
    }
}
