//! How deep datasets nest and how long their zero values are, where they are nested in others.

use crate::check::is_small;
use crate::datasets::Datasets;
use crate::depth::{all_pass, nestable};
use crate::element::Element;
use crate::size::{entries_size, nested_sizes};
use std::alloc::{AllocError, Global};
use std::marker::Model;

/// Datasets, and what counts where they are nested in others.
#[derive(Drop)]
pub(crate) struct Nested {
    /// The datasets.
    datasets: Datasets,
    /// Of each dataset in order, whether it may be nested in another one.
    nestable: Vec<bool>,
    /// The bytes of the zero value of each dataset in order, where it may be nested in another one.
    sizes: Vec<u64>,
}

impl Model for Nested {
    ghost use Rattle.std.specs.Prelude.{◌≡◌, List, length};
    ghost use Rattle.trdp_dataset.specs.Datasets.{DatasetModel};
    ghost use Rattle.trdp_dataset.specs.Stored.{within_row, size_row};

    ghost Value = { List DatasetModel };

    ghost view = { λ n. n.datasets };

    ghost invariant = { λ n. (length n.nestable.items ≡ length n.datasets)
        × (length n.sizes.items ≡ length n.datasets)
        × (n.nestable.items ≡ within_row n.datasets 4)
        × (n.sizes.items ≡ size_row n.datasets 4) };
}

impl Nested {
    ghost use Rattle.std.specs.Prelude.{◌≡◌, min, IfOk};
    ghost use Rattle.trdp_dataset.specs.Limits.{size_cap};
    ghost use Rattle.trdp_dataset.specs.ZeroSizes.{form_size, entries_size, dataset_size};
    ghost use Rattle.trdp_dataset.specs.Misfits.{is_shallow, is_short, is_big};

    /// The datasets, with how deep they nest and how long their zero values are.
    ///
    /// # Errors
    /// [`AllocError`] where there is no memory.
    pub(crate) fn new(alloc: Global, datasets: Datasets) -> Result<Self, AllocError>
        ensures value { IfOk result (λ nested. nested ≡ datasets) }
    {
        let nestable = nestable(alloc, &datasets)?;
        let sizes = nested_sizes(alloc, &datasets)?;
        Ok(Nested {
            datasets,
            nestable,
            sizes,
        })
    }

    /// Whether a dataset with these elements nests no deeper than it may.
    #[tactic(auto, unfolding(crate::specs::Misfits::is_shallow))]
    pub(crate) fn is_shallow(&self, elements: &[Element]) -> bool
        ensures value { result ≡ is_shallow self.now elements.now }
    {
        all_pass(&self.datasets, &self.nestable, elements)
    }

    /// How many bytes the zero value of a dataset with these elements has, at most 2^64 - 1.
    pub(crate) fn size(&self, elements: &[Element]) -> u64
        ensures value { result
            ≡ min (entries_size (form_size (dataset_size self.now 4)) elements.now) size_cap }
    {
        entries_size(&self.datasets, &self.sizes, elements)
    }

    /// Whether the zero value of a dataset with these elements is no longer than it may be.
    #[tactic(auto, unfolding(crate::specs::Misfits::is_short))]
    fn is_short(&self, elements: &[Element]) -> bool
        ensures value { result ≡ is_short self.now elements.now }
    {
        is_small(self.size(elements))
    }

    /// Whether the zero value of a dataset with these elements is too long, and it nests no deeper
    /// than it may.
    #[tactic(auto, unfolding(crate::specs::Misfits::is_big))]
    pub(crate) fn is_big(&self, elements: &[Element]) -> bool
        ensures value { result ≡ is_big self.now elements.now }
    {
        self.is_shallow(elements) && !self.is_short(elements)
    }
}
