//! Datasets by their identifiers, before it is known that they fit together.

use crate::element::Element;
use indexmap::IndexMap;
use std::alloc::{AllocError, Global};
use std::marker::Model;

/// Datasets in the order of the file, no two with one identifier.
#[derive(Drop)]
pub(crate) struct Datasets {
    /// The elements of each dataset in order, by its identifier.
    by_id: IndexMap<u32, Vec<Element>>,
}

impl Model for Datasets {
    ghost use Rattle.std.specs.Prelude.{List};
    ghost use Rattle.trdp_dataset.specs.Datasets.{DatasetModel};
    ghost use Rattle.trdp_dataset.specs.Stored.{datasets_of};

    ghost Value = { List DatasetModel };

    ghost view = { λ d. datasets_of d.by_id.entries };
}

impl Datasets {
    ghost use Rattle.std.specs.Prelude.{◌≡◌, ◌<◌, ◌++◌, [], ◌∷◌, false, true, length};
    ghost use Rattle.std.specs.Prelude.{is_some, option_map, slice_get, IfSome, IfOk, OnErr};
    ghost use Rattle.trdp_dataset.specs.Datasets.{elements_of, is_known};

    /// No dataset.
    pub(crate) fn new(alloc: Global) -> Self
        ensures empty { result ≡ [] }
    {
        Datasets {
            by_id: IndexMap::new(alloc),
        }
    }

    /// How many datasets there are.
    pub(crate) fn len(&self) -> usize
        ensures value { result ≡ length self.now }
    {
        self.by_id.len()
    }

    /// Adds a dataset at the end; false where its identifier is there already, which changes
    /// nothing.
    ///
    /// # Errors
    /// [`AllocError`] where there is no memory.
    pub(crate) fn push(&mut self, id: u32, elements: Vec<Element>) -> Result<bool, AllocError>
        ensures new { IfOk result (λ added. added ≡ true → (is_known self.old id ≡ false)
            × (self.new ≡ self.old ++ record { id = id; elements = elements.items } ∷ [])) }
        ensures twice { IfOk result (λ added. added ≡ false → (is_known self.old id ≡ true)
            × (self.new ≡ self.old)) }
    {
        if self.by_id.contains_key(&id) {
            return Ok(false);
        }
        self.by_id.insert(id, elements)?;
        Ok(true)
    }

    /// The identifier and the elements of a dataset by its index.
    pub(crate) fn at(&self, i: usize) -> Option<(u32, &[Element])>
        ensures value { option_map (λ d. record { id = d.0; elements = d.1.now }) result
            ≡ slice_get self.now i }
    {
        match self.by_id.get_index(i) {
            Some((id, elements)) => Some((*id, elements.as_slice())),
            None => None,
        }
    }

    /// The identifier of a dataset by its index.
    pub(crate) fn id_at(&self, i: usize) -> u32
        requires { i < length self.now }
        ensures value { option_map (λ d. d.id) (slice_get self.now i) ≡ Some result }
    {
        let (id, _) = self.at(i).unwrap();
        id
    }

    /// The elements of a dataset by its index.
    pub(crate) fn elements_at(&self, i: usize) -> &[Element]
        requires { i < length self.now }
        ensures value { option_map (λ d. d.elements) (slice_get self.now i) ≡ Some result.now }
    {
        let (_, elements) = self.at(i).unwrap();
        elements
    }

    /// The elements of the dataset of that identifier.
    pub(crate) fn elements(&self, id: u32) -> Option<&[Element]>
        ensures value { option_map (λ es. es.now) result ≡ elements_of self.now id }
    {
        match self.by_id.get(&id) {
            Some(elements) => Some(elements.as_slice()),
            None => None,
        }
    }

    /// Whether a dataset has that identifier.
    pub(crate) fn has(&self, id: u32) -> bool
        ensures value { result ≡ is_known self.now id }
    {
        self.index_of(id).is_some()
    }

    /// The index of the dataset of that identifier.
    pub(crate) fn index_of(&self, id: u32) -> Option<usize>
        ensures found { is_some result ≡ is_known self.now id }
        ensures index { IfSome result (λ i.
            option_map (λ d. d.id) (slice_get self.now i) ≡ Some id) }
        ensures within { IfSome result (λ i. i < length self.now) }
    {
        self.by_id.get_index_of(&id)
    }
}
