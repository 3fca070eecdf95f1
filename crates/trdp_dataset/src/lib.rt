//! The datasets of a train's telegrams and the configuration of a node, read from TOML.
//!
//! A [`NodeConfig`] is a whole configuration, a [`Registry`] its datasets by identifier, and an
//! [`Element`] one entry of a dataset. A file that can't be used has a [`ConfigFault`], some with
//! a [`Key`].
//!
//! ```text
//! let config = NodeConfig::from_toml(alloc, &bytes)?;
//! config.slots()                       // how many slots the file has
//! config.quotas(0)                     // those of its first slot
//! config.registry().elements(1001)     // the entries of dataset 1001, if there is one
//! ```
//!
//! For the file's author, [`fault_place`] lists all faults with their lines, [`unknown_keys`] the
//! keys that mean nothing, [`name_doubts`] the names, units and readings that can't be meant, and
//! [`telegram_doubts`] the telegrams that can't be.
//! `trdp_marshal` encodes values of a [`Registry`]; the program starts a node of a [`NodeConfig`].
//!
//! Proved: what a file means, and which fault it has, are functions of the table that its text is;
//! reading the table is up to `toml`. Every registry is sound ([`Registry::sound`]). Of the faults
//! that `fault_place` lists, the first of the lowest number is the one that the file has.
//!
//! Covered by tests alone: the sentence of a fault, the lines and the words of `fault_place`, and the
//! words of `unknown_keys`, `name_doubts` and `telegram_doubts`, which have no clauses.
#![tactic(auto)]

mod check;
mod client_key;
mod config;
mod datasets;
mod depth;
mod doubt;
mod element;
mod fault;
mod find;
mod finding;
mod fixed;
mod key;
mod lines;
mod load;
mod members;
mod misfit;
mod name;
mod nested;
mod parse;
mod place;
mod position;
mod position_fault;
mod read;
mod reading;
mod registry;
mod row;
mod sentence;
mod size;
mod telegram;
mod told;
mod unknown;
mod value;
mod wish;
mod words;

pub use config::NodeConfig;
pub use depth::DEPTH_MAX;
pub use element::{Element, ElementKind, Form, Width};
pub use fault::ConfigFault;
pub use key::Key;
pub use registry::Registry;
pub use words::{fault_place, name_doubts, telegram_doubts, unknown_keys};
