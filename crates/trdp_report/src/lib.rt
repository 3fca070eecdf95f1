//! What there is to say of a configuration, in words: what it means, what its author may not have
//! meant, what is wrong with it, and which of its ports the system refuses.
//!
//! ```text
//! let text = report(alloc, config, &taken, None)?;        // node 10.0.0.1: process data at ..
//! let text = fault_place(alloc, config, fault)?;          // line 4, node: pd_port = 0: a ..
//! let text = unjoined_groups(rt, alloc, &taken)?;         // warning: no link has joined ..
//! let text = refused_ports(rt, alloc, &taken, None)?;     // port 10.0.0.1:17224: ..
//! ```
//!
//! Each returns lines, or none if there is nothing to say. `trdp_program` writes them for a check
//! and for a daemon.
//!
//! The words are **tested**, not proved: no function has clauses, so a text that is left out
//! breaks none. Tests show which words come, and at which place of the file.
#![tactic(auto)]

mod address;
mod groups;
mod held;
mod meaning;
mod ports;
mod refused;
mod setup;
mod warnings;
mod words;

pub use groups::unjoined_groups;
pub use refused::refused_ports;
pub use words::report;

// What is wrong with it, so that a program needs only this crate.
pub use trdp_dataset::fault_place;
