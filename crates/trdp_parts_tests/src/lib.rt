//! Worked examples of the crates below the node, with values from outside: texts, telegrams from
//! the standard's layout with zlib's CRC-32, datasets, values beside their bytes, and the calls of
//! objects, filters, tables, indexes and timers. What each of them does is proved in its own
//! crate. What a script can show of it is in the folder `rows` of the repository.
#![tactic(auto)]

#[cfg(test)]
mod base;
#[cfg(test)]
mod datasets;
#[cfg(test)]
mod fcs;
#[cfg(test)]
mod filter;
#[cfg(test)]
mod groups;
#[cfg(test)]
mod head;
#[cfg(test)]
mod index;
#[cfg(test)]
mod marshal;
#[cfg(test)]
mod md_head;
#[cfg(test)]
mod objects;
#[cfg(test)]
mod plain;
#[cfg(test)]
mod same;
#[cfg(test)]
mod table;
#[cfg(test)]
mod timers;
