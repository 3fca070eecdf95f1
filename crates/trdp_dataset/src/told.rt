//! The faults of a file in lines.

use crate::fault::ConfigFault;
use crate::find::find_all;
use crate::finding::Finding;
use crate::lines::Lines;
use crate::sentence::push_finding;
use std::alloc::{AllocError, Global};
use toml::Table;

/// A fault of a file that is reported.
#[derive(Drop)]
struct ReportedFault<'a> {
    /// The fault.
    finding: Finding<'a>,
    /// The line on which it is; None where it wasn't found.
    line: Option<usize>,
    /// Its rank among those that are reported: the least comes first.
    rank: usize,
}

/// Adds the faults of a file, a line each: the first one that is this fault, and the others in the
/// order of their lines.
///
/// # Errors
/// [`AllocError`] where there is no memory.
pub(crate) fn push_faults(
    alloc: Global,
    text: &mut String,
    file: &[u8],
    top: &Table,
    given: ConfigFault,
) -> Result<(), AllocError> {
    let found = find_all(alloc, top)?;
    let mut told = in_lines(alloc, file, &found, given)?;
    told.sort_by_key(|it| it.rank)?;
    for it in &told {
        push_finding(alloc, text, it.line, &it.finding)?;
    }
    Ok(())
}

/// The faults of a file with their lines, and the first one that is this fault before all.
///
/// # Errors
/// [`AllocError`] where there is no memory.
fn in_lines<'a>(
    alloc: Global,
    file: &[u8],
    found: &[Finding<'a>],
    given: ConfigFault,
) -> Result<Vec<ReportedFault<'a>>, AllocError> {
    let first = found.iter().position(|finding| finding.fault == given);
    let mut lines = Lines::new(alloc, file)?;
    let mut told = Vec::new(alloc);
    for (index, finding) in found.iter().enumerate() {
        let line = lines.line_of(finding.spot())?;
        let rank = if first == Some(index) {
            0
        } else {
            line.unwrap_or(usize::MAX)
        };
        told.push(ReportedFault {
            finding: *finding,
            line,
            rank,
        })?;
    }
    Ok(told)
}
