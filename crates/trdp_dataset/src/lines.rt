//! The lines of a file on which its statements begin.
//!
//! What `toml` reads has no lines. So the file is read in parts. A statement ends with the first
//! line up to which it is TOML by itself. The one that adds something is the last one of the
//! shortest front of the file that has it.

use crate::place::FileTable;
use crate::value::items;
use std::alloc::{AllocError, Global};
use toml::Table;

/// How many bytes are read for the ends of the statements, and how many to find what they add: at
/// most a second's worth of each.
const READ_MAX: usize = 24 << 20;

/// Something in a file that a statement adds.
#[derive(Clone, Copy)]
pub(crate) struct Spot {
    /// The table.
    pub(crate) place: FileTable,
    /// The key of the table; None where it is the table itself.
    pub(crate) key: Option<&'static str>,
    /// How many members the array at the key has then, at least.
    pub(crate) members: usize,
}

impl Spot {
    /// Whether it is in the first lines of a file.
    fn is_in(self, top: &Table) -> bool {
        match (self.place.table_in(top), self.key) {
            (Some(table), Some(key)) => match table.get(key) {
                Some(value) => items(value).len() >= self.members,
                None => false,
            },
            (Some(_), None) => true,
            (None, _) => false,
        }
    }
}

/// A statement of a file, an empty one too.
#[derive(Clone, Copy)]
struct Statement {
    /// The line on which it begins, from 1.
    line: usize,
    /// How many bytes the file has up to its end.
    end: usize,
}

/// A front of a file.
#[derive(Drop)]
struct Front {
    /// The index of its last statement.
    index: usize,
    /// What it has.
    top: Table,
}

/// The lines of a file, and how much of it may be read for more of them.
#[derive(Drop)]
pub(crate) struct Lines<'a> {
    /// The allocator of the statements.
    alloc: Global,
    /// The file.
    file: &'a [u8],
    /// Its statements in order, as far as they were found.
    statements: Vec<Statement>,
    /// The index of the statement that was found last; what is asked for next is mostly near it.
    last: usize,
    /// The last front without what was sought, so that it needn't be read again; None where there
    /// was none.
    lacking: Option<Front>,
    /// The last front that had what was sought; None where there was none.
    having: Option<Front>,
    /// How many bytes may still be read.
    left: usize,
}

impl<'a> Lines<'a> {
    /// The lines of a file that is TOML.
    ///
    /// # Errors
    /// [`AllocError`] where there is no memory.
    pub(crate) fn new(alloc: Global, file: &'a [u8]) -> Result<Self, AllocError> {
        let mut lines = Lines {
            alloc,
            file,
            statements: Vec::new(alloc),
            last: 0,
            lacking: None,
            having: None,
            left: READ_MAX,
        };
        lines.find_statements()?;
        lines.left = READ_MAX;
        Ok(lines)
    }

    /// The line, from 1, on which the statement begins that adds something; None where the file
    /// doesn't have it, or where too much would have to be read to find it.
    ///
    /// # Errors
    /// [`AllocError`] where there is no memory.
    pub(crate) fn line_of(&mut self, spot: Spot) -> Result<Option<usize>, AllocError> {
        if let (FileTable::Root, None) = (spot.place, spot.key) {
            return Ok(Some(1));
        }
        let (low, high) = self.bounds(spot)?;
        let index = self.first_with(spot, low, high)?;
        if self.left == 0 {
            return Ok(None);
        }
        self.last = index;
        Ok(self.statements.get(index).map(|it| it.line))
    }

    /// Finds the statements: each ends with the first line up to which it is TOML by itself.
    ///
    /// # Errors
    /// [`AllocError`] where there is no memory.
    fn find_statements(&mut self) -> Result<(), AllocError> {
        let mut begin = 0usize;
        let mut line = 1usize;
        for (index, end) in line_ends(self.alloc, self.file)?.into_iter().enumerate() {
            if self.may_end(end) && self.read(begin, end)?.is_some() {
                self.statements.push(Statement { line, end })?;
                begin = end;
                line = index.saturating_add(2);
            }
        }
        Ok(())
    }

    /// Whether a statement may end before the line that begins after `end` bytes. No statement
    /// begins as the lines within an array of tables do, which saves most of the reads in vain.
    fn may_end(&self, end: usize) -> bool {
        let behind = self.file.get(end..).unwrap_or(&[]);
        let first = behind.iter().find(|byte| !matches!(**byte, b' ' | b'\t'));
        !matches!(first, Some(b'{' | b'}' | b']' | b','))
    }

    /// Two statements, by their indexes: the first that is known to add something, or the number
    /// of all, and the first that may. They are sought from the last one on.
    ///
    /// # Errors
    /// [`AllocError`] where there is no memory.
    fn bounds(&mut self, spot: Spot) -> Result<(usize, usize), AllocError> {
        let before = self.last.saturating_sub(1);
        if self.last > 0 && self.has(before, spot)? {
            return Ok((0, before));
        }
        let mut low = self.last;
        let mut step = 1usize;
        for _doubling in 0..64u8 {
            let probe = low.saturating_add(step.saturating_sub(1));
            if probe >= self.statements.len() {
                break;
            }
            if self.has(probe, spot)? {
                return Ok((low, probe));
            }
            low = probe.saturating_add(1);
            step = step.saturating_mul(2);
        }
        Ok((low, self.statements.len()))
    }

    /// The index of the first statement that adds something, from `low` to `high`.
    ///
    /// # Errors
    /// [`AllocError`] where there is no memory.
    fn first_with(&mut self, spot: Spot, low: usize, high: usize) -> Result<usize, AllocError> {
        let mut low = low;
        let mut high = high;
        for _halving in 0..64u8 {
            if low >= high {
                break;
            }
            let middle = low.saturating_add(high.saturating_sub(low) / 2);
            if self.has(middle, spot)? {
                high = middle;
            } else {
                low = middle.saturating_add(1);
            }
        }
        Ok(high)
    }

    /// Whether something is there at the end of a statement.
    ///
    /// # Errors
    /// [`AllocError`] where there is no memory.
    fn has(&mut self, index: usize, spot: Spot) -> Result<bool, AllocError> {
        for front in [&self.lacking, &self.having] {
            if let Some(front) = front {
                if front.index == index {
                    return Ok(spot.is_in(&front.top));
                }
            }
        }
        let end = self.statements.get(index).map_or(0, |it| it.end);
        let Some(top) = self.read(0, end)? else {
            return Ok(false);
        };
        let is_there = spot.is_in(&top);
        if is_there {
            self.having = Some(Front { index, top });
        } else {
            self.lacking = Some(Front { index, top });
        }
        Ok(is_there)
    }

    /// Reads some bytes of the file; None where they are no TOML, or may not be read any more.
    ///
    /// # Errors
    /// [`AllocError`] where there is no memory.
    fn read(&mut self, begin: usize, end: usize) -> Result<Option<Table>, AllocError> {
        let Some(bytes) = self.file.get(begin..end) else {
            return Ok(None);
        };
        self.left = self.left.saturating_sub(bytes.len());
        if self.left == 0 {
            return Ok(None);
        }
        match toml::table_from_slice(self.alloc, bytes) {
            Ok(top) => Ok(Some(top)),
            Err(error) if error.is_memory() => Err(AllocError),
            Err(_) => Ok(None),
        }
    }
}

/// How many bytes a file has up to the end of each line.
///
/// # Errors
/// [`AllocError`] where there is no memory.
fn line_ends(alloc: Global, file: &[u8]) -> Result<Vec<usize>, AllocError> {
    let mut ends = Vec::new(alloc);
    let mut end = 0usize;
    for line in file.split_inclusive(|byte| *byte == b'\n') {
        end = end.saturating_add(line.len());
        ends.push(end)?;
    }
    Ok(ends)
}
