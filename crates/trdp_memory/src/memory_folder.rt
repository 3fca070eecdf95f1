//! A folder in memory, for tests.

ghost use Rattle.std.specs.Prelude.{◌≡◌, ◌++◌, ◌∷◌, [], map, IfOk, IfSome, OnErr, OnOk, Some};
ghost use Rattle.std.specs.List.{position};
ghost use Rattle.std.specs.Option.{option_map};
ghost use Rattle.trdp_base.specs.Reported.{TellsMore};
ghost use Rattle.trdp_controls.specs.Folders.{ListensAt};
ghost use Rattle.trdp_controls.specs.Paths.{path_of};
ghost use Rattle.trdp_memory.specs.MemoryConnections.{no_connections};
ghost use Rattle.trdp_memory.specs.MemoryFolders.{file_fault, is_file_of, listening_of};
ghost use Rattle.trdp_memory.specs.MemoryFolders.{memory_file, told_listenings};
ghost use Rattle.trdp_memory.specs.MemoryWires.{told};
ghost use Rattle.trdp_wire.specs.Sockets.{fault_of_result};

use crate::memory_connections::MemoryConnections;
use mio::Registry;
use std::alloc::{AllocError, Global};
use trdp_controls::{Folder, ListenFault};

/// One listening of a folder in memory.
#[derive(Clone, Copy, Debug, PartialEq, Eq)]
pub struct ListenRow {
    /// The number of the file.
    pub number: u16,
    /// Why it was refused; None if a process listens there.
    pub fault: Option<ListenFault>,
}

/// A file at which no process can listen.
#[derive(Clone, Copy)]
struct RefusedFile {
    /// The number of the file.
    number: u16,
    /// Why.
    fault: ListenFault,
}

/// A folder in memory: which files it refuses is laid down before, and it remembers at which a
/// process was to listen. It reports that until an allocation fails, and then nothing. At its files
/// are [`MemoryConnections`] of which nothing was laid down.
#[derive(Drop)]
pub struct MemoryFolder {
    /// Where its lists take their memory from.
    alloc: Global,
    /// Its path.
    path: &'static str,
    /// The files that it refuses, in the order in which they were laid down.
    refused: Vec<RefusedFile>,
    /// What was asked, in order.
    rows: Vec<ListenRow>,
    /// Whether it reports what was asked.
    tells: bool,
}

impl MemoryFolder {
    /// A folder at that path, at whose files no process listens yet.
    pub fn new(alloc: Global, path: &'static str) -> MemoryFolder
        ensures listenings { told_listenings result ≡ Some [] }
        ensures path { result.path.now ≡ path.now }
        ensures refused { result.refused.items ≡ [] }
    {
        MemoryFolder {
            alloc,
            path,
            refused: Vec::new(alloc),
            rows: Vec::new(alloc),
            tells: true,
        }
    }

    /// Lays down that no process can listen at the file of that number. Of two faults for one file
    /// the first holds.
    ///
    /// # Errors
    /// `AllocError` if an allocation for it fails.
    pub fn refuse(&mut self, number: u16, fault: ListenFault) -> Result<(), AllocError>
        ensures listenings { told_listenings self.new ≡ told_listenings self.old }
        ensures path { self.new.path.now ≡ self.old.path.now }
        ensures refused { OnOk result (self.new.refused.items
            ≡ self.old.refused.items ++ record { number = number; fault = fault } ∷ []) }
        ensures kept { OnErr result (self.new.refused.items ≡ self.old.refused.items) }
    {
        self.refused.push(RefusedFile { number, fault })?;
        Ok(())
    }

    /// At which files a process was to listen, in order, until an allocation failed.
    pub fn rows(&self) -> &[ListenRow]
        ensures { IfSome (told_listenings self.now) (λ asked.
            asked ≡ map listening_of result.now) }
    {
        &self.rows
    }
}

impl Folder<MemoryConnections> for MemoryFolder {
    ghost listenings = { told_listenings };

    ghost path = { λ folder. folder.path.now };

    ghost file_of = { memory_file };

    /// Nothing is ever reported: no connection comes in memory at a time of its own.
    fn report_to(&mut self, _registry: Option<Registry>)
        ensures asks_nothing { told_listenings self.new ≡ told_listenings self.old }
        ensures stays { self.new.path.now ≡ self.old.path.now }
        ensures refused { self.new.refused.items ≡ self.old.refused.items }
    {}

    fn listen(&mut self, number: u16, _socket: usize) -> Result<MemoryConnections, ListenFault>
        ensures told { TellsMore (told_listenings self.old) (told_listenings self.new)
            (ListensAt number (fault_of_result result) ∷ []) }
        ensures number { IfOk result (λ connections. connections.file_number ≡ number) }
        ensures file { IfOk result (λ connections.
            memory_file connections ≡ path_of self.old.path.now number) }
        ensures stays { self.new.path.now ≡ self.old.path.now }
        ensures none_came { IfOk result (λ connections.
            IfSome (told connections.tells connections.calls) (λ calls. calls ≡ [])) }
        ensures fault { fault_of_result result ≡ file_fault self.old.refused.items number }
        ensures fresh { IfOk result (λ connections.
            connections ≡ no_connections self.old.path.now number) }
        ensures refused { self.new.refused.items ≡ self.old.refused.items }
    {
        let fault = file_fault(&self.refused, number);
        if self.rows.push(ListenRow { number, fault }).is_err() {
            self.tells = false;
        }
        match fault {
            Some(fault) => Err(fault),
            None => Ok(MemoryConnections::new(self.alloc, self.path, number)),
        }
    }
}

/// Why the file of that number is refused; None if it isn't.
fn file_fault(refused: &[RefusedFile], number: u16) -> Option<ListenFault>
    ensures { result ≡ file_fault refused.now number }
{
    match file_index(refused, number) {
        Some(index) => Some(refused[index].fault),
        None => None,
    }
}

/// The index of the fault of the file of that number; None if it has none.
fn file_index(refused: &[RefusedFile], number: u16) -> Option<usize>
    ensures { result ≡ position (is_file_of number) refused.now }
{
    refused.iter().position(|file| file.number == number)
}
