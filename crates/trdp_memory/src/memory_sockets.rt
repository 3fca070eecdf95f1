//! Sockets in memory, for tests.

ghost use Rattle.std.specs.Prelude.{◌≡◌, ◌≤◌, ◌∷◌, ◌++◌, [], length, map, IfOk, IfSome, OnOk, OnErr};
ghost use Rattle.std.specs.Prelude.{Some, None};
ghost use Rattle.trdp_memory.specs.MemorySockets.{Notes, call_of, give_fault, told_calls};
ghost use Rattle.trdp_memory.specs.Waiting.{next_at, sockets_in, without_next};
ghost use Rattle.trdp_wire.specs.News.{WaitsForNews};
ghost use Rattle.trdp_wire.specs.Sockets.{Binds, GivesFrom, TakesFrom, Waits, Watches};
ghost use Rattle.trdp_wire.specs.Sockets.{fault_of_result};
ghost use Rattle.trdp_base.specs.Reported.{TellsMore};
ghost use Rattle.trdp_wire.specs.Told.{arrival_in, arrived_in};

use crate::arrivals::fill;
use crate::no_way::NO_WAY;
use crate::waiting::{SocketArrival, index_at};
use std::alloc::{AllocError, Global};
use trdp_base::{Ip, Place};
use trdp_wire::{BindFault, SocketFault, Sockets, note_told};

/// One call of sockets in memory; the first number is the socket's.
#[derive(Debug, PartialEq, Eq, Drop)]
pub enum SocketRow {
    /// It was bound at a place, with the time to live of what it sends, if one was named.
    Bound(usize, Place, Option<u8>),
    /// A take, and how many bytes it had room for: it found nothing, or a datagram from a socket
    /// address, with its bytes as far as there was room.
    Taken(usize, usize, Option<(Place, Vec<u8>)>),
    /// These bytes were given to it, for a place.
    Given(usize, Place, Vec<u8>),
    /// These bytes were given to it, for a place, and it refused them.
    Refused(usize, Place, Vec<u8>, SocketFault),
    /// It was watched.
    Watched(usize),
    /// A wait, of that many milliseconds, and the numbers of the sockets that it reported.
    Waited(u64, Vec<usize>),
}

/// Sockets in memory: datagrams are laid down for them, and they remember what was asked. They
/// report that until an allocation fails, and then nothing. They refuse nothing but what is given
/// for an address that was cut off.
#[derive(Drop)]
pub struct MemorySockets {
    /// Where their lists take their memory from.
    alloc: Global,
    /// What was laid down and not taken yet, in order.
    arrivals: Vec<SocketArrival>,
    /// What was asked, in order.
    rows: Vec<SocketRow>,
    /// The address to which no way leads; None if ways lead to all.
    far: Option<Ip>,
    /// Whether they report what was asked.
    tells: bool,
}

impl MemorySockets {
    /// Sockets that nothing was asked of.
    pub fn new(alloc: Global) -> MemorySockets
        ensures calls { told_calls result ≡ Some [] }
        ensures arrivals { result.arrivals.items ≡ [] }
        ensures far { result.far ≡ None }
    {
        MemorySockets {
            alloc,
            arrivals: Vec::new(alloc),
            rows: Vec::new(alloc),
            far: None,
            tells: true,
        }
    }

    /// Lays down a datagram, after the others at its socket.
    ///
    /// # Errors
    /// `AllocError` if an allocation for it fails.
    pub fn arrive(&mut self, socket: usize, from: Place, bytes: &[u8]) -> Result<(), AllocError>
        ensures calls { told_calls self.new ≡ told_calls self.old }
        ensures far { self.new.far ≡ self.old.far }
        ensures arrives { OnOk result (self.new.arrivals.items
            ≡ self.old.arrivals.items ++ (record {
              socket = socket;
              from = from;
              bytes = bytes.now;
            }) ∷ []) }
        ensures kept { OnErr result (self.new.arrivals.items ≡ self.old.arrivals.items) }
    {
        let bytes = bytes.to_vec(self.alloc)?;
        self.arrivals.push(SocketArrival {
            socket,
            from,
            bytes,
        })?;
        Ok(())
    }

    /// From now on no way leads to this address, and to no other: what is given for it is refused.
    pub fn cut_off(&mut self, far: Ip)
        ensures calls { told_calls self.new ≡ told_calls self.old }
        ensures far { self.new.far ≡ Some far }
        ensures arrivals { self.new.arrivals.items ≡ self.old.arrivals.items }
    {
        self.far = Some(far);
    }

    /// What was asked, in order, until an allocation failed.
    pub fn rows(&self) -> &[SocketRow]
        ensures { IfSome (told_calls self.now) (λ calls. calls ≡ map call_of result.now) }
    {
        &self.rows
    }

    /// Takes the next datagram at a socket out of those that were laid down; None if none is.
    fn next_at(&mut self, socket: usize, room: &mut [u8]) -> Option<(Place, usize)>
        ensures within { IfSome result (λ found. found.1 ≤ length room.new) }
        ensures length { length room.new ≡ length room.old }
        ensures calls { told_calls self.new ≡ told_calls self.old }
        ensures far { self.new.far ≡ self.old.far }
        ensures found { arrival_in result room.new
            ≡ next_at self.old.arrivals.items socket (length room.old) }
        ensures rest { self.new.arrivals.items ≡ without_next self.old.arrivals.items socket }
    {
        let index = index_at(&self.arrivals, socket)?;
        let arrival = self.arrivals.remove(index);
        let len = fill(room, &arrival.bytes);
        Some((arrival.from, len))
    }

    /// The numbers of the sockets at which datagrams wait, for each of these.
    ///
    /// # Errors
    /// `AllocError` if an allocation for them fails.
    fn sockets_of_arrivals(&self) -> Result<Vec<usize>, AllocError>
        ensures { IfOk result (λ sockets. sockets.items ≡ sockets_in self.now.arrivals.items) }
    {
        let mut sockets = Vec::new(self.alloc);
        for arrival in self.arrivals.iter() {
            sockets.push(arrival.socket)?;
        }
        Ok(sockets)
    }

    /// Whether a way leads to an address.
    ///
    /// # Errors
    /// The system's error if none does.
    fn way_to(&self, ip: Ip) -> Result<(), SocketFault>
        ensures { fault_of_result result ≡ give_fault self.now.far ip }
    {
        match self.far {
            Some(far) if far == ip => Err(NO_WAY),
            _ => Ok(()),
        }
    }

    /// Remembers a call, unless there is no memory for it.
    fn note(&mut self, row: Result<SocketRow, AllocError>)
        ensures notes { Notes row (told_calls self.old) (told_calls self.new) }
        ensures far { self.new.far ≡ self.old.far }
        ensures arrivals { self.new.arrivals.items ≡ self.old.arrivals.items }
    {
        match row {
            Ok(row) => {
                if self.rows.push(row).is_err() {
                    self.tells = false;
                }
            }
            Err(_) => self.tells = false,
        }
    }
}

impl Sockets for MemorySockets {
    ghost calls = { told_calls };

    fn bind(&mut self, socket: usize, place: Place, ttl: Option<u8>) -> Result<(), BindFault>
        ensures told { TellsMore (told_calls self.old) (told_calls self.new)
            (Binds socket place ttl (fault_of_result result) ∷ []) }
        ensures granted { fault_of_result result ≡ None }
        ensures far { self.new.far ≡ self.old.far }
        ensures arrivals { self.new.arrivals.items ≡ self.old.arrivals.items }
    {
        self.note(Ok(SocketRow::Bound(socket, place, ttl)));
        Ok(())
    }

    fn take(
        &mut self,
        socket: usize,
        room: &mut [u8],
    ) -> Result<Option<(Place, usize)>, SocketFault>
        ensures within { IfOk result (λ found. IfSome found (λ f. f.1 ≤ length room.new)) }
        ensures told { TellsMore (told_calls self.old) (told_calls self.new)
            (TakesFrom socket (length room.new) (arrived_in result room.new) ∷ []) }
        ensures found { arrived_in result room.new
            ≡ next_at self.old.arrivals.items socket (length room.old) }
        ensures rest { self.new.arrivals.items ≡ without_next self.old.arrivals.items socket }
        ensures far { self.new.far ≡ self.old.far }
    {
        let found = self.next_at(socket, room);
        let row = taken(self.alloc, socket, room, found);
        self.note(row);
        Ok(found)
    }

    fn give(&mut self, socket: usize, to: Place, bytes: &[u8]) -> Result<(), SocketFault>
        ensures told { TellsMore (told_calls self.old) (told_calls self.new)
            (GivesFrom socket to bytes.now (fault_of_result result) ∷ []) }
        ensures refused { fault_of_result result ≡ give_fault self.old.far to.ip }
        ensures far { self.new.far ≡ self.old.far }
        ensures arrivals { self.new.arrivals.items ≡ self.old.arrivals.items }
    {
        let answer = self.way_to(to.ip);
        let row = given(self.alloc, socket, to, bytes, answer);
        self.note(row);
        answer
    }

    fn watch(&mut self, _alloc: Global, socket: usize) -> Result<(), BindFault>
        ensures told { TellsMore (told_calls self.old) (told_calls self.new)
            (Watches socket (fault_of_result result) ∷ []) }
        ensures granted { fault_of_result result ≡ None }
        ensures far { self.new.far ≡ self.old.far }
        ensures arrivals { self.new.arrivals.items ≡ self.old.arrivals.items }
    {
        self.note(Ok(SocketRow::Watched(socket)));
        Ok(())
    }

    /// Reports each datagram that waits.
    fn wait(&mut self, millis: u64, news: &mut [bool])
        ensures waits { WaitsForNews millis (told_calls self.old) (told_calls self.new)
            news.old news.new }
        ensures told { TellsMore (told_calls self.old) (told_calls self.new)
            (Waits millis (sockets_in self.old.arrivals.items) ∷ []) }
        ensures far { self.new.far ≡ self.old.far }
        ensures arrivals { self.new.arrivals.items ≡ self.old.arrivals.items }
    {
        match self.sockets_of_arrivals() {
            Ok(told) => {
                note_told(news, &told);
                self.note(Ok(SocketRow::Waited(millis, told)));
            }
            Err(_) => self.tells = false,
        }
    }
}

/// The row of a take that put this into a room.
///
/// # Errors
/// `AllocError` if an allocation for its bytes fails.
fn taken(
    alloc: Global,
    socket: usize,
    room: &[u8],
    found: Option<(Place, usize)>,
) -> Result<SocketRow, AllocError>
    requires { IfSome found (λ f. f.1 ≤ length room.now) }
    ensures { IfOk result (λ row. call_of row
        ≡ TakesFrom socket (length room.now) (arrival_in found room.now)) }
{
    match found {
        None => Ok(SocketRow::Taken(socket, room.len(), None)),
        Some((from, len)) => {
            let (bytes, _) = room.split_at(len);
            let bytes = bytes.to_vec(alloc)?;
            Ok(SocketRow::Taken(socket, room.len(), Some((from, bytes))))
        }
    }
}

/// The row of a give of these bytes that was answered so.
///
/// # Errors
/// `AllocError` if an allocation for them fails.
fn given(
    alloc: Global,
    socket: usize,
    to: Place,
    bytes: &[u8],
    answer: Result<(), SocketFault>,
) -> Result<SocketRow, AllocError>
    ensures { IfOk result (λ row. call_of row
        ≡ GivesFrom socket to bytes.now (fault_of_result answer)) }
{
    let bytes = bytes.to_vec(alloc)?;
    match answer {
        Ok(()) => Ok(SocketRow::Given(socket, to, bytes)),
        Err(fault) => Ok(SocketRow::Refused(socket, to, bytes, fault)),
    }
}
