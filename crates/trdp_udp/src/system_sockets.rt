//! The sockets of the system.
//!
//! No contract says what the system does at a call. Each function here only makes its calls of the
//! system, and translates their arguments and answers. They are tested over loopback.

ghost use Rattle.std.specs.Prelude.{◌≡◌, ◌*◌, ℕ, List, map};
ghost use Rattle.std.specs.IoError.{error_kind, raw_os_error};
ghost use Rattle.std.specs.Duration.{as_nanos};
ghost use Rattle.mio.specs.Events.{items};
ghost use Rattle.trdp_wire.specs.News.{with_news};
ghost use Rattle.trdp_udp.specs.SystemSockets.{bind_fault_of, place_of_address, received_of};
ghost use Rattle.trdp_udp.specs.SystemSockets.{sent_of};
ghost use Rattle.trdp_udp.specs.SystemSockets.{source_number, socket_fault};

use crate::shared_waits::SharedWaits;
use mio::unix::SourceFd;
use mio::{Events, Interest, Poll, Registry, Token};
use std::alloc::Global;
use std::net::{Ipv4Addr, Net, SocketAddr, SocketAddrV4, UdpSocket};
use std::os::fd::AsRawFd;
use std::time::Duration;
use std::{array, io};
use trdp_base::{Ip, Place};
use trdp_wire::{BindFault, SocketFault, Sockets, set_news};

/// The most sockets of a node: three, the control ports of 16 slots and 15 spare ones, and two of
/// each of 32 groups.
pub(crate) const SOCKETS_MAX: usize = 98;

/// How many sources the system reports at one wait. It is more than a node has, so that one wait
/// reports all that came before it: its sockets, or 66 of these, 32 paths and what is open there.
const EVENTS: usize = 256;

/// The UDP sockets of the system. They report nothing.
#[derive(Drop)]
pub struct SystemSockets<'a, R: Net> {
    /// The system, which has the network.
    rt: &'a R,
    /// The socket of each number; None if none is bound.
    sockets: [Option<UdpSocket>; SOCKETS_MAX],
    /// What a wait needs; None before the first socket that is watched.
    waits: Option<Waits>,
}

/// What a wait needs, so that none allocates.
#[derive(Drop)]
struct Waits {
    /// Where the system reports that a datagram came.
    poll: Poll,
    /// Room for what it reports at one wait.
    events: Events<Global>,
}

impl<'a, R: Net> SystemSockets<'a, R> {
    /// The sockets of a system, of which none is bound yet.
    pub fn new(rt: &'a R) -> SystemSockets<'a, R> {
        SystemSockets {
            rt,
            sockets: array::from_fn(|_| None),
            waits: None,
        }
    }
}

impl<'a, R: Net> SharedWaits for SystemSockets<'a, R> {
    fn registry(&self) -> io::Result<Option<Registry>> {
        match &self.waits {
            Some(waits) => Ok(Some(waits.poll.registry().try_clone()?)),
            None => Ok(None),
        }
    }
}

impl<'a, R: Net> Sockets for SystemSockets<'a, R> {
    ghost use Rattle.std.specs.Prelude.{None};

    ghost calls = { λ _. None };

    fn bind(&mut self, socket: usize, place: Place, ttl: Option<u8>) -> Result<(), BindFault> {
        let Some(seat) = self.sockets.get_mut(socket) else {
            return Err(BindFault::Bind);
        };
        *seat = Some(bind_socket(self.rt, place, ttl).map_err(bind_fault)?);
        Ok(())
    }

    fn take(
        &mut self,
        socket: usize,
        room: &mut [u8],
    ) -> Result<Option<(Place, usize)>, SocketFault> {
        let Some(Some(socket)) = self.sockets.get(socket) else {
            return Ok(None);
        };
        received(socket.recv_from(room))
    }

    fn give(&mut self, socket: usize, to: Place, bytes: &[u8]) -> Result<(), SocketFault> {
        let Some(Some(socket)) = self.sockets.get(socket) else {
            return Err(SocketFault { code: None });
        };
        let sent = socket.send_to(bytes, SocketAddr::V4(address_of(to)));
        sent_whole(sent, bytes.len())
    }

    fn watch(&mut self, alloc: Global, socket: usize) -> Result<(), BindFault> {
        let Some(Some(bound)) = self.sockets.get(socket) else {
            return Err(BindFault::Bind);
        };
        if self.waits.is_none() {
            self.waits = Some(Waits::new(self.rt, alloc)?);
        }
        match &self.waits {
            Some(waits) => waits.watch(socket, bound),
            None => Err(BindFault::Bind),
        }
    }

    fn wait(&mut self, millis: u64, news: &mut [bool]) {
        if let Some(waits) = &mut self.waits {
            waits.wait(millis, news);
        }
    }
}

impl Waits {
    /// What a wait needs, with no socket yet.
    ///
    /// # Errors
    /// `OutOfMemory` if an allocation for it fails, and else `Bind`.
    fn new<R: Net>(rt: &R, alloc: Global) -> Result<Waits, BindFault> {
        let events = Events::with_capacity(alloc, EVENTS).map_err(|_| BindFault::OutOfMemory)?;
        let poll = Poll::new(rt).map_err(bind_fault)?;
        Ok(Waits { poll, events })
    }

    /// Asks the system to report when a datagram comes at the socket of that number.
    ///
    /// # Errors
    /// `OutOfMemory` if the system is out of memory for it, and else `Bind`.
    fn watch(&self, number: usize, socket: &UdpSocket) -> Result<(), BindFault> {
        let mut source = SourceFd(&socket.as_raw_fd());
        let registry = self.poll.registry();
        let watched = registry.register(&mut source, Token(number), Interest::READABLE);
        watched.map_err(bind_fault)
    }

    /// Waits for at most `millis` milliseconds, and notes the numbers that the system reports. It
    /// reports once each arrival that comes after the one it reported before, whether that was
    /// taken or not.
    fn wait(&mut self, millis: u64, news: &mut [bool])
        ensures { (told : List ℕ) × (news.new ≡ with_news told news.old) }
    {
        // If the system refuses a wait, there is none.
        let _ = self.poll.poll(&mut self.events, Some(time_of(millis)));
        note_events(news, &self.events);
    }
}

/// Notes that there is news of the numbers of these events.
fn note_events(news: &mut [bool], events: &Events<Global>)
    ensures { news.new ≡ with_news (map source_number (items events.now)) news.old }
{
    for event in events.iter() {
        set_news(news, event.token().0, true);
    }
}

/// A socket at a socket address, which never waits. If a time to live is given, all that it sends
/// has that one: the system keeps one for a single receiver, and another for a group.
///
/// # Errors
/// The system's error.
fn bind_socket<R: Net>(rt: &R, place: Place, ttl: Option<u8>) -> io::Result<UdpSocket> {
    let socket = UdpSocket::bind(rt, SocketAddr::V4(address_of(place)))?;
    socket.set_nonblocking(true)?;
    if let Some(ttl) = ttl {
        socket.set_ttl(u32::from(ttl))?;
        socket.set_multicast_ttl_v4(u32::from(ttl))?;
    }
    Ok(socket)
}

/// The answer of a take to what the system says: nothing if nothing is there, or if a datagram came
/// from IPv6, which comes to none of these sockets.
fn received(found: io::Result<(usize, SocketAddr)>) -> Result<Option<(Place, usize)>, SocketFault>
    ensures { result ≡ received_of found }
{
    match found {
        Ok((len, SocketAddr::V4(from))) => Ok(Some((place_at(from), len))),
        Ok((_, SocketAddr::V6(_))) => Ok(None),
        Err(error) => match error.kind() {
            io::ErrorKind::WouldBlock => Ok(None),
            _ => Err(socket_fault(&error)),
        },
    }
}

/// The answer of a give of `len` bytes to how many of them the system says that it sent.
fn sent_whole(sent: io::Result<usize>, len: usize) -> Result<(), SocketFault>
    ensures { result ≡ sent_of sent len }
{
    match sent {
        Ok(count) if count == len => Ok(()),
        Ok(_) => Err(SocketFault { code: None }),
        Err(error) => Err(socket_fault(&error)),
    }
}

/// A system's error as the fault of a socket.
fn socket_fault(error: &io::Error) -> SocketFault
    ensures { result ≡ socket_fault (raw_os_error error.now) }
{
    SocketFault {
        code: error.raw_os_error(),
    }
}

/// That many milliseconds.
fn time_of(millis: u64) -> Duration
    ensures { as_nanos result ≡ millis * 1_000_000 }
{
    Duration::from_millis(millis)
}

/// What it means that the system refuses a socket.
fn bind_fault(error: io::Error) -> BindFault
    ensures { result ≡ bind_fault_of (error_kind error) }
{
    match error.kind() {
        io::ErrorKind::OutOfMemory => BindFault::OutOfMemory,
        _ => BindFault::Bind,
    }
}

/// A socket address as the system's.
fn address_of(place: Place) -> SocketAddrV4
    ensures { place_of_address result ≡ place }
{
    SocketAddrV4::new(Ipv4Addr::from_bits(place.ip.0), place.port)
}

/// The system's socket address as ours.
fn place_at(address: SocketAddrV4) -> Place
    ensures { result ≡ place_of_address address }
{
    Place {
        ip: Ip(address.ip().to_bits()),
        port: address.port(),
    }
}
