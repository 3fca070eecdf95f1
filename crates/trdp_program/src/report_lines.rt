//! The lines of a daemon's reports.

use std::fmt;
use std::net::{Ipv4Addr, SocketAddrV4};
use trdp_wire::{GiveRefusal, Missing, Port, Unread};

/// What a line says of the latest give that was lost; nothing if the wire keeps none.
#[derive(Clone, Copy)]
pub(crate) struct LatestLost(pub(crate) Option<GiveRefusal>);

impl fmt::Display for LatestLost {
    fn fmt<W: fmt::Write>(&self, f: &mut fmt::Formatter<W>) -> fmt::Result {
        if let Some(GiveRefusal { port, to, fault }) = self.0 {
            let place = SocketAddrV4::new(Ipv4Addr::from_bits(to.ip.0), to.port);
            let from = PortText(port);
            write!(f, ", the latest from {from} to {place}: {fault}")?;
        }
        Ok(())
    }
}

/// What a line says of the latest take that failed; nothing if the wire keeps none.
#[derive(Clone, Copy)]
pub(crate) struct LatestUnread(pub(crate) Option<Unread>);

impl fmt::Display for LatestUnread {
    fn fmt<W: fmt::Write>(&self, f: &mut fmt::Formatter<W>) -> fmt::Result {
        if let Some(Unread { port, fault }) = self.0 {
            let at = PortText(port);
            write!(f, ", the latest at {at}")?;
            if fault.code.is_some() {
                write!(f, ": {fault}")?;
            }
        }
        Ok(())
    }
}

/// The line about files of control sockets that are gone.
#[derive(Clone, Copy)]
pub(crate) struct MissingLine<'a>(pub(crate) Missing<'a>);

impl<'a> fmt::Display for MissingLine<'a> {
    fn fmt<W: fmt::Write>(&self, f: &mut fmt::Formatter<W>) -> fmt::Result {
        let first = self.0.first.unwrap_or("");
        write!(f, "missing {first}")?;
        if self.0.count > 1 {
            let more = self.0.count - 1;
            write!(f, " and {more} more")?;
        }
        f.write_str(": nobody can connect there until the daemon is started again")
    }
}

/// A port as the program prints it.
#[derive(Clone, Copy)]
struct PortText(Port);

impl fmt::Display for PortText {
    fn fmt<W: fmt::Write>(&self, f: &mut fmt::Formatter<W>) -> fmt::Result {
        match self.0 {
            Port::Pd => f.write_str("process data"),
            Port::Md => f.write_str("message data"),
            Port::PdGroup(group) => write!(f, "process data of {}", Ipv4Addr::from_bits(group)),
            Port::MdGroup(group) => write!(f, "message data of {}", Ipv4Addr::from_bits(group)),
            Port::Operator => f.write_str("the operator's port"),
            Port::Control(slot) => write!(f, "the control port of slot {slot}"),
        }
    }
}
