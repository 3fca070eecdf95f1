//! What datagrams come from and go to.

ghost use Rattle.std.specs.Prelude.{◌≡◌, ◌<◌, ◌≤◌, [], ◌∷◌, length, IfOk, IfSome, OnErr};
ghost use Rattle.trdp_base.specs.Reported.{TellsMore};
ghost use Rattle.trdp_wire.specs.Told.{give_of, nowhere, taking_of};

use crate::fault::WireFault;
use crate::missing::Missing;
use crate::port::Port;
use crate::refusal::GiveRefusal;
use crate::unread::Unread;
use trdp_base::Place;

/// A wire at the ports of a node. A take and a give never wait. It may report what it took and
/// gave.
pub trait Wire {
    ghost use Rattle.std.specs.Prelude.{ℕ, List, Option, None};
    ghost use Rattle.trdp_wire.specs.Told.{Give, Taking};

    /// What each take answered, in order; None if this wire reports nothing.
    ghost takings: { Self → Option (List Taking) } = { λ _. None };

    /// What was given, in order, and whether the wire failed at it; None if this wire reports
    /// nothing.
    ghost gives: { Self → Option (List Give) } = { λ _. None };

    /// How often the wire has failed.
    ghost faults: { Self → ℕ };

    /// Takes the next datagram at a port, if one is there: it is put at the front of the room, cut
    /// to it, and the answer is where it came from and how many bytes it has there. It doesn't say
    /// whether an application has ended.
    ///
    /// # Errors
    /// `WireFault` if the wire fails; its failures rise then.
    fn take(&mut self, port: Port, room: &mut [u8]) -> Result<Option<(Place, usize)>, WireFault>
        ensures within { IfOk result (λ found. IfSome found (λ f. f.1 ≤ length room.new)) }
        ensures takes { TellsMore (takings self.old) (takings self.new)
            (taking_of port nowhere result room.new ∷ []) }
        ensures gives_nothing { TellsMore (gives self.old) (gives self.new) [] }
        ensures fault { OnErr result (faults self.old < faults self.new) };

    /// Takes as [`Wire::take`] does. Also returns whether what it found is the end of the
    /// application there: then nobody is there to answer. If `anew` is true, a wire that keeps
    /// news looks even if it has none. The default is for a wire that knows no ends and keeps no
    /// news.
    ///
    /// # Errors
    /// As [`Wire::take`].
    fn find(
        &mut self,
        port: Port,
        _anew: bool,
        room: &mut [u8],
    ) -> (Result<Option<(Place, usize)>, WireFault>, bool)
        ensures within { IfOk result.0 (λ found. IfSome found (λ f. f.1 ≤ length room.new)) }
        ensures takes { TellsMore (takings self.old) (takings self.new)
            (taking_of port (λ _. result.1) result.0 room.new ∷ []) }
        ensures gives_nothing { TellsMore (gives self.old) (gives self.new) [] }
        ensures fault { OnErr result.0 (faults self.old < faults self.new) }
    {
        (self.take(port, room), false)
    }

    /// Sends a datagram from a port to a socket address.
    ///
    /// # Errors
    /// `WireFault` if the wire fails; its failures rise then.
    fn give(&mut self, port: Port, to: Place, bytes: &[u8]) -> Result<(), WireFault>
        ensures offers { TellsMore (gives self.old) (gives self.new)
            (give_of port to bytes.now result ∷ []) }
        ensures takes_nothing { TellsMore (takings self.old) (takings self.new) [] }
        ensures fault { OnErr result (faults self.old < faults self.new) };

    /// How often the wire has failed; it stops at 2^64 - 1.
    fn failures(&self) -> u64
        ensures { result ≡ faults self.now };

    /// The latest give that was refused; None before the first, and if this wire keeps none.
    fn refusal(&self) -> Option<GiveRefusal> {
        None
    }

    /// The latest take at which the wire failed; None before the first, and if this wire keeps
    /// none.
    fn unread(&self) -> Option<Unread> {
        None
    }

    /// The files of its ports that are gone, so that nobody can connect there any more; none if its
    /// ports have no files.
    fn missing(&self) -> Missing<'_> {
        Missing::default()
    }
}
