//! Where the lines of a connection come from, as the node sees it.

ghost use Rattle.std.specs.Prelude.{◌≡◌};
ghost use Rattle.trdp_controls.specs.Places.{number_of_place, place_of_number};

use trdp_base::{Ip, Place};

/// How many port numbers there are.
const PORTS: u64 = 65_536;

/// How many addresses there are.
const ADDRESSES: u64 = 4_294_967_296;

/// The place of the connection of that number, in the form of address and port (profile): the
/// address is the number divided by 65,536, and the port is the remainder.
pub(crate) fn place_of(number: u64) -> Place
    ensures { result ≡ place_of_number number }
{
    Place {
        ip: Ip((number / PORTS % ADDRESSES) as u32),
        port: (number % PORTS) as u16,
    }
}

/// The number of the connection of a place.
pub(crate) fn number_of(place: Place) -> u64
    ensures { result ≡ number_of_place place }
{
    u64::from(place.ip.0) * PORTS + u64::from(place.port)
}
