//! The last number of a connection, and the refusal of a connection for which there is no room.

ghost use Rattle.std.specs.Prelude.{◌≡◌};
ghost use Rattle.trdp_lines.specs.Turns.{IsRefused};

use crate::connections::Connections;

/// The last number that a connection may have: what 48 bits can say.
pub(crate) const LAST_NUMBER: u64 = 281_474_976_710_655;

/// The line for a connection for which there is no room.
const BUSY: &[u8] = b"busy\n";

/// Writes to the connection of that number that there is no room for it, and closes it.
pub(crate) fn refuse<C: Connections>(connections: &mut C, number: u64)
    ensures refused { IsRefused number (C.calls connections.old) (C.calls connections.new) }
    ensures kept { C.file_number connections.new ≡ C.file_number connections.old }
{
    let _ = connections.write(number, BUSY);
    connections.close(number);
}
