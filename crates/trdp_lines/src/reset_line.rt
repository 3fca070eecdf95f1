//! The line for the end of an application.

ghost use Rattle.std.specs.Prelude.{◌≡◌, ◌≤◌, length, IfSome};
ghost use Rattle.trdp_lines.specs.Paths.{HandsEnd};

use crate::intake::copy_front;

/// The line that is handed in if an application has ended.
const RESET: &[u8] = b"reset";

/// The line for the end of the connection of that number, if it has spoken: it is put at the front
/// of the room, cut to it, and the result is the number and how many bytes it has there.
pub(crate) fn end_line(number: u64, spoke: bool, room: &mut [u8]) -> Option<(u64, usize)>
    ensures within { IfSome result (λ found. found.1 ≤ length room.new) }
    ensures length { length room.new ≡ length room.old }
    ensures line { HandsEnd number spoke (length room.old) result room.new }
{
    if !spoke {
        return None;
    }
    let len = copy_front(RESET, room);
    Some((number, len))
}
