//! Zero values.

ghost use Rattle.std.specs.Prelude.{◌≡◌, ◌≤◌, ◌++◌, IsTrue, length, drop, replicate};
ghost use Rattle.trdp_dataset.specs.Datasets.{is_known};
ghost use Rattle.trdp_dataset.specs.ZeroSizes.{zero_size};

use trdp_dataset::Registry;

/// Writes the zero value of a known dataset at the front of a room that is large enough, and
/// returns how many bytes it has. Each number in it is 0, so that each array of size 0 is empty,
/// and so each byte is 0. The rest of the room stays as it was.
pub fn write_zero(registry: &Registry, id: u32, room: &mut [u8]) -> usize
    requires known { IsTrue (is_known registry.now id) }
    requires room { zero_size registry.now id ≤ length room.old }
    ensures size { result ≡ zero_size registry.now id }
    ensures bytes { room.new
        ≡ replicate (zero_size registry.now id) 0 ++ drop (zero_size registry.now id) room.old }
{
    let size = registry.zero_size(id).unwrap();
    room[..size].fill(0);
    size
}
