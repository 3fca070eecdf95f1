//! The frame check sequence of TRDP telegram headers: the CRC-32 of IEEE 802.3.
//!
//! [`frame_check`] is the check of one list of bytes; a [`Running`] check is fed with pieces.
//!
//! ```text
//! frame_check(b"123456789")            // 0xcbf43926
//!
//! let mut running = Running::start();
//! running.feed(b"1234");
//! running.feed(b"56789");
//! running.finish()                     // the same
//! ```
//!
//! `trdp_head` writes and checks headers with it.
//!
//! The check is defined in `specs/FrameCheck.antt`, as the remainder of a division of bits. The
//! code keeps the remainder in a register and looks up eight bytes of the message at once in
//! tables.
//!
//! Proved: both give that remainder, however the bytes are cut into pieces, and one damaged byte
//! changes it. How fast this is no contract says: `bench/` measures it.
#![tactic(auto)]

ghost use Rattle.std.specs.Prelude.{◌≡◌};
ghost use Rattle.trdp_fcs.specs.FrameCheck.{frame_check_of};

mod laws;
mod register;
mod running;
mod tables;

pub use laws::one_byte_changes_the_check;
pub use running::Running;

/// The frame check sequence of IEEE 802.3 (CRC-32) of the bytes: that of no bytes is 0, that of
/// `123456789` is `0xcbf43926`. A TRDP header stores it with the least significant byte first.
pub fn frame_check(bytes: &[u8]) -> u32
    ensures { result ≡ frame_check_of bytes.now }
{
    let mut running = Running::start();
    running.feed(bytes);
    running.finish()
}
