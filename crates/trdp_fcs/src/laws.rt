//! What the frame check finds: one damaged byte. That is the smallest part of what the standard
//! claims for it: a burst of up to 32 bits is found too, and isn't claimed here.

ghost use Rattle.std.specs.Prelude.{◌≢◌, ℕ, List};
ghost use Rattle.trdp_fcs.specs.Damage.{DifferInOneByte};
ghost use Rattle.trdp_fcs.specs.FrameCheck.{frame_check_of};

/// Two lists of bytes that differ in exactly one byte have different frame checks.
pub fn one_byte_changes_the_check()
    ensures { (first second : List ℕ) → DifferInOneByte first second
        → frame_check_of first ≢ frame_check_of second }
{}
