//! What the frame check of a header finds: one damaged byte, wherever it is. That is the smallest
//! part of what the standard claims for it: a burst of up to 32 bits is found too, and isn't
//! claimed here. A damaged dataset is not found: no check covers it.

ghost use Rattle.std.specs.Prelude.{◌≡◌, ◌≢◌, ℕ, List, take, None};
ghost use Rattle.trdp_fcs.specs.Damage.{DifferInOneByte};
ghost use Rattle.trdp_head.specs.PdFaults.{pd_fault_of};
ghost use Rattle.trdp_head.specs.MdFaults.{md_fault_of};

/// Of two lists of bytes whose headers differ in exactly one byte at most one is a telegram: the
/// damaged byte may be in a field or in the frame check itself. A header has 40 bytes in process
/// data and 116 in message data; after it the lists may differ, and in their length.
pub fn one_damaged_byte_is_found()
    ensures pd { (first second : List ℕ) → DifferInOneByte (take 40 first) (take 40 second)
        → pd_fault_of first ≡ None → pd_fault_of second ≢ None }
    ensures md { (first second : List ℕ) → DifferInOneByte (take 116 first) (take 116 second)
        → md_fault_of first ≡ None → md_fault_of second ≢ None }
{}
