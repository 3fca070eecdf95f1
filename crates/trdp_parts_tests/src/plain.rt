//! The frame check bit by bit, as it is defined: tests compare the tables with it.

/// The generator of IEEE 802.3, 0x104C11DB7, without its first bit and from the lowest bit up.
const GENERATOR: u32 = 0xEDB8_8320;

/// The frame check of the bytes.
pub(crate) fn frame_check(bytes: &[u8]) -> u32 {
    let mut register = u32::MAX;
    for byte in bytes {
        register = past_byte(register, *byte);
    }
    !register
}

/// The register after one more byte of the message.
fn past_byte(register: u32, byte: u8) -> u32 {
    let mut shifted = register ^ u32::from(byte);
    for _ in 0..8u8 {
        shifted = shift(shifted);
    }
    shifted
}

/// The register after one bit: the generator is subtracted where the bit that is dropped is 1.
fn shift(register: u32) -> u32 {
    if register % 2 == 1 {
        (register >> 1) ^ GENERATOR
    } else {
        register >> 1
    }
}
