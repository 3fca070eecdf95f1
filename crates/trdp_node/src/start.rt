//! The address of bytes.

/// Where the bytes begin.
pub fn start_of(bytes: &[u8]) -> *const u8 {
    bytes.as_ptr()
}
