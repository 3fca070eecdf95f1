//! Which `trdpd` this is.

/// The version of the program and of all that is packed with it.
pub const VERSION: &str = "1.0.0";

/// The checksum of the logic that the program was proved with, as `rt version` prints it.
pub const LOGIC: &str = "dac8208d650f15bf";
