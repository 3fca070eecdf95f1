//! What C gets of an event, of a line, of the node, of a fault and of a name.

/// Room in bytes for the text of a configuration's fault, with the zero after it.
pub const FAULT_ROOM: usize = 60;

/// Room in bytes for a name, with the zero after it.
pub const NAME_ROOM: usize = 16;

/// What came of an event: `struct trdp_node_done`.
#[repr(C)]
#[derive(Drop)]
pub struct Done {
    /// How many records it has.
    pub records: usize,
    /// The status.
    pub status: u32,
}

/// What came of a line: `struct trdp_node_text`.
#[repr(C)]
#[derive(Drop)]
pub struct Text {
    /// Where the text lies until the next event, line or text.
    pub text: *const u8,
    /// How many bytes it has.
    pub len: usize,
    /// How many records the event has.
    pub records: usize,
    /// The status.
    pub status: u32,
}

/// What a node tells of itself: `struct trdp_node_state`.
#[repr(C)]
#[derive(Drop)]
pub struct State {
    /// Its latest moment, in microseconds.
    pub now: u64,
    /// The next moment by which something is due; 2^64 - 1 for none.
    pub next_due: u64,
    /// How many slots it has.
    pub slots: usize,
}

/// What is wrong with a configuration: `struct trdp_node_fault`.
#[repr(C)]
#[derive(Drop)]
pub struct Fault {
    /// The number of the fault, 1 to 12; 0 for none.
    pub number: u32,
    /// What the program prints for it, with zeros behind it.
    pub text: [u8; FAULT_ROOM],
}

/// A name: `struct trdp_node_name`.
#[repr(C)]
#[derive(Drop)]
pub struct Name {
    /// The name, with zeros behind it.
    pub text: [u8; NAME_ROOM],
}
