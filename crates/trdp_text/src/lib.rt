//! The text form of a node: lines that say events, in a script or one in a datagram, and the lines
//! of its records.
//!
//! - [`read_line`] reads one line into a [`Line`]; [`read_control`] reads one that came in a
//!   datagram to a slot's control port. [`read_event`] and [`read_control_event`] do the same over
//!   a buffer that is used from line to line.
//! - [`read_operator`] reads a line of the operator, which carries no bytes: an event or a
//!   [`Question`].
//! - [`print_record`] appends the line of a record, [`print_records`] the lines of an outbox, slot by
//!   slot, and [`print_fault`] the line of an event's fault. [`ConfigFaultText`] is the line of a
//!   fault of the configuration.
//!
//! ```text
//! call 0 publish 100 0 100000 0 0 0 10.0.0.2:17224    answers  0 handle 1
//! call 0 put 1 0a0b                                   answers  0 done
//! moment 100000                                       sends    0 send pd 10.0.0.2:17224 0000..
//! ```
//!
//! A line has one of a list of forms (`specs/Forms`): the words of each, and the event that they
//! mean. docs/SCRIPT.md lists them all. `specs/EventText` says which lines an event gives.
//!
//! `trdp_script` plays scripts of these lines over a node, and `trdp_daemon` reads and prints them
//! at the ports of one. Nothing here knows a node: a line is read without one.
//!
//! What a line means, and which fault it has, is proved for every line. A reader that always finds
//! no memory meets these contracts: `trdp_node_tests` shows that with ample memory lines are read.
#![tactic(auto)]

mod config_names;
mod fault;
mod field;
mod form;
mod line;
mod line_end;
mod names;
mod operator_line;
mod owned_line;
mod port;
mod print;
mod print_all;
mod print_message;
mod print_words;
mod read;
mod read_message;
mod read_session;
mod split;
mod words;

pub use config_names::{ConfigFaultText, config_fault_name};
pub use fault::LineFault;
pub use line::read_event;
pub use line_end::without_return;
pub use names::{fault_name, line_fault_name, reason_name, refusal_name};
pub use operator_line::{OperatorLine, Question};
pub use owned_line::{Line, read_control, read_line};
pub use port::{read_control_event, read_operator};
pub use print::{bytes_in, print_fault, print_record};
pub use print_all::print_records;
pub use split::split_at_byte;
pub use trdp_base::LINE_MAX;
