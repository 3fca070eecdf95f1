//! A script played over a node: its lines say events, and what each slot gets is written as text.
//!
//! [`run_script`] opens a node, reads the lines of a script, lets the node take their events, and
//! writes what each slot gets.
//!
//! ```text
//! call 0 publish 100 0 100000 0 0 0 10.0.0.2:17224    answers  0 handle 1
//! call 0 put 1 0a0b                                   answers  0 done
//! moment 100000                                       sends    0 send pd 10.0.0.2:17224 0000..
//! ```
//!
//! `trdp_text` says what a line means and prints records; its public names are here too.
//! `trdp_program` plays scripts.
//!
//! What a run of a script plays and writes is proved for every reader and writer. A reader that
//! always fails meets these contracts, and so does a writer that does: `trdp_node_tests` shows that
//! with ample memory scripts are played.
#![tactic(auto)]

mod fault;
mod input;
mod output;
mod play;
mod player;
mod script;

pub use fault::ScriptFault;
pub use output::{WRITE_TRIES, write_whole};
pub use script::{READS_MAX, run_script};

// What reads and prints lines, so that a program that plays scripts names this crate alone.
pub use trdp_text::{
    LINE_MAX, Line, LineFault, OperatorLine, Question, line_fault_name, print_record, read_control,
    read_control_event, read_event, read_line, read_operator,
};
