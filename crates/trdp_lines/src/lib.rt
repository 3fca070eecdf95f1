//! The connections at the path of a control port ([`ControlPath`]) and at the path of the
//! operator's port ([`OperatorPath`]), as lines of text in and out. Both are a [`Path`], each with
//! its [`Rule`].
//!
//! At a control port one connection is the application, from its first line on until it ends. What
//! it says is handed in line by line, and its end as the line `reset`. The operator's path has up
//! to four connections at once, whose ends hand in nothing. The connections are anything that
//! implements [`Connections`]; `trdp_controls` has those of the operating system.
//!
//! ```text
//! let mut path: ControlPath<_> = Path::new(alloc, connections)?;
//! for _ in rt.forever() {
//!     while let Some((number, len)) = path.take(&mut room)? {    // a line, or `reset`
//!         let (line, _) = room.split_at(len);
//!         let given = path.give(number, answer(line));           // it waits, or is dropped whole
//!     }
//!     if !path.has_heard() {
//!         wait();                                                // nothing came at any take
//!     }
//! }
//! ```
//!
//! A connection has two halves: the bytes that came in and aren't handed in yet, and those that
//! wait to go out. Both allocate all memory that they ever need when they are made.
//!
//! Proved, if the connections report what was asked of them: what is handed in is what
//! applications said by these reports, each line once and in order, cut to the room. The end of
//! each comes after its last line and before any line of a later one. Of an operator its lines are
//! handed in, each once and in order. Each connection that comes has the next number, which no
//! later one gets.
//!
//! A connection that came has a seat, or waits, or it was closed. It is closed when it is over. At
//! a control port it is also closed if it has said no line and a later one is there, or after
//! `busy` if an application lives that came before it. Right before that, a read from the one that
//! has the seat found no byte: the connection that gives way, or the application that lives. So a
//! connection that never says a line gives way to the next one. At the operator's port a connection
//! is closed after `busy` if each of the four seats is taken. No connection that has a seat was
//! closed.
//!
//! Each take asks for the next connection, unless one waits or the last number was given. So no
//! connection keeps another from a free seat. A take that finds nothing has also read from each
//! that has a seat, or from the one before it there, which it closed; none that has a seat is over.
//! If no call of it brought anything, none waits after it: the one that waited has the seat, or was
//! closed.
//!
//! A take asks the seats in turn. If the take before found something, it begins at the seat after
//! that. Each connection that it passes on the way to a text was read from, and has nothing left.
//! So no operator keeps another that has a seat from being heard. If something waits for a
//! connection, a take writes to it at least once, and so does a give to it. If nothing is heard at
//! a take, no call of the connections brought anything, and none waited.
//!
//! If connections report nothing, as the system's don't, no clause says what was asked of them or
//! what they answered. The clauses still say which numbers a path gives, at which seat a take finds
//! a text and where the next take begins, what it returns after an end (`gone`), that no whole line
//! is left if it finds nothing, and what a give adds or drops.
//!
//! No contract says how much a write offers, what else a take writes, that it keeps what waits, how
//! often it reads from one connection, what the other side sends and takes, nor that a search for
//! the end of a line begins where the search before it ended. The tests of `clients/` try the first
//! three. [`Path::new`] may always answer that there is no memory.
#![tactic(auto)]

mod admission;
mod connections;
mod conversation;
mod intake;
mod laws;
mod outgoing;
mod path;
mod path_fault;
mod reset_line;
mod rule;
mod seats;

pub use connections::{Accepted, Came, Connections, Went};
pub use laws::{
    bytes_are_lines_and_rest, each_line_is_handed_in, lines_come_one_by_one, texts_go_whole,
    whole_lines_stay,
};
pub use path::{ControlPath, OperatorPath, Path};
pub use path_fault::{AcceptFault, LostText};
pub use rule::{ForApplication, ForOperators, Policy, Rule};
