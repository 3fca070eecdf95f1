//! The wire of a node whose lines come over control sockets: for each control port a Unix stream
//! socket, the file FOLDER/NUMBER, for example `/run/trdpd/18000`.
//!
//! - [`ControlWire`] is a wire over two sides. Process data and message data go over a wire of the
//!   network, the lines of the operator and of the applications over the paths of `trdp_lines`.
//!   [`ControlWire::open`] listens at the paths of a configuration in a [`Folder`].
//! - [`SystemFolder`] is a folder of the system. [`SystemConnections`] are those that come in at
//!   one of its paths.
//!
//! ```text
//! let network = RestingWire::open(alloc, sockets, clock, &config, BoundPorts::Network)?;
//! let mut folder = SystemFolder::new(rt, alloc, "/run/trdpd");
//! folder.report_to(network.sockets().registry()?);
//! let wire = ControlWire::open(alloc, &mut folder, network, &config)?;
//! ```
//!
//! A socket's file at which no process listens any more is replaced; nothing else at the path is
//! touched. Of two nodes that start at one path at the same time, one may take the file of the
//! other for such a file. So a node binds its ports for process data before, which only one of
//! them can. The file's mode is 0660, whatever the umask: its owner and its group may connect. No
//! one else ever could, since the file comes with no wider mode.
//!
//! The system reports what comes at a path to the network's wire, by the number of the socket that
//! the port would have. A take at a path of which there is no news asks nothing.
//!
//! If a socket's file is removed while a node runs, nobody can connect there any more, since the
//! system tells the listener nothing of it. The wire names such files (`Wire::missing`).
//!
//! `trdp_program` serves a node over this wire if it is given a folder.
//!
//! **Proved**, for any network, folder and connections: which files are listened at, in which
//! folder and in which order; what a take and a give at a port do on either side. A take at the
//! control port of a slot is one at the path of that slot and at no other, and the place that a line
//! comes from is the number of its connection. The news of a path ends only if a take there neither
//! heard anything nor failed; the news of the other paths stays. A rest of the wire is one of the
//! network, of no time if a path heard something since the rest before.
//!
//! **Tested** over daemons: that news ends, as a network may keep none; by which number the system
//! reports; which file at a path is replaced; that the files that are gone are named; and with
//! which of the system's errors a take or a give fails.
//!
//! **Trusted**: the system. The functions that call it have clauses only for the bounds of a read
//! and a write, and for what its answers mean.
#![tactic(auto)]

mod answers;
mod control_wire;
mod folder;
mod held_path;
mod listen_fault;
mod opening;
mod path;
mod path_calls;
mod place;
mod socket_file;
mod system_connections;
mod system_folder;
mod telegrams;
mod teller;

pub use control_wire::ControlWire;
pub use folder::Folder;
pub use held_path::HeldPath;
pub use listen_fault::ListenFault;
pub use path::socket_path;
pub use system_connections::SystemConnections;
pub use system_folder::SystemFolder;
pub use teller::Teller;
