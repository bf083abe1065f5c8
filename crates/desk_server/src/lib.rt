//! Requests of HTTP/1.1 (RFC 9112) that come in on a listener, read side by side and answered one after the other by a desk.
#![tactic(auto)]

mod address;
mod connection;
mod deadline;
mod fault;
mod listening;
mod log;
mod queue;
mod receiving;
mod reply;
mod server;
mod sockets;
mod transport;
mod writing;

pub use address::{ListenLocally, Local, listen_at, local_at};
pub use fault::ServingFault;
pub use listening::{serve_listener, serve_over};
pub use log::AccessLog;
pub use transport::{PIECE_BYTES, Piece, Transport};
