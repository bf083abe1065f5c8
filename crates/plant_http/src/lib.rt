//! One request of HTTP/1.1 (RFC 9112) served: read from a reader, judged, handed to a keeper of the desk, and answered to a writer.
#![tactic(auto)]

mod answer;
mod fixed_text;
mod media;
mod perform;
mod position;
mod send;
mod serve;
mod status;

pub use serve::{ServeFault, Served, serve_one};
