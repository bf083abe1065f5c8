//! The routes of the desk's HTTP server: which path asks for what.
//! What a request of HTTP/1.1 (RFC 9112) asks of the desk, judged from its bytes before the desk is asked anything.
#![tactic(auto)]

mod bodies;
mod fields;
mod figures;
mod framing;
mod head;
mod head_end;
mod in_time;
mod law;
mod origins;
mod parse;
mod path;
mod profile;
mod progress;
mod read;
mod reading;
mod references;
mod route_table;
mod routes;
mod senders;
mod status;
mod steps;
mod task;
mod validators;

pub use figures::{Figures, Now, StatusCount};
pub use head_end::head_length;
pub use law::{check_law, condition_law, reference_law, sender_law, task_law};
pub use profile::{Presentation, Profile, Terms};
pub use progress::{RequestProgress, request_progress};
pub use read::{MOST_READS, read_task};
pub use reading::{HeadEnd, InputFault, LONGEST_HEAD, read_head, read_to};
pub use routes::{BodyFormat, Post, Routes, RoutesFault, Target};
pub use status::{Allow, Status};
pub use task::{ConditionalTask, HeadDecision, RequestTask};
