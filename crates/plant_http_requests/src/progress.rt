//! How much of a request is there.
ghost use Rattle.std.specs.Prelude.{◌≤◌, length};
ghost use Rattle.plant_http_requests.specs.Progress.{HasCome, HasComeOfHead};

use crate::head::step_of_head;
use crate::head_end::head_length;
use crate::profile::Terms;
use crate::reading::LONGEST_HEAD;
use crate::routes::Routes;
use crate::task::HeadStep;

/// How much of a request is there.
#[derive(Clone, Copy, Debug, PartialEq, Eq)]
pub enum RequestProgress {
    /// What it asks for is settled.
    Whole,
    /// Its head may go on.
    LacksHead,
    /// Its head asks for a body that isn't there whole. The request has so many bytes in all.
    LacksBody(usize),
}

/// How much is there of a request whose head has these `n` bytes of them.
fn progress_of_head(routes: &Routes, terms: Terms<'_>, bytes: &[u8], n: usize) -> RequestProgress
    requires { n ≤ length bytes.now }
    ensures { HasComeOfHead terms.entry n bytes.now result }
{
    let (head, _) = bytes.split_at(n);
    match step_of_head(terms, routes, head) {
        HeadStep::Decided(_) => RequestProgress::Whole,
        HeadStep::Body { size, .. } => {
            let want = n.saturating_add(size as usize);
            if want <= bytes.len() {
                RequestProgress::Whole
            } else {
                RequestProgress::LacksBody(want)
            }
        }
    }
}

/// How much is there of a request that begins with these bytes: what further bytes can't change is whole.
pub fn request_progress(routes: &Routes, terms: Terms<'_>, bytes: &[u8]) -> RequestProgress
    ensures { HasCome terms.entry bytes.now result }
{
    let (front, _) = bytes.split_at(bytes.len().min(LONGEST_HEAD));
    match head_length(front) {
        Some(n) => progress_of_head(routes, terms, bytes, n),
        None if bytes.len() < LONGEST_HEAD => RequestProgress::LacksHead,
        None => RequestProgress::Whole,
    }
}
