//! Whether a command's moment is later than the machine's clock allows.
ghost use Rattle.std.specs.Prelude.{◌≡◌};
ghost use Rattle.plant_http_requests.specs.InTime.{in_time, moment_of, overrun};

use crate::profile::Terms;
use crate::task::RequestTask;
use plant_base::Moment;
use plant_text::ToCheck;

/// The moment of the command that is to be executed or checked.
fn moment_of(task: &RequestTask) -> Option<Moment>
    ensures { result ≡ moment_of task.now }
{
    match task {
        RequestTask::Command(envelope) | RequestTask::Check(ToCheck::Command(envelope)) => Some(
            envelope.at,
        ),
        _ => None,
    }
}

/// By how many seconds a moment may be later than the machine's time, where it is later by more. `None` where it isn't, where it may
/// be any, and where the clock gave no time.
fn overrun(at: Option<Moment>, terms: Terms<'_>) -> Option<u32>
    ensures { result ≡ overrun at terms.entry.now.time terms.entry.most_ahead }
{
    let at = at?;
    let now = terms.now.time?;
    let most = terms.most_ahead?;
    if at.get() > now.unix_secs() + u64::from(most) {
        Some(most)
    } else {
        None
    }
}

/// The task, where its command isn't too far ahead of the machine's clock.
pub(crate) fn in_time(terms: Terms<'_>, task: RequestTask) -> RequestTask
    ensures { result ≡ in_time terms.entry task }
{
    match overrun(moment_of(&task), terms) {
        Some(most) => RequestTask::Ahead(most),
        None => task,
    }
}
