//! The reference of a command: the one that the head gives it, and whether it has the one that it needs.
ghost use Rattle.std.specs.Prelude.{◌≡◌};
ghost use Rattle.plant_http_requests.specs.References.{lacks_reference, referred, with_given, with_reference};

use crate::task::RequestTask;
use plant_base::{Envelope, Id};
use plant_text::ToCheck;

/// The command with the given reference, where it says none itself.
fn with_given(given: Option<Id>, envelope: Envelope) -> Envelope
    ensures { result ≡ with_given given envelope }
{
    if envelope.reference.is_some() {
        return envelope;
    }
    Envelope {
        reference: given,
        ..envelope
    }
}

/// The task, whose command, to be executed or checked, has the given reference where it says none itself.
pub(crate) fn referred(given: Option<Id>, task: RequestTask) -> RequestTask
    ensures { result ≡ referred given task }
{
    match task {
        RequestTask::Command(envelope) => RequestTask::Command(with_given(given, envelope)),
        RequestTask::Check(ToCheck::Command(envelope)) => RequestTask::Check(ToCheck::Command(
            with_given(given, envelope),
        )),
        other => other,
    }
}

/// Whether a command is to be executed and has no reference. One that is to be checked needs none: it may get its reference after the check.
fn lacks_reference(task: &RequestTask) -> bool
    ensures { result ≡ lacks_reference task.now }
{
    match task {
        RequestTask::Command(envelope) => envelope.reference.is_none(),
        _ => false,
    }
}

/// The task, where its command has a reference or needs none.
pub(crate) fn with_reference(needs_references: bool, task: RequestTask) -> RequestTask
    ensures { result ≡ with_reference needs_references task }
{
    if needs_references && lacks_reference(&task) {
        return RequestTask::NoReference;
    }
    task
}
