//! Whose commands a request may bring.
ghost use Rattle.std.specs.Prelude.{◌≡◌, length, map, option_copied, All};
ghost use Rattle.httparse.specs.Spans.{IsHeaderWithin, header_bytes};
ghost use Rattle.plant_base.specs.{only};
ghost use Rattle.plant_http_requests.specs.Senders.{is_of_other, is_operator, may_be, of_sender};
ghost use Rattle.plant_http_requests.specs.Senders.{operator_named, operator_of, sender_in};

use crate::fields::{count_named, value_named};
use crate::task::{RequestTask, Sender};
use httparse::spans::HeaderSpan;
use plant_base::Text;
use plant_text::ToCheck;

/// The operator that bytes are: a text that isn't empty.
fn read_operator(bytes: &[u8]) -> Option<Text>
    ensures { result ≡ only is_operator bytes.now }
{
    if bytes.is_empty() {
        return None;
    }
    Text::read(bytes)
}

/// The operator whom the fields name: exactly one field has this name, and its value is a text that isn't empty.
#[tactic(auto, unfolding(crate::specs::Senders::operator_named))]
fn operator_named(head: &[u8], fields: &[HeaderSpan], name: &[u8]) -> Option<Text>
    requires { All (IsHeaderWithin (length head.now)) fields.now }
    ensures { result ≡ operator_named name.now (map (header_bytes head.now) fields.now) }
{
    if count_named(head, fields, name) != 1 {
        return None;
    }
    match value_named(head, fields, name) {
        Some(value) => read_operator(value),
        None => None,
    }
}

/// Whose commands a request with these fields may bring, by the name of the field that says so: anyone's where none does.
pub(crate) fn sender_in(head: &[u8], fields: &[HeaderSpan], operator_field: Option<&[u8]>) -> Sender
    requires { All (IsHeaderWithin (length head.now)) fields.now }
    ensures { result ≡ sender_in (option_copied operator_field.entry) (map (header_bytes head.now) fields.now) }
{
    let Some(name) = operator_field else {
        return Sender::Anyone;
    };
    match operator_named(head, fields, name) {
        Some(operator) => Sender::Operator(operator),
        None => Sender::Nobody,
    }
}

/// The operator of the command that is to be executed or checked.
fn operator_of(task: &RequestTask) -> Option<Text>
    ensures { result ≡ operator_of task.now }
{
    match task {
        RequestTask::Command(envelope) | RequestTask::Check(ToCheck::Command(envelope)) => Some(
            envelope.by,
        ),
        _ => None,
    }
}

/// Whether the sender may give a command as this operator.
fn may_be(sender: Sender, by: Text) -> bool
    ensures { result ≡ may_be sender by }
{
    match sender {
        Sender::Anyone => true,
        Sender::Operator(operator) => by.as_bytes() == operator.as_bytes(),
        Sender::Nobody => false,
    }
}

/// Whether there is an operator of a command, and the sender may not give a command as this one.
fn is_of_other(sender: Sender, by: Option<Text>) -> bool
    ensures { result ≡ is_of_other sender by }
{
    match by {
        Some(by) => !may_be(sender, by),
        None => false,
    }
}

/// The task, where the sender may give its command.
pub(crate) fn of_sender(sender: Sender, task: RequestTask) -> RequestTask
    ensures { result ≡ of_sender sender task }
{
    if is_of_other(sender, operator_of(&task)) {
        return RequestTask::OtherOperator;
    }
    task
}
