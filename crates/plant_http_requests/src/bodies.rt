//! What a body asks for.
ghost use Rattle.std.specs.Prelude.{◌≡◌};
ghost use Rattle.plant_orders.specs.{orders_of};
ghost use Rattle.plant_text.specs.{line_of, text_checked};
ghost use Rattle.plant_http_requests.specs.declared.task.RequestTask.TheVariants as J;
ghost use Rattle.plant_http_requests.specs.Tasks.{command_task, command_of};
ghost use Rattle.plant_http_requests.specs.Tasks.{file_task, fault_task, body_task, body_says, Reads};

use crate::in_time::in_time;
use crate::profile::Terms;
use crate::references::{referred, with_reference};
use crate::senders::of_sender;
use crate::status::Status;
use crate::steps::refusal_of;
use crate::task::{BodyKind, RequestTask, Sender};
use plant_orders::{CsvFault, CsvKind, ImportMetadata, import, read_orders};
use plant_text::{Line, LineFault, read_line, read_to_check};
use std::alloc::Global;

/// What a body asks for that was read as a line. A question or a check is no command.
fn command_of(read: Result<Line, LineFault>) -> RequestTask
    ensures { result ≡ command_of read }
{
    match read {
        Ok(Line::Command(envelope)) => RequestTask::Command(envelope),
        Ok(Line::Question(_) | Line::Check(_)) => RequestTask::BadForm,
        Err(LineFault::BadForm) => RequestTask::BadForm,
        Err(LineFault::Memory) => RequestTask::MemoryError,
    }
}

fn command_task(alloc: Global, body: &[u8]) -> RequestTask
    ensures { Reads result (command_task (line_of body.now)) }
{
    command_of(read_line(alloc, body))
}

fn check_task(alloc: Global, body: &[u8]) -> RequestTask
    ensures { Reads result (J.Check (text_checked body.now)) }
{
    match read_to_check(alloc, body) {
        Ok(to_check) => RequestTask::Check(to_check),
        Err(_) => RequestTask::MemoryError,
    }
}

fn fault_task(fault: CsvFault) -> RequestTask
    ensures { result ≡ fault_task fault }
{
    match fault.kind {
        CsvKind::Memory => RequestTask::MemoryError,
        _ => RequestTask::BadFile(fault),
    }
}

fn file_task(alloc: Global, import_metadata: ImportMetadata, body: &[u8]) -> RequestTask
    ensures { Reads result (file_task import_metadata (orders_of body.now)) }
{
    match read_orders(alloc, body) {
        Ok(orders) => RequestTask::Command(import(import_metadata, orders)),
        Err(fault) => fault_task(fault),
    }
}

/// What a body says that is there whole.
#[tactic(auto, using(crate::proofs::JudgedCommands::referred_reads))]
fn body_says(alloc: Global, content: BodyKind, body: &[u8]) -> RequestTask
    ensures { Reads result (body_says content body.now) }
{
    match content {
        BodyKind::Command(given) => referred(given, command_task(alloc, body)),
        BodyKind::Check(given) => referred(given, check_task(alloc, body)),
        BodyKind::Orders(import_metadata) => file_task(alloc, import_metadata, body),
        BodyKind::BadFields => refusal_of(Status::BadRequest, false),
    }
}

/// What a body asks for that is there whole: what it says, unless its command is another operator's than the sender's, lacks a reference that it needs,
/// or is too far ahead of the machine's clock. The first of these decides.
#[tactic(auto, using(crate::proofs::JudgedCommands::judged_reads))]
pub(crate) fn body_task(
    alloc: Global,
    terms: Terms<'_>,
    sender: Sender,
    content: BodyKind,
    body: &[u8],
) -> RequestTask
    ensures { Reads result (body_task terms.entry sender content body.now) }
{
    let said = of_sender(sender, body_says(alloc, content, body));
    in_time(terms, with_reference(terms.needs_references, said))
}
