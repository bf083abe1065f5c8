//! Answers, before they are written.
ghost use Rattle.std.specs.Prelude.{◌≡◌, ◌⊎◌, ◌||◌, false, IfOk, string_bytes};
ghost use Rattle.plant_base.specs.{number_of};
ghost use Rattle.plant_http.specs.Answers.{ahead_out, body_bytes, Is, error_out, fault_out, csv_out, operator_out, reference_out, seq_out};
ghost use Rattle.plant_http.specs.Answers.{reply_out, answer_out, text_in, refused_status};
ghost use Rattle.plant_http.specs.Answers.{reply_status, answer_status, body_format_for, resource_status, resource_out};
ghost use Rattle.plant_http.specs.Answers.{check_out, health_out};

use crate::fixed_text::{
    FixedText, ahead_text, csv_text, health_text, operator_text, reference_text, seq_text,
    status_text,
};
use crate::media::{MediaType, media_of};
use crate::position::Position;
use desk_page::{Resource, bytes_of};
use plant_base::{Refusal, Text};
use plant_http_requests::{Allow, BodyFormat, Figures, Presentation, Status};
use plant_orders::CsvFault;
use plant_questions::{Answer as DeskAnswer, DeskFault, Reply};
use plant_text::{CheckAnswer, ReplyText, answer_text, check_text, fault_line, reply_line};
use plant_text_answers::record;
use std::alloc::{AllocError, Global};

/// The body of an answer. Only a long one takes memory, which is taken before anything is written.
#[derive(Debug, Drop)]
pub(crate) enum Body {
    /// The text of a reply or of a fault.
    Reply(ReplyText),
    /// A text of the server's own.
    Short(FixedText),
    /// The text of an answer.
    Long(String),
    /// A resource of the page, which takes no memory.
    Resource(Resource),
}

/// An answer, before it is written. `silent` where its body is left out.
#[derive(Debug, Drop)]
pub(crate) struct Response {
    pub(crate) status: Status,
    pub(crate) allow: Allow,
    pub(crate) media_type: MediaType,
    pub(crate) body: Body,
    pub(crate) silent: bool,
}

impl Body {
    /// The bytes of the body.
    pub(crate) fn as_bytes(&self) -> &[u8]
        ensures { result.now ≡ body_bytes self.now }
    {
        match self {
            Body::Reply(text) => text.as_bytes(),
            Body::Short(text) => text.as_bytes(),
            Body::Long(text) => text.as_bytes(),
            Body::Resource(resource) => bytes_of(*resource),
        }
    }
}

fn json(status: Status, body: Body, silent: bool) -> Response
    ensures { (result.status ≡ status) × (result.allow ≡ Allow.NoHeader) × (result.media_type ≡ MediaType.Json)
        × (body_bytes result.body ≡ body_bytes body) × (result.silent ≡ silent) }
{
    Response {
        status,
        allow: Allow::NoHeader,
        media_type: MediaType::Json,
        body,
        silent,
    }
}

/// An answer that is a status alone.
pub(crate) fn error_answer(status: Status, allow: Allow, silent: bool) -> Response
    ensures { Is (error_out status allow) silent result }
{
    Response {
        status,
        allow,
        media_type: MediaType::Json,
        body: Body::Short(status_text(status)),
        silent,
    }
}

/// A client that has a resource as it is learns just that (RFC 9110, section 15.4.5).
fn resource_status(is_current: bool) -> Status
    ensures { result ≡ resource_status is_current }
{
    if is_current {
        Status::NotModified
    } else {
        Status::Success
    }
}

/// A resource of the page, whose bytes are left out for a client that has it as it is. It takes no memory.
pub(crate) fn resource_answer(resource: Resource, is_current: bool, silent: bool) -> Response
    ensures { Is (resource_out resource is_current) (is_current || silent) result }
{
    Response {
        status: resource_status(is_current),
        allow: Allow::NoHeader,
        media_type: MediaType::Resource(resource),
        body: Body::Resource(resource),
        silent: is_current || silent,
    }
}

/// A fault of the keeper, or want of memory.
pub(crate) fn fault_answer(fault: DeskFault, silent: bool) -> Response
    ensures { Is (fault_out fault) silent result }
{
    json(Status::Unavailable, Body::Reply(fault_line(fault)), silent)
}

/// The operator whom a head names. It takes no memory.
pub(crate) fn operator_answer(operator: &Text, silent: bool) -> Response
    ensures { Is (operator_out operator.now) silent result }
{
    json(
        Status::Success,
        Body::Short(operator_text(operator)),
        silent,
    )
}

/// How the server fares and is presented, and the schema, the number and the moment of the last accepted command. It takes no memory.
pub(crate) fn health_answer(
    presentation: &Presentation,
    figures: &Figures,
    position: Position,
    silent: bool,
) -> Response
    ensures { Is (health_out presentation.now figures.now position.schema position.seq position.at) silent result }
{
    json(
        Status::Success,
        Body::Short(health_text(
            presentation,
            figures,
            position.schema,
            position.seq,
            position.at,
        )),
        silent,
    )
}

/// A command that lacks the reference that it has to have.
pub(crate) fn reference_answer() -> Response
    ensures { Is reference_out false result }
{
    json(Status::BadRequest, Body::Short(reference_text()), false)
}

/// A command that is ahead of the machine's clock by more than so many seconds.
pub(crate) fn ahead_answer(most: u32) -> Response
    ensures { Is (ahead_out most) false result }
{
    json(Status::BadRequest, Body::Short(ahead_text(most)), false)
}

/// The number of accepted commands, where another one was asked for. It takes no memory.
pub(crate) fn seq_answer(seq: u64, silent: bool) -> Response
    ensures { Is (seq_out seq) silent result }
{
    json(
        Status::PreconditionFailed,
        Body::Short(seq_text(seq)),
        silent,
    )
}

/// The fault of an order file.
pub(crate) fn csv_answer(fault: CsvFault) -> Response
    ensures { Is (csv_out fault) false result }
{
    json(Status::BadRequest, Body::Short(csv_text(fault)), false)
}

/// A command that isn't well formed is a bad request; one that the desk's state refuses is a conflict.
fn refused_status(refusal: Refusal) -> Status
    ensures { result ≡ refused_status (number_of refusal) }
{
    if refusal.number() == 1 {
        Status::BadRequest
    } else {
        Status::Conflict
    }
}

fn reply_status(reply: &Reply) -> Status
    ensures { result ≡ reply_status reply.now }
{
    match reply {
        Reply::Accepted(_) => Status::Success,
        Reply::Refused(refusal) => refused_status(*refusal),
    }
}

/// The reply to a command. It takes no memory.
pub(crate) fn reply_answer(reply: &Reply) -> Response
    ensures { Is (reply_out reply.now) false result }
{
    json(reply_status(reply), Body::Reply(reply_line(reply)), false)
}

fn answer_status(answer: &DeskAnswer) -> Status
    ensures { result ≡ answer_status answer.now }
{
    match answer {
        DeskAnswer::Unknown(_) => Status::NotFound,
        _ => Status::Success,
    }
}

/// The format in which an answer is written: only a batch has a record.
fn body_format_for(body_format: BodyFormat, answer: &DeskAnswer) -> BodyFormat
    ensures { result ≡ body_format_for body_format answer.now }
{
    match answer {
        DeskAnswer::Batch(_) => body_format,
        _ => BodyFormat::Json,
    }
}

/// The text of an answer in a format.
fn text_in(
    alloc: Global,
    body_format: BodyFormat,
    answer: &DeskAnswer,
) -> Result<String, AllocError>
    ensures { IfOk result (λ text. string_bytes text ≡ text_in body_format answer.now) }
{
    match answer {
        DeskAnswer::Batch(view) => match body_format {
            BodyFormat::Json => answer_text(alloc, answer),
            BodyFormat::Record => record(alloc, view),
        },
        _ => answer_text(alloc, answer),
    }
}

/// The answer to a question. Its text is made before anything is written; where memory is refused for it, the answer
/// reports that fault.
pub(crate) fn asked_answer(
    alloc: Global,
    body_format: BodyFormat,
    answer: &DeskAnswer,
    silent: bool,
) -> Response
    ensures { Is (answer_out body_format answer.now) silent result ⊎ Is (fault_out DeskFault.Memory) silent result }
{
    match text_in(alloc, body_format, answer) {
        Ok(text) => Response {
            status: answer_status(answer),
            allow: Allow::NoHeader,
            media_type: media_of(body_format_for(body_format, answer)),
            body: Body::Long(text),
            silent,
        },
        Err(_) => fault_answer(DeskFault::Memory, silent),
    }
}

/// The answer to a check. Its text is made before anything is written; where memory is refused for it, the answer reports
/// that fault.
pub(crate) fn check_answer(alloc: Global, answer: &CheckAnswer) -> Response
    ensures { Is (check_out answer.now) false result ⊎ Is (fault_out DeskFault.Memory) false result }
{
    match check_text(alloc, answer) {
        Ok(text) => json(Status::Success, Body::Long(text), false),
        Err(_) => fault_answer(DeskFault::Memory, false),
    }
}
