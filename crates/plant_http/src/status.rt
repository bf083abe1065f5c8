//! The numbers and the phrases of statuses.
ghost use Rattle.std.specs.Prelude.{◌≡◌, ◌≤◌, Some, length};
ghost use Rattle.http.specs.StatusCode.{reason_phrase};
ghost use Rattle.plant_http.specs.Answers.{code_of, phrase_of, allow_line};

use http::StatusCode;
use plant_http_requests::{Allow, Status};

/// The status of `http` that is answered.
fn status_code(status: Status) -> StatusCode
    ensures { result ≡ code_of status }
{
    match status {
        Status::Success => StatusCode::OK,
        Status::NotModified => StatusCode::NOT_MODIFIED,
        Status::BadRequest => StatusCode::BAD_REQUEST,
        Status::Forbidden => StatusCode::FORBIDDEN,
        Status::NotFound => StatusCode::NOT_FOUND,
        Status::MethodNotAllowed => StatusCode::METHOD_NOT_ALLOWED,
        Status::Conflict => StatusCode::CONFLICT,
        Status::LengthRequired => StatusCode::LENGTH_REQUIRED,
        Status::PreconditionFailed => StatusCode::PRECONDITION_FAILED,
        Status::PayloadTooLarge => StatusCode::PAYLOAD_TOO_LARGE,
        Status::HeadTooLarge => StatusCode::REQUEST_HEADER_FIELDS_TOO_LARGE,
        Status::NotImplemented => StatusCode::NOT_IMPLEMENTED,
        Status::Unavailable => StatusCode::SERVICE_UNAVAILABLE,
    }
}

/// The number of a status (RFC 9110, section 15; of `HeadTooLarge` RFC 6585, section 5).
pub(crate) fn code_of(status: Status) -> u16
    ensures { result ≡ code_of status }
{
    status_code(status).as_u16()
}

/// The phrase of a status, as `http` has it.
pub(crate) fn phrase_of(status: Status) -> &'static str
    ensures value { result.now ≡ phrase_of status }
    ensures http { reason_phrase (code_of status) ≡ Some (phrase_of status) }
    ensures short { length result.now ≤ 31 }
{
    match status_code(status).canonical_reason() {
        Some(phrase) => phrase,
        None => unreachable!(),
    }
}

/// The line of the field Allow (RFC 9110, section 10.2.1) with its CR LF; empty where no methods are named.
pub(crate) fn allow_line(allow: Allow) -> &'static str
    ensures value { result.now ≡ allow_line allow }
    ensures short { length result.now ≤ 18 }
{
    match allow {
        Allow::NoHeader => "",
        Allow::Get => "Allow: GET, HEAD\r\n",
        Allow::Post => "Allow: POST\r\n",
    }
}
