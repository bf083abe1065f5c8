//! From the bytes of a head to what it decides.
ghost use Rattle.plant_http_requests.specs.Tasks.{StepOf};

use crate::parse::{MOST_FIELDS, has_too_many_fields, parse_head};
use crate::profile::Terms;
use crate::routes::Routes;
use crate::status::Status;
use crate::steps::{fails, request_step};
use crate::task::HeadStep;
use httparse::spans::EMPTY_HEADER_SPAN;

/// What a head decides: 431 for more than 32 lines of fields, 400 where it isn't one head of HTTP/1.1, else what its parts ask
/// for.
pub(crate) fn step_of_head(terms: Terms<'_>, routes: &Routes, head: &[u8]) -> HeadStep
    ensures { StepOf terms.entry head.now result }
{
    if has_too_many_fields(head) {
        return fails(Status::HeadTooLarge, false);
    }
    let mut fields = [EMPTY_HEADER_SPAN; MOST_FIELDS];
    let Some(request) = parse_head(head, &mut fields) else {
        return fails(Status::BadRequest, false);
    };
    request_step(terms, head, &fields[..request.headers], &request, routes)
}
