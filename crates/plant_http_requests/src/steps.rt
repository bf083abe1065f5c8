//! What the head of a request decides.
ghost use Rattle.std.specs.Prelude.{◌≡◌, bytes_eq, length, map, option_copied, All};
ghost use Rattle.httparse.specs.Spans.{IsHeaderWithin, IsWithin, header_bytes, span_bytes};
ghost use Rattle.plant_http_requests.specs.Steps.{refused, refusal_of, fails, lacks_method, is_head, post_step};
ghost use Rattle.plant_http_requests.specs.Steps.{posted_step, asked_step, body_fields_in, kind_in, refused_task, under};
ghost use Rattle.plant_http_requests.specs.Steps.{target_step, resource_for, resource_step};
ghost use Rattle.plant_http_requests.specs.Steps.{routed_step, request_step, asks_operator, operator_step, unpaged_step};
ghost use Rattle.plant_http_requests.specs.Steps.{asks_health, health_step, listed_step};

use crate::fields::{condition_in, import_metadata_in, reference_in};
use crate::figures::Figures;
use crate::framing::framing;
use crate::profile::{Presentation, Profile, Terms};
use crate::routes::{BodyFormat, Post, Routes, Target};
use crate::senders::sender_in;
use crate::status::{Allow, Status};
use crate::task::{
    BodyFields, BodyKind, ConditionalTask, HeadDecision, HeadStep, RequestTask, Sender,
};
use crate::validators::is_current;
use desk_page::{Resource, resource_at, tag_of};
use http::Method;
use httparse::spans::{HeaderSpan, RequestSpans};
use plant_questions::Question;

/// A request that is answered by a status alone; no methods are named.
fn refused(status: Status, silent: bool) -> HeadDecision
    ensures { result ≡ refused status silent }
{
    HeadDecision::Refuse {
        status,
        allow: Allow::NoHeader,
        silent,
    }
}

/// The task of such a request.
pub(crate) fn refusal_of(status: Status, silent: bool) -> RequestTask
    ensures { result ≡ refusal_of status silent }
{
    RequestTask::Decided(refused(status, silent))
}

/// The task that is done whatever number of commands was accepted.
pub(crate) fn unconditional(task: RequestTask) -> ConditionalTask
    ensures { result ≡ under None task }
{
    ConditionalTask {
        condition: None,
        task,
    }
}

/// The same of a request that is answered by a status alone.
pub(crate) fn refused_task(status: Status, silent: bool) -> ConditionalTask
    ensures { result ≡ refused_task status silent }
{
    unconditional(refusal_of(status, silent))
}

/// The step of such a request.
pub(crate) fn fails(status: Status, silent: bool) -> HeadStep
    ensures { result ≡ fails status silent }
{
    HeadStep::Decided(refused(status, silent))
}

/// A request whose method the path doesn't have (405, RFC 9110, section 15.5.6): the answer names those that it has.
fn lacks_method(allow: Allow, silent: bool) -> HeadStep
    ensures { result ≡ lacks_method allow silent }
{
    HeadStep::Decided(HeadDecision::Refuse {
        status: Status::MethodNotAllowed,
        allow,
        silent,
    })
}

/// Whether bytes are the name of a method (RFC 9110, section 9).
fn is_method(bytes: &[u8], method: &Method) -> bool
    ensures { result ≡ bytes_eq bytes.now method.now }
{
    bytes == method.as_str().as_bytes()
}

/// Whether the method is HEAD, whose answer has no body (RFC 9110, section 9.3.2).
fn is_head(method: &[u8]) -> bool
    ensures { result ≡ is_head method.now }
{
    is_method(method, &Method::HEAD)
}

/// A path that takes a body by POST.
/// It has to name the body's length, or it is answered 411 (RFC 9112, section 6.3).
fn posted_step(fields: BodyFields, sender: Sender, method: &[u8], size: Option<u32>) -> HeadStep
    ensures { result ≡ posted_step fields sender method.now size }
{
    if is_method(method, &Method::POST) {
        return match size {
            Some(size) => HeadStep::Body {
                size,
                fields,
                sender,
            },
            None => fails(Status::LengthRequired, false),
        };
    }
    lacks_method(Allow::Post, is_head(method))
}

/// A path that is asked by GET, or by HEAD.
fn asked_step(question: Question, body_format: BodyFormat, method: &[u8]) -> HeadStep
    ensures { result ≡ asked_step question body_format method.now }
{
    let silent = is_head(method);
    if is_method(method, &Method::GET) || silent {
        return HeadStep::Decided(HeadDecision::Ask {
            question,
            body_format,
            silent,
        });
    }
    lacks_method(Allow::Get, false)
}

/// What a path brings by POST. `None` where a field that it looks at breaks its rule.
fn kind_in(head: &[u8], fields: &[HeaderSpan], post: Post) -> Option<BodyKind>
    requires { All (IsHeaderWithin (length head.now)) fields.now }
    ensures { result ≡ kind_in post (map (header_bytes head.now) fields.now) }
{
    match post {
        Post::Command => Some(BodyKind::Command(reference_in(head, fields)?)),
        Post::Check => Some(BodyKind::Check(reference_in(head, fields)?)),
        Post::Orders => Some(BodyKind::Orders(import_metadata_in(head, fields)?)),
    }
}

/// What the fields of a head say of the body that a path brings by POST.
fn body_fields_in(head: &[u8], fields: &[HeaderSpan], post: Post) -> BodyFields
    requires { All (IsHeaderWithin (length head.now)) fields.now }
    ensures { result ≡ body_fields_in post (map (header_bytes head.now) fields.now) }
{
    let bad_fields = BodyFields {
        content: BodyKind::BadFields,
        condition: None,
    };
    let Some(condition) = condition_in(head, fields) else {
        return bad_fields;
    };
    let Some(content) = kind_in(head, fields, post) else {
        return bad_fields;
    };
    BodyFields { content, condition }
}

fn target_step(
    terms: Terms<'_>,
    head: &[u8],
    fields: &[HeaderSpan],
    target: Target,
    method: &[u8],
    size: Option<u32>,
) -> HeadStep
    requires { All (IsHeaderWithin (length head.now)) fields.now }
    ensures { result ≡ target_step terms.entry target method.now size (map (header_bytes head.now) fields.now) }
{
    match target {
        Target::Question(question, body_format) => asked_step(question, body_format, method),
        Target::Post(post) => posted_step(
            body_fields_in(head, fields, post),
            sender_in(head, fields, terms.operator_field),
            method,
            size,
        ),
    }
}

/// The resource of the page at a path: only the profile that serves the page has one.
fn resource_for(profile: Profile<'_>, path: &[u8]) -> Option<Resource>
    ensures { result ≡ resource_for profile.entry path.now }
{
    match profile {
        Profile::Open => None,
        Profile::Page { .. } => resource_at(path),
    }
}

/// A resource of the page, by GET or by HEAD. A client that has it as it is gets its tag and no bytes.
fn resource_step(head: &[u8], fields: &[HeaderSpan], resource: Resource, method: &[u8]) -> HeadStep
    requires { All (IsHeaderWithin (length head.now)) fields.now }
    ensures { result ≡ resource_step resource method.now (map (header_bytes head.now) fields.now) }
{
    let silent = is_head(method);
    if is_method(method, &Method::GET) || silent {
        return HeadStep::Decided(HeadDecision::Resource {
            resource,
            is_current: is_current(head, fields, tag_of(resource).as_bytes()),
            silent,
        });
    }
    lacks_method(Allow::Get, false)
}

/// Whether a client asks at this path who it is: only where a field says so.
fn asks_operator(operator_field: Option<&[u8]>, path: &[u8]) -> bool
    ensures { result ≡ asks_operator (option_copied operator_field.entry) path.now }
{
    match operator_field {
        Some(_) => path == b"/v1/operator".as_slice(),
        None => false,
    }
}

/// The operator whom a head names, by GET or by HEAD; 403 where it doesn't name one.
fn operator_step(sender: Sender, method: &[u8]) -> HeadStep
    ensures { result ≡ operator_step sender method.now }
{
    let silent = is_head(method);
    if is_method(method, &Method::GET) || silent {
        return match sender {
            Sender::Operator(operator) => HeadStep::Decided(HeadDecision::Operator {
                operator,
                silent,
            }),
            _ => fails(Status::Forbidden, silent),
        };
    }
    lacks_method(Allow::Get, false)
}

/// Whether a client asks at this path how the server fares.
fn asks_health(path: &[u8]) -> bool
    ensures { result ≡ asks_health path.now }
{
    path == b"/v1/health".as_slice()
}

/// How the server fares, by GET or by HEAD.
fn health_step(presentation: Presentation, figures: Figures, method: &[u8]) -> HeadStep
    ensures { result ≡ health_step presentation figures method.now }
{
    let silent = is_head(method);
    if is_method(method, &Method::GET) || silent {
        return HeadStep::Decided(HeadDecision::Health {
            presentation,
            figures,
            silent,
        });
    }
    lacks_method(Allow::Get, false)
}

/// What a path and a method decide where nobody asks for an operator: how the server fares, or what the path is looked up as.
fn listed_step(
    terms: Terms<'_>,
    head: &[u8],
    fields: &[HeaderSpan],
    routes: &Routes,
    method: &[u8],
    path: &[u8],
    size: Option<u32>,
) -> HeadStep
    requires { All (IsHeaderWithin (length head.now)) fields.now }
    ensures { result ≡ listed_step terms.entry path.now method.now size (map (header_bytes head.now) fields.now) }
{
    if asks_health(path) {
        let (name, language) = (*terms.name, *terms.language);
        let presentation = Presentation { name, language };
        return health_step(presentation, terms.now.figures, method);
    }
    match routes.find(path) {
        Some(target) => target_step(terms, head, fields, target, method, size),
        None => fails(Status::NotFound, is_head(method)),
    }
}

/// What a path decides that is none of a resource of the page, and a method.
fn unpaged_step(
    terms: Terms<'_>,
    head: &[u8],
    fields: &[HeaderSpan],
    routes: &Routes,
    method: &[u8],
    path: &[u8],
    size: Option<u32>,
) -> HeadStep
    requires { All (IsHeaderWithin (length head.now)) fields.now }
    ensures { result ≡ unpaged_step terms.entry path.now method.now size (map (header_bytes head.now) fields.now) }
{
    if asks_operator(terms.operator_field, path) {
        return operator_step(sender_in(head, fields, terms.operator_field), method);
    }
    listed_step(terms, head, fields, routes, method, path, size)
}

/// What a path and a method decide.
fn routed_step(
    terms: Terms<'_>,
    head: &[u8],
    fields: &[HeaderSpan],
    routes: &Routes,
    method: &[u8],
    path: &[u8],
    size: Option<u32>,
) -> HeadStep
    requires { All (IsHeaderWithin (length head.now)) fields.now }
    ensures { result ≡ routed_step terms.entry path.now method.now size (map (header_bytes head.now) fields.now) }
{
    if let Some(resource) = resource_for(terms.profile, path) {
        return resource_step(head, fields, resource, method);
    }
    unpaged_step(terms, head, fields, routes, method, path, size)
}

/// What a parsed head decides.
#[tactic(auto, unfolding(crate::specs::Steps::request_step))]
pub(crate) fn request_step(
    terms: Terms<'_>,
    head: &[u8],
    fields: &[HeaderSpan],
    request: &RequestSpans,
    routes: &Routes,
) -> HeadStep
    requires fields { All (IsHeaderWithin (length head.now)) fields.now }
    requires method { IsWithin (length head.now) request.now.method }
    requires path { IsWithin (length head.now) request.now.path }
    ensures { result ≡ request_step terms.entry (span_bytes head.now request.now.method)
        (span_bytes head.now request.now.path) request.now.version (map (header_bytes head.now) fields.now) }
{
    let method = request.method.of(head);
    let path = request.path.of(head);
    match framing(terms.profile, head, fields, request.version) {
        Err(status) => fails(status, is_head(method)),
        Ok(size) => routed_step(terms, head, fields, routes, method, path, size),
    }
}
