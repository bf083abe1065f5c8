//! The media types of answers, and the policy of the page.
ghost use Rattle.std.specs.Prelude.{◌≡◌, ◌≤◌, length};
ghost use Rattle.plant_http.specs.Answers.{is_page, media_of, type_of, policy_bytes};

use desk_page::{Resource, media_type_of, policy_text};
use plant_http_requests::BodyFormat;

/// What the bytes of an answer's body are (RFC 9110, section 8.3.1).
#[derive(Clone, Copy, Debug, PartialEq, Eq)]
pub(crate) enum MediaType {
    /// JSON.
    Json,
    /// The batch record, a plain text.
    Plain,
    /// A resource of the page.
    Resource(Resource),
}

/// The media type of a format in which an answer is written.
pub(crate) fn media_of(body_format: BodyFormat) -> MediaType
    ensures { result ≡ media_of body_format }
{
    match body_format {
        BodyFormat::Json => MediaType::Json,
        BodyFormat::Record => MediaType::Plain,
    }
}

/// The name of a media type.
pub(crate) fn type_of(media_type: MediaType) -> &'static str
    ensures value { result.now ≡ type_of media_type }
    ensures short { length result.now ≤ 24 }
{
    match media_type {
        MediaType::Json => "application/json",
        MediaType::Plain => "text/plain",
        MediaType::Resource(resource) => media_type_of(resource),
    }
}

/// Whether a resource is the page itself.
pub(crate) fn is_page(resource: Resource) -> bool
    ensures { result ≡ is_page resource }
{
    resource == Resource::Page
}

/// The policy under which a browser shows the page.
#[tactic(auto, unfolding(crate::specs::Answers::policy_bytes))]
pub(crate) fn policy() -> &'static str
    ensures value { result.now ≡ policy_bytes }
    ensures short { length result.now ≤ 400 }
{
    policy_text()
}
