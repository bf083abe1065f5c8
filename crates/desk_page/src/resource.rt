//! What a browser loads for the page: each a resource of its own, with its path, its media type, its bytes and its entity tag.
ghost use Rattle.std.specs.Prelude.{◌≡◌, ◌≤◌, length};
ghost use Rattle.desk_page.specs.Resources.{bytes_of, media_type_of, resource_at, tag_of};

use crate::forms::{FORMS, FORMS_TAG};
use crate::frame::{FRAME, FRAME_TAG};
use crate::german::{GERMAN, GERMAN_TAG};
use crate::page::{PAGE, PAGE_TAG};
use crate::records::{RECORDS, RECORDS_TAG};
use crate::style::{STYLE, STYLE_TAG};
use crate::values::{VALUES, VALUES_TAG};
use crate::views::{VIEWS, VIEWS_TAG};

/// A resource of the page (RFC 9110, section 3.1).
#[derive(Clone, Copy, Debug, PartialEq, Eq)]
pub enum Resource {
    /// The page itself, `/`.
    Page,
    /// Its style, `/desk.css`.
    Style,
    /// What it computes of values, `/values.js`.
    Values,
    /// Its frame, and how it asks the desk, `/desk.js`.
    Frame,
    /// Its forms, and what it prints, `/forms.js`.
    Forms,
    /// What several of its views show, `/records.js`.
    Records,
    /// Its views, `/views.js`.
    Views,
    /// What its texts are in German, `/german.json`.
    German,
}

/// The resource at a path; `None` at any other.
pub fn resource_at(path: &[u8]) -> Option<Resource>
    ensures { result ≡ resource_at path.now }
{
    if path == b"/".as_slice() {
        Some(Resource::Page)
    } else if path == b"/desk.css".as_slice() {
        Some(Resource::Style)
    } else if path == b"/values.js".as_slice() {
        Some(Resource::Values)
    } else if path == b"/desk.js".as_slice() {
        Some(Resource::Frame)
    } else if path == b"/forms.js".as_slice() {
        Some(Resource::Forms)
    } else if path == b"/records.js".as_slice() {
        Some(Resource::Records)
    } else if path == b"/views.js".as_slice() {
        Some(Resource::Views)
    } else if path == b"/german.json".as_slice() {
        Some(Resource::German)
    } else {
        None
    }
}

/// The bytes of a resource, all in ASCII.
#[tactic(auto, unfolding(crate::specs::Resources::bytes_of))]
pub fn bytes_of(resource: Resource) -> &'static [u8]
    ensures { result.now ≡ bytes_of resource }
{
    match resource {
        Resource::Page => PAGE,
        Resource::Style => STYLE,
        Resource::Values => VALUES,
        Resource::Frame => FRAME,
        Resource::Forms => FORMS,
        Resource::Records => RECORDS,
        Resource::Views => VIEWS,
        Resource::German => GERMAN,
    }
}

/// The entity tag of a resource, at most 40 bytes with its quotation marks, in which there are none: it changes with the
/// bytes (RFC 9110, section 8.8.3).
#[tactic(auto, unfolding(crate::specs::Resources::tag_of))]
pub fn tag_of(resource: Resource) -> &'static str
    ensures value { result.now ≡ tag_of resource }
    ensures short { length result.now ≤ 40 }
{
    match resource {
        Resource::Page => PAGE_TAG,
        Resource::Style => STYLE_TAG,
        Resource::Values => VALUES_TAG,
        Resource::Frame => FRAME_TAG,
        Resource::Forms => FORMS_TAG,
        Resource::Records => RECORDS_TAG,
        Resource::Views => VIEWS_TAG,
        Resource::German => GERMAN_TAG,
    }
}

/// The media type of a resource, at most 24 bytes (RFC 9110, section 8.3.1; of a script RFC 9239, of JSON RFC 8259).
pub fn media_type_of(resource: Resource) -> &'static str
    ensures value { result.now ≡ media_type_of resource }
    ensures short { length result.now ≤ 24 }
{
    match resource {
        Resource::Page => "text/html; charset=utf-8",
        Resource::Style => "text/css",
        Resource::Values
        | Resource::Frame
        | Resource::Forms
        | Resource::Records
        | Resource::Views => "text/javascript",
        Resource::German => "application/json",
    }
}
