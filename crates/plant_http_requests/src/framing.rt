//! What the fields of a request say of its body, and whether it may be answered.
ghost use Rattle.std.specs.Prelude.{◌≡◌, length, map, All};
ghost use Rattle.httparse.specs.Spans.{IsHeaderWithin, header_bytes};
ghost use Rattle.plant_http_requests.specs.Framing.{body_length, framing};

use crate::fields::{count_named, value_named};
use crate::origins::is_permitted;
use crate::profile::Profile;
use crate::status::Status;
use httparse::spans::HeaderSpan;
use plant_base::read_digits;

/// The most bytes of a body.
const LONGEST_BODY: u64 = 262_144;

/// The length of the body that Content-Length names (RFC 9112, sections 6.2 and 6.3), `None` where there is no such
/// field.
#[tactic(auto, unfolding(crate::specs::Framing::body_length))]
fn body_length(head: &[u8], fields: &[HeaderSpan]) -> Result<Option<u32>, Status>
    requires { All (IsHeaderWithin (length head.now)) fields.now }
    ensures { result ≡ body_length (map (header_bytes head.now) fields.now) }
{
    let count = count_named(head, fields, b"content-length");
    if count == 0 {
        return Ok(None);
    }
    if count != 1 {
        return Err(Status::BadRequest);
    }
    let Some(text) = value_named(head, fields, b"content-length") else {
        return Err(Status::BadRequest);
    };
    let Some(number) = read_digits(text, 18) else {
        return Err(Status::BadRequest);
    };
    if number > LONGEST_BODY {
        return Err(Status::PayloadTooLarge);
    }
    Ok(Some(number as u32))
}

/// The body's length where one is named, or the status of the first rule on fields that is broken: 400 for a number of
/// Host fields that the version doesn't have, 403 for a host or a site that the profile doesn't serve, 501 for a Transfer-Encoding, 400 for Content-Length more than once or not
/// in 1 to 18 digits, 413 for one above 262,144.
/// The rule of Host is that of RFC 9112, section 3.2; a transfer coding that isn't implemented is answered as in
/// section 6.1, a length that isn't valid as in section 6.3.
#[tactic(auto, unfolding(crate::specs::Framing::framing))]
pub(crate) fn framing(
    profile: Profile<'_>,
    head: &[u8],
    fields: &[HeaderSpan],
    minor: u8,
) -> Result<Option<u32>, Status>
    requires { All (IsHeaderWithin (length head.now)) fields.now }
    ensures { result ≡ framing profile.entry minor (map (header_bytes head.now) fields.now) }
{
    let hosts = count_named(head, fields, b"host");
    let has_host = if minor == 1 { hosts == 1 } else { hosts <= 1 };
    if !has_host {
        return Err(Status::BadRequest);
    }
    if !is_permitted(profile, head, fields) {
        return Err(Status::Forbidden);
    }
    if count_named(head, fields, b"transfer-encoding") != 0 {
        return Err(Status::NotImplemented);
    }
    body_length(head, fields)
}
