//! Whether a client has a resource as it is (If-None-Match, RFC 9110, section 13.1.2).
ghost use Rattle.std.specs.Prelude.{◌≡◌, length, map, All};
ghost use Rattle.httparse.specs.Spans.{IsHeaderWithin, header_bytes};
ghost use Rattle.plant_http_requests.specs.Validators.{has_part, is_current, names_tag};

use crate::fields::has_name;
use httparse::spans::HeaderSpan;

/// Whether a text has this part.
fn has_part(text: &[u8], part: &[u8]) -> bool
    ensures { result ≡ has_part part.now text.now }
{
    let mut rest = text;
    while !rest.starts_with(part) {
        let Some((_, tail)) = rest.split_first() else {
            return false;
        };
        rest = tail;
    }
    true
}

/// Whether the value of a field names an entity tag, or any by `*`. Weak tags count as strong ones (section 8.8.3.2).
fn names_tag(value: &[u8], tag: &[u8]) -> bool
    ensures { result ≡ names_tag tag.now value.now }
{
    value == b"*".as_slice() || has_part(value, tag)
}

/// Whether the fields say that the client has the resource of this entity tag.
pub(crate) fn is_current(head: &[u8], fields: &[HeaderSpan], tag: &[u8]) -> bool
    requires { All (IsHeaderWithin (length head.now)) fields.now }
    ensures { result ≡ is_current tag.now (map (header_bytes head.now) fields.now) }
{
    for field in fields {
        if has_name(head, field, b"if-none-match") && names_tag(field.value.of(head), tag) {
            return true;
        }
    }
    false
}
