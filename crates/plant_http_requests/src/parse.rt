//! The head of a request, parsed: its request line and its field lines (RFC 9112, sections 3 and 5).
ghost use Rattle.std.specs.Prelude.{◌≡◌, None, length, nat_lt, IfSome, IfNone};
ghost use Rattle.httparse.specs.Grammar.{RequestHead};
ghost use Rattle.httparse.specs.Spans.{IsRequestWithin};
ghost use Rattle.plant_http_requests.specs.Heads.{field_lines, Parsed, ParsedAt};

use httparse::Status;
use httparse::spans::{HeaderSpan, RequestSpans, parse_request};

/// The most fields of a head.
pub(crate) const MOST_FIELDS: usize = 32;

/// Whether more than 32 lines of a head are fields.
pub(crate) fn has_too_many_fields(head: &[u8]) -> bool
    ensures { result ≡ nat_lt 32 (field_lines head.now) }
{
    let lines = head.iter().filter(|b| **b == b'\n').count();
    let blank = match head {
        [b'\n', ..] => 1,
        [b'\r', b'\n', ..] => 1,
        _ => 0,
    };
    lines.saturating_sub(2).saturating_sub(blank) > MOST_FIELDS
}

/// The positions of the parts of the head that the bytes are, where they are one whole head of at most 32 fields.
pub(crate) fn parse_head(head: &[u8], fields: &mut [HeaderSpan]) -> Option<RequestSpans>
    requires { length fields.old ≡ 32 }
    ensures found { IfSome result (λ r. IsRequestWithin head.now fields.new r
        × (h : RequestHead) × ParsedAt head.now fields.new r h) }
    ensures none { IfNone result (Parsed head.now None) }
{
    match parse_request(head, fields) {
        Ok(Status::Complete(r)) => { if r.len == head.len() { Some(r) } else { None } }
        _ => None,
    }
}
