//! The fields of a request, and what they say of its body.
ghost use Rattle.std.specs.Prelude.{◌≡◌, ◌≤◌, map, length, All, option_map, IfOk, IfSome};
ghost use Rattle.httparse.specs.Spans.{IsHeaderWithin, header_bytes};
ghost use Rattle.plant_base.specs.{is_id, is_moment, is_text, only};
ghost use Rattle.plant_http_requests.specs.Fields.{is_name, count_named, value_named, moment_in};
ghost use Rattle.plant_http_requests.specs.Fields.{only_moment, operator_in, reference_in};
ghost use Rattle.plant_http_requests.specs.Fields.{reference_named, stamp_in, import_metadata_in};
ghost use Rattle.plant_http_requests.specs.Fields.{condition_in, seq_in, seq_named};

use httparse::spans::HeaderSpan;
use plant_base::{GREATEST_SEQ, Id, Moment, Stamp, Text, read_digits};
use plant_orders::ImportMetadata;

/// Whether a field has this name; the case of letters doesn't count (RFC 9110, section 5.1).
pub(crate) fn has_name(head: &[u8], field: &HeaderSpan, name: &[u8]) -> bool
    requires { IsHeaderWithin (length head.now) field.now }
    ensures { result ≡ is_name name.now (header_bytes head.now field.now).0 }
{
    field.name.of(head).eq_ignore_ascii_case(name)
}

pub(crate) fn count_named(head: &[u8], fields: &[HeaderSpan], name: &[u8]) -> usize
    requires { All (IsHeaderWithin (length head.now)) fields.now }
    ensures { result ≡ count_named name.now (map (header_bytes head.now) fields.now) }
{
    let mut count = 0usize;
    for field in fields {
        if has_name(head, field, name) {
            count += 1;
        }
    }
    count
}

pub(crate) fn value_named<'h>(
    head: &'h [u8],
    fields: &[HeaderSpan],
    name: &[u8],
) -> Option<&'h [u8]>
    requires { All (IsHeaderWithin (length head.now)) fields.now }
    ensures { option_map (λ s. s.now) result ≡ value_named name.now
        (map (header_bytes head.now) fields.now) }
{
    for field in fields {
        if has_name(head, field, name) {
            return Some(field.value.of(head));
        }
    }
    None
}

/// The number of accepted commands that a text is.
fn read_seq(text: &[u8]) -> Option<u64>
    ensures { result ≡ seq_in text.now }
{
    let number = read_digits(text, 16)?;
    if number > GREATEST_SEQ {
        return None;
    }
    Some(number)
}

/// The number that the first field Desk-Seq says.
fn seq_named(head: &[u8], fields: &[HeaderSpan]) -> Option<u64>
    requires { All (IsHeaderWithin (length head.now)) fields.now }
    ensures { result ≡ seq_named (map (header_bytes head.now) fields.now) }
{
    match value_named(head, fields, b"desk-seq") {
        Some(text) => read_seq(text),
        None => None,
    }
}

/// The number of accepted commands at which alone the body is to be done, which may be left out. `None` where there are several fields
/// Desk-Seq, or the one isn't 1 to 16 digits, or above 10^15.
#[tactic(auto, unfolding(crate::specs::Fields::condition_in))]
pub(crate) fn condition_in(head: &[u8], fields: &[HeaderSpan]) -> Option<Option<u64>>
    requires { All (IsHeaderWithin (length head.now)) fields.now }
    ensures { result ≡ condition_in (map (header_bytes head.now) fields.now) }
{
    let count = count_named(head, fields, b"desk-seq");
    if count == 0 {
        return Some(None);
    }
    if count != 1 {
        return None;
    }
    Some(Some(seq_named(head, fields)?))
}

fn read_moment(text: &[u8]) -> Option<Moment>
    ensures { result ≡ moment_in text.now }
{
    Moment::new(read_digits(text, 12)?)
}

fn read_text(text: &[u8]) -> Option<Text>
    ensures { result ≡ only is_text text.now }
{
    Text::read(text)
}

/// The operator that the fields name: the empty text where none is named.
#[tactic(auto, unfolding(crate::specs::Fields::operator_in))]
fn operator_in(head: &[u8], fields: &[HeaderSpan]) -> Option<Text>
    requires { All (IsHeaderWithin (length head.now)) fields.now }
    ensures { result ≡ operator_in (map (header_bytes head.now) fields.now) }
{
    let count = count_named(head, fields, b"desk-by");
    if count == 0 {
        return read_text(b"");
    }
    if count != 1 {
        return None;
    }
    match value_named(head, fields, b"desk-by") {
        Some(text) => read_text(text),
        None => None,
    }
}

/// The reference that the one field which names it says.
fn reference_named(head: &[u8], fields: &[HeaderSpan]) -> Option<Id>
    requires { All (IsHeaderWithin (length head.now)) fields.now }
    ensures { result ≡ reference_named (map (header_bytes head.now) fields.now) }
{
    match value_named(head, fields, b"desk-ref") {
        Some(text) => Id::read(text),
        None => None,
    }
}

/// The reference that the fields name, which may be left out. `None` where there are several or the one is no id.
#[tactic(auto, unfolding(crate::specs::Fields::reference_in))]
pub(crate) fn reference_in(head: &[u8], fields: &[HeaderSpan]) -> Option<Option<Id>>
    requires { All (IsHeaderWithin (length head.now)) fields.now }
    ensures { result ≡ reference_in (map (header_bytes head.now) fields.now) }
{
    let count = count_named(head, fields, b"desk-ref");
    if count == 0 {
        return Some(None);
    }
    if count != 1 {
        return None;
    }
    Some(Some(reference_named(head, fields)?))
}

fn only_moment(head: &[u8], fields: &[HeaderSpan]) -> Option<Moment>
    requires { All (IsHeaderWithin (length head.now)) fields.now }
    ensures { result ≡ only_moment (map (header_bytes head.now) fields.now) }
{
    if count_named(head, fields, b"desk-at") != 1 {
        return None;
    }
    match value_named(head, fields, b"desk-at") {
        Some(text) => read_moment(text),
        None => None,
    }
}

/// The moment and the operator that an order file is taken with, and an empty note. `None` where there isn't one field
/// Desk-At with a moment in 1 to 12 digits, or there are several fields Desk-By or one with no text.
fn stamp_in(head: &[u8], fields: &[HeaderSpan]) -> Option<Stamp>
    requires { All (IsHeaderWithin (length head.now)) fields.now }
    ensures { result ≡ stamp_in (map (header_bytes head.now) fields.now) }
{
    let at = only_moment(head, fields)?;
    let by = operator_in(head, fields)?;
    let note = read_text(b"")?;
    Some(Stamp { at, by, note })
}

/// The same with the reference that an order file is taken under. `None` also where there are several fields Desk-Ref or
/// one with no id.
pub(crate) fn import_metadata_in(head: &[u8], fields: &[HeaderSpan]) -> Option<ImportMetadata>
    requires { All (IsHeaderWithin (length head.now)) fields.now }
    ensures { result ≡ import_metadata_in (map (header_bytes head.now) fields.now) }
{
    let stamp = stamp_in(head, fields)?;
    let reference = reference_in(head, fields)?;
    Some(ImportMetadata { stamp, reference })
}
