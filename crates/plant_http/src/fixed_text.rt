//! Short texts in a room of fixed size.
ghost use Rattle.std.specs.Prelude.{◌≡◌, ◌+◌, ◌*◌, ◌≤◌, ◌++◌, [], length, decimal};
ghost use Rattle.plant_orders.specs.{kind_name};
ghost use Rattle.plant_http.specs.Answers.{ahead_text, head_text, date_line, resource_lines, security_header_lines, validator_lines, status_text, csv_text, reference_text, seq_text};
ghost use Rattle.plant_http.specs.Answers.{count_text, counts_text, escaped, escaped_byte, health_text, operator_text};
ghost use Rattle.plant_http.specs.Answers.{text_or_null};

use crate::media::{MediaType, is_page, policy, type_of};
use crate::status::{allow_line, code_of, phrase_of};
use arrayvec::ArrayVec;
use desk_page::{Resource, tag_of};
use httpdate::HttpDate;
use itoa::Buffer;
use plant_base::{Moment, Text};
use plant_http_requests::{Allow, Figures, Presentation, Status, StatusCount};
use plant_orders::{CsvFault, CsvKind};
use std::marker::Model;

/// A text of at most 1100 bytes, which takes no memory.
#[derive(Debug, Drop)]
pub(crate) struct FixedText {
    room: ArrayVec<u8, 1100>,
}

impl Model for FixedText {
    ghost use Rattle.std.specs.Prelude.{ℕ, List};

    ghost Value = { List ℕ };

    ghost view = { λ s. s.room.items };
}

impl FixedText {
    fn new() -> Self
        ensures { result ≡ [] }
    {
        FixedText {
            room: ArrayVec::new(),
        }
    }

    fn push_bytes(&mut self, bytes: &[u8])
        requires { length self.old + length bytes.now ≤ 1100 }
        ensures text { self.new ≡ self.old ++ bytes.now }
        ensures grown { length self.new ≡ length self.old + length bytes.now }
    {
        let _ = self.room.try_extend_from_slice(bytes);
    }

    fn push(&mut self, text: &str)
        requires { length self.old + length text.now ≤ 1100 }
        ensures text { self.new ≡ self.old ++ text.now }
        ensures grown { length self.new ≡ length self.old + length text.now }
    {
        self.push_bytes(text.as_bytes());
    }

    fn push_number(&mut self, number: u64)
        requires { length self.old + 20 ≤ 1100 }
        ensures text { self.new ≡ self.old ++ decimal number }
        ensures short { length self.new ≤ length self.old + 20 }
    {
        let mut buffer = Buffer::new();
        self.push(buffer.format(number));
    }

    /// Adds the line of the machine's time (Date, RFC 9110, section 6.6.1), where the answer carries it.
    fn push_date(&mut self, date: Option<HttpDate>)
        requires { length self.old + 37 ≤ 1100 }
        ensures text { self.new ≡ self.old ++ date_line date }
        ensures short { length self.new ≤ length self.old + 37 }
    {
        if let Some(now) = date {
            self.push("Date: ");
            self.push_bytes(&now.to_bytes());
            self.push("\r\n");
        }
    }

    /// Adds the lines that keep a resource from misuse. Nothing else may be guessed from its bytes (X-Content-Type-Options); and no site may show the page within
    /// one of its own (X-Frame-Options, RFC 7034), which runs under its own policy (Content-Security-Policy).
    fn push_security_headers(&mut self, resource: Resource)
        requires { length self.old + 483 ≤ 1100 }
        ensures text { self.new ≡ self.old ++ security_header_lines resource }
        ensures short { length self.new ≤ length self.old + 483 }
    {
        if is_page(resource) {
            self.push("X-Frame-Options: DENY\r\n");
            self.push("X-Content-Type-Options: nosniff\r\n");
            self.push("Content-Security-Policy: ");
            self.push(policy());
            self.push("\r\n");
        } else {
            self.push("X-Content-Type-Options: nosniff\r\n");
        }
    }

    /// Adds the lines by which a browser keeps a resource and asks each time whether it still is as it was (ETag, RFC 9110, section 8.8.3; Cache-Control, RFC
    /// 9111, section 5.2.2.4).
    fn push_validators(&mut self, resource: Resource)
        requires { length self.old + 73 ≤ 1100 }
        ensures text { self.new ≡ self.old ++ validator_lines resource }
        ensures short { length self.new ≤ length self.old + 73 }
    {
        self.push("ETag: ");
        self.push(tag_of(resource));
        self.push("\r\nCache-Control: no-cache\r\n");
    }

    /// Adds the lines of the fields that only a resource of the page has.
    fn push_resource_headers(&mut self, media_type: MediaType)
        requires { length self.old + 556 ≤ 1100 }
        ensures text { self.new ≡ self.old ++ resource_lines media_type }
        ensures short { length self.new ≤ length self.old + 556 }
    {
        match media_type {
            MediaType::Json | MediaType::Plain => {}
            MediaType::Resource(resource) => {
                self.push_security_headers(resource);
                self.push_validators(resource);
            }
        }
    }

    /// Adds a byte of a text as a string of JSON has it (RFC 8259, section 7).
    fn push_escaped_byte(&mut self, byte: u8)
        requires { length self.old + 2 ≤ 1100 }
        ensures text { self.new ≡ self.old ++ escaped_byte byte }
        ensures short { length self.new ≤ length self.old + 2 }
    {
        if byte == b'"' || byte == b'\\' {
            self.push_bytes(&[b'\\', byte]);
        } else {
            self.push_bytes(&[byte]);
        }
    }

    /// Adds a text as a string of JSON has it, but for its quotation marks.
    fn push_escaped(&mut self, text: &[u8])
        requires { length self.old + 2 * length text.now ≤ 1100 }
        ensures text { self.new ≡ self.old ++ escaped text.now }
        ensures short { length self.new ≤ length self.old + 2 * length text.now }
    {
        for byte in text {
            self.push_escaped_byte(*byte);
        }
    }

    /// Adds a text as a string of JSON, `null` where there is none.
    fn push_text_or_null(&mut self, text: &Option<Text>)
        requires { length self.old + 122 ≤ 1100 }
        ensures text { self.new ≡ self.old ++ text_or_null text.now }
        ensures short { length self.new ≤ length self.old + 122 }
    {
        match text {
            Some(text) => {
                self.push("\"");
                self.push_escaped(bytes_of_text(text));
                self.push("\"");
            }
            None => self.push("null"),
        }
    }

    /// Adds how many answers had a status, as a member and a comma.
    fn push_count(&mut self, counted: StatusCount)
        requires { length self.old + 44 ≤ 1100 }
        ensures text { self.new ≡ self.old ++ count_text counted }
        ensures short { length self.new ≤ length self.old + 44 }
    {
        self.push("\"");
        self.push_number(u64::from(counted.status));
        self.push("\":");
        self.push_number(counted.count);
        self.push(",");
    }

    /// Adds how many answers had each status, as members with a comma behind each.
    fn push_counts(&mut self, counts: &[StatusCount])
        requires { length self.old + 44 * length counts.now ≤ 1100 }
        ensures text { self.new ≡ self.old ++ counts_text counts.now }
        ensures short { length self.new ≤ length self.old + 44 * length counts.now }
    {
        for counted in counts {
            self.push_count(*counted);
        }
    }

    /// The bytes of the text so far.
    pub(crate) fn as_bytes(&self) -> &[u8]
        ensures { result.now ≡ self.now }
    {
        self.room.as_slice()
    }
}

/// The lines before a body of so many bytes.
/// They are a status line (RFC 9112, section 4), the fields of the answer and an empty line; `Connection: close` says
/// that the connection ends after it (section 9.6).
#[tactic(auto, unfolding(crate::specs::Answers::head_text))]
pub(crate) fn head_text(
    date: Option<HttpDate>,
    status: Status,
    allow: Allow,
    media_type: MediaType,
    length: usize,
) -> FixedText
    ensures { result ≡ head_text date status allow media_type length }
{
    let mut text = FixedText::new();
    text.push("HTTP/1.1 ");
    text.push_number(u64::from(code_of(status)));
    text.push(" ");
    text.push(phrase_of(status));
    text.push("\r\nContent-Type: ");
    text.push(type_of(media_type));
    text.push("\r\nContent-Length: ");
    text.push_number(length as u64);
    text.push("\r\nConnection: close\r\n");
    text.push_date(date);
    text.push(allow_line(allow));
    text.push_resource_headers(media_type);
    text.push("\r\n");
    text
}

/// The bytes of a text, at most 60.
fn bytes_of_text(text: &Text) -> &[u8]
    ensures value { result.now ≡ text.now }
    ensures short { length result.now ≤ 60 }
{
    text.as_bytes()
}

/// `{"operator":TEXT}`
pub(crate) fn operator_text(operator: &Text) -> FixedText
    ensures { result ≡ operator_text operator.now }
{
    let mut text = FixedText::new();
    text.push("{\"operator\":\"");
    text.push_escaped(bytes_of_text(operator));
    text.push("\"}");
    text
}

/// `{"answers":{"200":N,..,"none":N},"at":AT,"digest":"N","digested":N,"instance":"N","language":TEXT,"name":TEXT,"schema":K,"seconds":S,"seq":SEQ}`
#[tactic(auto, unfolding(crate::specs::Answers::health_text))]
pub(crate) fn health_text(
    presentation: &Presentation,
    figures: &Figures,
    schema: u64,
    seq: u64,
    at: Moment,
) -> FixedText
    ensures { result ≡ health_text presentation.now figures.now schema seq at }
{
    let mut text = FixedText::new();
    text.push("{\"answers\":{");
    text.push_counts(&figures.answers);
    text.push("\"none\":");
    text.push_number(figures.unanswered);
    text.push("},\"at\":");
    text.push_number(at.get());
    text.push(",\"digest\":\"");
    text.push_number(figures.digest);
    text.push("\",\"digested\":");
    text.push_number(figures.digested);
    text.push(",\"instance\":\"");
    text.push_number(figures.began);
    text.push("\",\"language\":");
    text.push_text_or_null(&presentation.language);
    text.push(",\"name\":");
    text.push_text_or_null(&presentation.name);
    text.push(",\"schema\":");
    text.push_number(schema);
    text.push(",\"seconds\":");
    text.push_number(figures.seconds);
    text.push(",\"seq\":");
    text.push_number(seq);
    text.push("}");
    text
}

/// `{"reference":"missing","status":400}`
pub(crate) fn reference_text() -> FixedText
    ensures { result ≡ reference_text }
{
    let mut text = FixedText::new();
    text.push("{\"reference\":\"missing\",\"status\":400}");
    text
}

/// `{"ahead":SECONDS,"status":400}`
pub(crate) fn ahead_text(most: u32) -> FixedText
    ensures { result ≡ ahead_text most }
{
    let mut text = FixedText::new();
    text.push("{\"ahead\":");
    text.push_number(u64::from(most));
    text.push(",\"status\":400}");
    text
}

/// `{"seq":SEQ,"status":412}`
pub(crate) fn seq_text(seq: u64) -> FixedText
    ensures { result ≡ seq_text seq }
{
    let mut text = FixedText::new();
    text.push("{\"seq\":");
    text.push_number(seq);
    text.push(",\"status\":412}");
    text
}

/// `{"status":CODE}`
pub(crate) fn status_text(status: Status) -> FixedText
    ensures { result ≡ status_text status }
{
    let mut text = FixedText::new();
    text.push("{\"status\":");
    text.push_number(u64::from(code_of(status)));
    text.push("}");
    text
}

#[tactic(auto, using(plant_orders::proofs::FaultNames::name_is_short))]
fn kind_name(kind: CsvKind) -> &'static str
    ensures value { result.now ≡ kind_name kind }
    ensures short { length result.now ≤ 12 }
{
    kind.name()
}

/// `{"csv":KIND,"row":ROW}`
pub(crate) fn csv_text(fault: CsvFault) -> FixedText
    ensures { result ≡ csv_text fault }
{
    let mut text = FixedText::new();
    text.push("{\"csv\":\"");
    text.push(kind_name(fault.kind));
    text.push("\",\"row\":");
    text.push_number(u64::from(fault.row));
    text.push("}");
    text
}
