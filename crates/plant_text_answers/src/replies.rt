//! The texts of replies and faults, in a room of fixed size.
ghost use Rattle.std.specs.Prelude.{◌≡◌, ◌+◌, ◌≤◌, ◌++◌, [], length, decimal};
ghost use Rattle.plant_text_answers.specs.Replies.{reply_text, fault_text, refusal_text};
ghost use Rattle.plant_text_answers.specs.Replies.{accepted_text};

use arrayvec::ArrayString;
use itoa::Buffer;
use plant_base::Refusal;
use plant_questions::{DeskFault, Reply};
use std::marker::Model;

/// The text of a reply or of a fault. It has room of its own, 96 bytes, and takes no memory.
#[derive(Debug, Drop)]
pub struct ReplyText {
    room: ArrayString<96>,
}

impl Model for ReplyText {
    ghost use Rattle.std.specs.Prelude.{ℕ, List};

    ghost Value = { List ℕ };

    ghost view = { λ s. s.room.bytes };
}

impl ReplyText {
    fn new() -> Self
        ensures { result ≡ [] }
    {
        ReplyText {
            room: ArrayString::new(),
        }
    }

    fn push(&mut self, text: &str)
        requires { length self.old + length text.now ≤ 96 }
        ensures { self.new ≡ self.old ++ text.now }
    {
        self.room.push_str(text);
    }

    fn push_number(&mut self, number: u64)
        requires { length self.old + 20 ≤ 96 }
        ensures text { self.new ≡ self.old ++ decimal number }
        ensures short { length self.new ≤ length self.old + 20 }
    {
        let mut buffer = Buffer::new();
        self.room.push_str(buffer.format(number));
    }

    /// The bytes of the text, without an LF.
    pub fn as_bytes(&self) -> &[u8]
        ensures { result.now ≡ self.now }
    {
        self.room.as_bytes()
    }

    /// The text, without an LF.
    pub fn as_str(&self) -> &str
        ensures { result.now ≡ self.now }
    {
        self.room.as_str()
    }
}

/// `{"name":NAME,"refused":NUMBER}`
pub(crate) fn refusal_line(refusal: Refusal) -> ReplyText
    ensures { result ≡ refusal_text refusal }
{
    let mut text = ReplyText::new();
    text.push("{\"name\":\"");
    text.push(refusal.name());
    text.push("\",\"refused\":");
    text.push_number(u64::from(refusal.number()));
    text.push("}");
    text
}

fn accepted_line(seq: u64) -> ReplyText
    ensures { result ≡ accepted_text seq }
{
    let mut text = ReplyText::new();
    text.push("{\"ok\":");
    text.push_number(seq);
    text.push("}");
    text
}

/// The text of a reply, without an LF: `{"ok":SEQ}`, or `{"name":NAME,"refused":NUMBER}` with the refusal's name and
/// number.
#[tactic(auto, unfolding(crate::specs::Replies::reply_text))]
pub fn reply_line(reply: &Reply) -> ReplyText
    ensures { result ≡ reply_text reply.now }
{
    match reply {
        Reply::Accepted(seq) => accepted_line(*seq),
        Reply::Refused(refusal) => refusal_line(*refusal),
    }
}

/// The text of a fault, without an LF: `{"fault":NUMBER}`.
#[tactic(auto, unfolding(crate::specs::Replies::fault_text))]
pub fn fault_line(fault: DeskFault) -> ReplyText
    ensures { result ≡ fault_text fault }
{
    let mut text = ReplyText::new();
    text.push("{\"fault\":");
    text.push_number(u64::from(fault.number()));
    text.push("}");
    text
}
