//! Answers, written.
ghost use Rattle.std.specs.Prelude.{◌≡◌, ◌++◌, length, OnOk, OnErr};
ghost use Rattle.std.specs.Io.KnownBytes.{Appends};
ghost use Rattle.plant_text.specs.{AppendsPrefix};
ghost use Rattle.plant_http.specs.Answers.{answer_bytes, rendered};

use crate::answer::Response;
use crate::fixed_text::head_text;
use httpdate::HttpDate;
use plant_text::{WriteError, write_both};
use std::io::Write;

/// Writes an answer: its head, with the machine's time where it carries it, and its body where it isn't left out. No memory is taken.
///
/// `WriteError`: a prefix of the answer was written, perhaps none of it but never all, and nothing else.
#[tactic(auto, unfolding(crate::specs::Answers::answer_bytes))]
pub(crate) fn send<W: Write>(
    writer: &mut W,
    date: Option<HttpDate>,
    answer: &Response,
) -> Result<(), WriteError>
    ensures ok { OnOk result (Appends (W.contents writer.old) (W.contents writer.new)
        (answer_bytes date answer.now.silent (rendered answer.now))) }
    ensures err { OnErr result (AppendsPrefix (W.contents writer.old) (W.contents writer.new)
        (answer_bytes date answer.now.silent (rendered answer.now))) }
{
    let body = answer.body.as_bytes();
    let head = head_text(
        date,
        answer.status,
        answer.allow,
        answer.media_type,
        body.len(),
    );
    let rest: &[u8] = if answer.silent { &[] } else { body };
    write_both(writer, head.as_bytes(), rest)
}
