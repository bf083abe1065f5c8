//! Questions: which objects with the word of a question are one, and which parts of a path.
ghost use Rattle.std.specs.Prelude.{◌≡◌, option_copied, true, IfErr};
ghost use Rattle.serde_json.specs.View.{view};
ghost use Rattle.plant_json_in.specs.Questions.{node_in, question_in, shape_in};
ghost use Rattle.plant_json_in.specs.Questions.{one_part, question_of_parts, two_parts};
ghost use Rattle.plant_json_in.specs.FormatErrors.{format_error_is_reported};

use crate::fields::{Field, field_of_part, fields_of, none_other};
use crate::format_errors::{FormatError, ShapeError};
use crate::members::Member;
use crate::question_tables::{Around, NodeKind, QuestionKind, question_members};
use crate::question_values::question_by;
use plant_questions::Question;
use serde_json::Value;

/// The question of a kind that an object is, or its first flaw.
fn shape_in(value: &Value, kind: QuestionKind) -> Result<Question, ShapeError>
    ensures { result ≡ shape_in kind (view value.now) }
{
    let own = question_members(kind);
    let fields = fields_of(value, own)?;
    none_other(value, &[Member::Ask], own)?;
    match question_by(kind, fields.as_slice()) {
        Some(question) => Ok(question),
        None => Err(ShapeError::Malformed),
    }
}

fn question_in(value: &Value, kind: QuestionKind) -> Result<Question, FormatError>
    ensures { result ≡ question_in kind (view value.now) }
{
    match shape_in(value, kind) {
        Ok(question) => Ok(question),
        Err(shape_error) => Err(FormatError::Object(shape_error)),
    }
}

/// The question of a kind that an object with its word is, or its first problem, which has a text of its own.
pub fn question_of(value: &Value, kind: QuestionKind) -> Result<Question, FormatError>
    ensures reads { result ≡ question_in kind (view value.now) }
    ensures reported { IfErr result (λ format_error. format_error_is_reported format_error ≡ true) }
{
    question_in(value, kind)
}

/// Whether an object names a lot or a batch. `None` where it names neither.
pub fn node_in(value: &Value) -> Option<NodeKind>
    ensures { result ≡ node_in (view value.now) }
{
    if value.get("lot").is_some() {
        Some(NodeKind::Lot)
    } else if value.get("batch").is_some() {
        Some(NodeKind::Batch)
    } else {
        None
    }
}

/// The question whose only member besides its word has this value.
fn one_part(kind: QuestionKind, field: Option<Field>) -> Option<Question>
    ensures { result ≡ one_part kind field }
{
    question_by(kind, &[field?])
}

/// The question whose members besides its word have these two values.
fn two_parts(kind: QuestionKind, first: Option<Field>, second: Option<Field>) -> Option<Question>
    ensures { result ≡ two_parts kind first second }
{
    question_by(kind, &[first?, second?])
}

/// The question of a kind whose members besides its word a path has, at most two; the last may be left out where it is a cursor.
/// `None` where a part isn't what the rule of its member asks for.
pub fn question_of_parts(
    kind: QuestionKind,
    first: Option<&str>,
    second: Option<&str>,
) -> Option<Question>
    ensures { result ≡ question_of_parts kind (option_copied first.entry) (option_copied second.entry) }
{
    match question_members(kind) {
        &[] => question_by(kind, &[]),
        &[only] => one_part(kind, field_of_part(only, first)),
        &[one, other] => two_parts(
            kind,
            field_of_part(one, first),
            field_of_part(other, second),
        ),
        _ => None,
    }
}
