//! The rules of stored values.
ghost use Rattle.std.specs.Prelude.{◌≡◌};
ghost use Rattle.std.specs.List.{list_any};
ghost use Rattle.plant_base.specs.{same};
ghost use Rattle.sqlite_value.specs.Value.{owned};
ghost use Rattle.plant_check.specs.ValueRules as spec;

use plant_base::{Due, Id, Text, Unit};
use plant_requirements::ValueRule;
use sqlite::types::ValueRef;

/// Whether NULL obeys the rule.
fn allows_null(rule: ValueRule) -> bool
    ensures { result ≡ spec.allows_null rule }
{
    matches!(
        rule,
        ValueRule::IdOrNull | ValueRule::TextOrNull | ValueRule::NumberOrNull(_, _)
    )
}

/// Whether a whole number obeys the rule.
fn allows_number(rule: ValueRule, number: i64) -> bool
    ensures { result ≡ spec.allows_number rule number }
{
    match rule {
        ValueRule::Number(low, high) | ValueRule::NumberOrNull(low, high) => {
            u64::try_from(number).is_ok_and(|number| low <= number && number <= high)
        }
        ValueRule::Whole => true,
        _ => false,
    }
}

/// Whether a text is one of the words.
fn is_one_of(words: &[&str], bytes: &[u8]) -> bool
    ensures { result ≡ list_any (λ word. same word.now bytes.now) words.now }
{
    words.iter().any(|word| word.as_bytes() == bytes)
}

/// Whether a text is a word that the rule allows.
fn is_word_of(rule: ValueRule, bytes: &[u8]) -> bool
    ensures { result ≡ spec.is_word_of rule bytes.now }
{
    match rule {
        ValueRule::RecipeState => is_one_of(&["draft", "approved", "withdrawn"], bytes),
        ValueRule::JobState => is_one_of(&["open", "cancelled", "released", "finished"], bytes),
        ValueRule::BatchState => is_one_of(
            &[
                "idle",
                "running",
                "complete",
                "pausing",
                "paused",
                "holding",
                "held",
                "restarting",
                "stopping",
                "stopped",
                "aborting",
                "aborted",
            ],
            bytes,
        ),
        ValueRule::RecallState => is_one_of(&["open", "lifted"], bytes),
        ValueRule::EventWord => is_one_of(
            &[
                "start", "stop", "hold", "restart", "abort", "reset", "pause", "resume", "done",
                "phase", "close",
            ],
            bytes,
        ),
        _ => false,
    }
}

/// Whether a text obeys the rule.
fn allows_text(rule: ValueRule, bytes: &[u8]) -> bool
    ensures { result ≡ spec.allows_text rule bytes.now }
{
    match rule {
        ValueRule::Id | ValueRule::IdOrNull => Id::read(bytes).is_some(),
        ValueRule::IdOrEmpty => Id::read(bytes).is_some() || bytes.is_empty(),
        ValueRule::Text | ValueRule::TextOrNull => Text::read(bytes).is_some(),
        ValueRule::AnyText => true,
        ValueRule::Unit => Unit::read(bytes).is_some(),
        ValueRule::Due => Due::read(bytes).is_ok(),
        _ => is_word_of(rule, bytes),
    }
}

/// Whether a stored value obeys the rule.
pub(crate) fn obeys(rule: ValueRule, value: ValueRef<'_>) -> bool
    ensures { result ≡ spec.obeys rule (owned value.entry) }
{
    match value {
        ValueRef::Null => allows_null(rule),
        ValueRef::Int(number) => allows_number(rule, number),
        ValueRef::Text(bytes) => allows_text(rule, bytes),
        ValueRef::Real(_) | ValueRef::Blob(_) => false,
    }
}
