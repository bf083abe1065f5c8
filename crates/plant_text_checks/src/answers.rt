//! The answers to checks, and their texts.
ghost use Rattle.std.specs.Prelude.{◌≡◌, IfOk, string_bytes};
ghost use Rattle.serde_json.specs.View.{view};
ghost use Rattle.plant_text_checks.specs.Answers.{accepted_data, refused_data, bad_form_data};
ghost use Rattle.plant_text_checks.specs.Answers.{check_text};

use crate::reason::Reason;
use plant_base::Refusal;
use serde_json::{Value, json};
use std::alloc::{AllocError, Global};

/// What is answered of a command that is checked.
#[derive(Clone, Copy, Debug, PartialEq, Eq)]
pub enum CheckAnswer {
    /// It would be accepted.
    Accepted,
    /// It would be refused.
    Refused {
        /// What it would be answered.
        refusal: Refusal,
        /// Which item of its list is the cause, counted from 1 on; `None` where no item is.
        item: Option<usize>,
    },
    /// It would be refused as BadForm, or is no command at all, and this is why.
    BadForm(Reason),
}

fn accepted_value(alloc: Global) -> Result<Value, AllocError>
    ensures { IfOk result (λ v. view v ≡ accepted_data) }
{
    json!(in alloc; {"accepted": true})
}

fn refused_value(alloc: Global, refusal: Refusal, item: Option<usize>) -> Result<Value, AllocError>
    ensures { IfOk result (λ v. view v ≡ refused_data refusal item) }
{
    let name = refusal.name();
    let number = refusal.number();
    match item {
        Some(item) =>
            json!(in alloc; {"accepted": false, "item": item, "name": name, "refused": number}),
        None => json!(in alloc; {"accepted": false, "name": name, "refused": number}),
    }
}

fn bad_form_value(alloc: Global, reason: Reason) -> Result<Value, AllocError>
    ensures { IfOk result (λ v. view v ≡ bad_form_data reason) }
{
    let name = Refusal::BadForm.name();
    let number = Refusal::BadForm.number();
    let words = format!(in alloc; "{reason}")?;
    json!(in alloc; {"accepted": false, "name": name, "reason": (words.as_str()), "refused": number})
}

/// The text of what a check is answered, without an LF: JSON with no blanks, the members by the bytes of their names.
///
/// - of a command that would be accepted `{"accepted":true}`
/// - of one that would be refused `{"accepted":false,"name":NAME,"refused":NUMBER}`, with the refusal's name and number
/// - where an item of its list is the cause `{"accepted":false,"item":N,"name":NAME,"refused":NUMBER}`
/// - of what is of bad form `{"accepted":false,"name":"BadForm","reason":TEXT,"refused":1}`
///
/// The only error is that memory was refused.
#[tactic(auto, unfolding(crate::specs::Answers::check_text))]
pub fn check_text(alloc: Global, answer: &CheckAnswer) -> Result<String, AllocError>
    ensures { IfOk result (λ s. string_bytes s ≡ check_text answer.now) }
{
    match answer {
        CheckAnswer::Accepted => accepted_value(alloc)?.to_string(alloc),
        CheckAnswer::Refused { refusal, item } => {
            refused_value(alloc, *refusal, *item)?.to_string(alloc)
        }
        CheckAnswer::BadForm(reason) => bad_form_value(alloc, *reason)?.to_string(alloc),
    }
}
