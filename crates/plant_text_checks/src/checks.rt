//! From what a keeper says of a command to what is answered.
ghost use Rattle.std.specs.Prelude.{◌≡◌};
ghost use Rattle.plant_text_checks.specs.CommandErrors.{command_error_of};
ghost use Rattle.plant_text_checks.specs.Checks.{answer_by};

use crate::answers::CheckAnswer;
use crate::command_errors::command_error_of;
use crate::reason::Reason;
use plant_base::Command;
use plant_rules::Checked;

/// What is answered of a command of which this would become: where it is of bad form, why.
pub fn command_answer(body: &Command, checked: Checked) -> CheckAnswer
    ensures { result ≡ answer_by (command_error_of body.now) checked }
{
    match command_error_of(body) {
        Some(command_error) => CheckAnswer::BadForm(Reason::Command(command_error)),
        None => match checked {
            Checked::Accepted => CheckAnswer::Accepted,
            Checked::Refused { refusal, item } => CheckAnswer::Refused { refusal, item },
        },
    }
}
