//! A check, answered by a keeper, and the law of its answer.
ghost use Rattle.std.specs.Prelude.{◌≡◌, true, false};
ghost use Rattle.plant_base.specs.{State};
ghost use Rattle.plant_keeper.specs.{IsSameDesk};
ghost use Rattle.plant_text.specs.Checks.{ChecksAs, CheckAnswersMatchReplies, check_when_shut};

use plant_json_in::ToCheck;
use plant_keeper::Keeper;
use plant_questions::DeskFault;
use plant_text_checks::{CheckAnswer, Reason, command_answer};

/// Answers what would become of what is to be checked. A keeper is asked only of a command. Its state stays as it is, and an open keeper stays
/// open; a stop leaves no more than it left before.
///
/// `Store` and `Memory` come of a command alone, where the keeper's do; `Shut` comes exactly from a keeper that is shut, of a command.
pub fn answer_check<K: Keeper>(keeper: &mut K, to_check: &ToCheck) -> Result<CheckAnswer, DeskFault>
    ensures same { IsSameDesk K.honest K.schema K.foreign_tables keeper.old keeper.new }
    ensures checks { K.honest keeper.new → K.shut keeper.old ≡ false → (s : State) → K.represents keeper.old s
        → ChecksAs s (K.represents keeper.new) to_check.now result }
    ensures open { K.shut keeper.new ≡ K.shut keeper.old }
    ensures shut { K.shut keeper.old ≡ true → result ≡ check_when_shut to_check.now }
    ensures unchanged { K.shut keeper.old ≡ true → keeper.new ≡ keeper.old }
{
    match to_check {
        ToCheck::Command(envelope) => {
            let checked = keeper.check(envelope)?;
            Ok(command_answer(&envelope.body, checked))
        }
        ToCheck::BadForm(format_error) => Ok(CheckAnswer::BadForm(Reason::Shape(*format_error))),
    }
}

/// What a check of a command is answered is what the command would be answered: accepted exactly where the reply would be a number, and refused exactly
/// where it would be a refusal, by the same one.
#[tactic(auto, using(crate::proofs::CheckAnswersMatchReplies::check_answers_match_replies))]
pub fn checks_match_replies_law()
    ensures { CheckAnswersMatchReplies }
{}
