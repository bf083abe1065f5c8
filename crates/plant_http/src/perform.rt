//! A task, done by a keeper.
ghost use Rattle.std.specs.Prelude.{◌≡◌, true, false, Some, IsErrOf};
ghost use Rattle.plant_base.specs.{State};
ghost use Rattle.plant_keeper.specs.{IsSameDesk};
ghost use Rattle.plant_http.specs.Answers.{fault_out, is_silent, is_silent_decision, is_silent_task, rendered, task_shut};
ghost use Rattle.plant_http.specs.Answers.{Executed, Asked, Checked};
ghost use Rattle.plant_http.specs.Serving.{Performs, PerformsTask, DoneWhenShut, TaskDoneWhenShut, TellsSeq, seq_in_answer};
ghost use Rattle.plant_http.specs.Serving.{TellsPosition, position_in};
ghost use Rattle.plant_http_requests.specs.{under};
ghost use Rattle.plant_http_requests.specs.declared.task.HeadDecision.TheVariants as head;
ghost use Rattle.plant_http_requests.specs.declared.task.RequestTask.TheVariants as J;

use crate::answer::{
    Response, ahead_answer, asked_answer, check_answer, csv_answer, error_answer, fault_answer,
    health_answer, operator_answer, reference_answer, reply_answer, resource_answer, seq_answer,
};
use crate::position::Position;
use plant_base::{Envelope, Refusal};
use plant_http_requests::{
    Allow, BodyFormat, ConditionalTask, Figures, HeadDecision, Presentation, RequestTask, Status,
};
use plant_keeper::Keeper;
use plant_questions::{Answer as DeskAnswer, DeskFault, Question, Reply};
use plant_text::{CheckAnswer, ToCheck, answer_check};
use std::alloc::Global;

fn executed_answer(executed: &Result<Reply, DeskFault>) -> Response
    ensures { Executed executed.now result }
{
    match executed {
        Ok(reply) => reply_answer(reply),
        Err(fault) => fault_answer(*fault, false),
    }
}

/// Has a command executed. It is handed no allocator, and a reply's text is in a buffer of fixed size: from here to the
/// end of the answer no memory is taken.
fn execute<K: Keeper>(keeper: &mut K, envelope: &Envelope) -> Response
    ensures same { IsSameDesk K.honest K.schema K.foreign_tables keeper.old keeper.new }
    ensures performs { K.honest keeper.new → K.shut keeper.old ≡ false → (s : State) → K.represents keeper.old s
        → PerformsTask (K.schema keeper.old) s (J.Command envelope.now) (rendered result)
        (K.represents keeper.new) (K.shut keeper.new) (K.crash_states keeper.new) }
    ensures unchanged { K.shut keeper.old ≡ true → keeper.new ≡ keeper.old }
    ensures shut { K.shut keeper.old ≡ true → rendered result ≡ task_shut (J.Command envelope.now) }
    ensures loud { result.silent ≡ false }
{
    let executed = keeper.execute(envelope);
    executed_answer(&executed)
}

fn reported_answer(
    alloc: Global,
    asked: &Result<DeskAnswer, DeskFault>,
    body_format: BodyFormat,
    silent: bool,
) -> Response
    ensures reported { Asked body_format asked.now (rendered result) }
    ensures silence { result.silent ≡ silent }
{
    match asked {
        Ok(answer) => asked_answer(alloc, body_format, answer, silent),
        Err(fault) => fault_answer(*fault, silent),
    }
}

/// Asks a question, and makes the text of its answer.
fn ask<K: Keeper>(
    alloc: Global,
    keeper: &mut K,
    question: &Question,
    body_format: BodyFormat,
    silent: bool,
) -> Response
    ensures same { IsSameDesk K.honest K.schema K.foreign_tables keeper.old keeper.new }
    ensures performs { K.honest keeper.new → K.shut keeper.old ≡ false → (s : State) → K.represents keeper.old s
        → PerformsTask (K.schema keeper.old) s (J.Decided (head.Ask question.now body_format silent)) (rendered result)
        (K.represents keeper.new) (K.shut keeper.new) (K.crash_states keeper.new) }
    ensures unchanged { K.shut keeper.old ≡ true → keeper.new ≡ keeper.old }
    ensures shut { K.shut keeper.old ≡ true → rendered result ≡ task_shut (J.Decided (head.Ask question.now body_format silent)) }
    ensures silence { result.silent ≡ silent }
{
    let asked = keeper.ask(question);
    reported_answer(alloc, &asked, body_format, silent)
}

fn checked_answer(alloc: Global, checked: &Result<CheckAnswer, DeskFault>) -> Response
    ensures reported { Checked checked.now (rendered result) }
    ensures loud { result.silent ≡ false }
{
    match checked {
        Ok(answer) => check_answer(alloc, answer),
        Err(fault) => fault_answer(*fault, false),
    }
}

/// Has a command checked, which isn't executed, and makes the text of the answer.
fn check<K: Keeper>(alloc: Global, keeper: &mut K, to_check: &ToCheck) -> Response
    ensures same { IsSameDesk K.honest K.schema K.foreign_tables keeper.old keeper.new }
    ensures performs { K.honest keeper.new → K.shut keeper.old ≡ false → (s : State) → K.represents keeper.old s
        → PerformsTask (K.schema keeper.old) s (J.Check to_check.now) (rendered result)
        (K.represents keeper.new) (K.shut keeper.new) (K.crash_states keeper.new) }
    ensures unchanged { K.shut keeper.old ≡ true → keeper.new ≡ keeper.old }
    ensures shut { K.shut keeper.old ≡ true → TaskDoneWhenShut (J.Check to_check.now) (rendered result) }
    ensures loud { result.silent ≡ false }
{
    let checked = answer_check(keeper, to_check);
    checked_answer(alloc, &checked)
}

/// How far a keeper has come, by its answers to two questions. Other answers come of a keeper that isn't honest, and count as a fault of its store.
fn position_in(desk: &DeskAnswer, moment: &DeskAnswer) -> Result<Position, DeskFault>
    ensures { result ≡ position_in desk.now moment.now }
{
    match (desk, moment) {
        (DeskAnswer::Desk { schema, seq }, DeskAnswer::Moment { at }) => Ok(Position {
            schema: *schema,
            seq: *seq,
            at: *at,
        }),
        _ => Err(DeskFault::Store),
    }
}

/// Asks a keeper how far it has come.
fn ask_position<K: Keeper>(keeper: &mut K) -> Result<Position, DeskFault>
    ensures same { IsSameDesk K.honest K.schema K.foreign_tables keeper.old keeper.new }
    ensures tells { K.honest keeper.new → K.shut keeper.old ≡ false → (s : State) → K.represents keeper.old s
        → TellsPosition (K.schema keeper.old) s (K.represents keeper.new) result }
    ensures open { K.shut keeper.new ≡ K.shut keeper.old }
    ensures unchanged { K.shut keeper.old ≡ true → keeper.new ≡ keeper.old }
    ensures shut { K.shut keeper.old ≡ true → IsErrOf result DeskFault.Shut }
{
    let desk = keeper.ask(&Question::Desk)?;
    let moment = keeper.ask(&Question::Moment)?;
    position_in(&desk, &moment)
}

/// Says how the server fares and is presented, and how far the keeper has come.
fn report_health<K: Keeper>(
    keeper: &mut K,
    presentation: &Presentation,
    figures: &Figures,
    silent: bool,
) -> Response
    ensures same { IsSameDesk K.honest K.schema K.foreign_tables keeper.old keeper.new }
    ensures performs { K.honest keeper.new → K.shut keeper.old ≡ false → (s : State) → K.represents keeper.old s
        → PerformsTask (K.schema keeper.old) s (J.Decided (head.Health presentation.now figures.now silent)) (rendered result)
        (K.represents keeper.new) (K.shut keeper.new) (K.crash_states keeper.new) }
    ensures unchanged { K.shut keeper.old ≡ true → keeper.new ≡ keeper.old }
    ensures shut { K.shut keeper.old ≡ true → rendered result ≡ fault_out DeskFault.Shut }
    ensures silence { result.silent ≡ silent }
{
    match ask_position(keeper) {
        Ok(position) => health_answer(presentation, figures, position, silent),
        Err(fault) => fault_answer(fault, silent),
    }
}

/// Does what a head decides, and gives its answer.
fn perform_decision<K: Keeper>(alloc: Global, keeper: &mut K, decision: &HeadDecision) -> Response
    ensures same { IsSameDesk K.honest K.schema K.foreign_tables keeper.old keeper.new }
    ensures performs { K.honest keeper.new → K.shut keeper.old ≡ false → (s : State) → K.represents keeper.old s
        → PerformsTask (K.schema keeper.old) s (J.Decided decision.now) (rendered result)
        (K.represents keeper.new) (K.shut keeper.new) (K.crash_states keeper.new) }
    ensures unchanged { K.shut keeper.old ≡ true → keeper.new ≡ keeper.old }
    ensures shut { K.shut keeper.old ≡ true → TaskDoneWhenShut (J.Decided decision.now) (rendered result) }
    ensures silence { result.silent ≡ is_silent_decision decision.now }
{
    match decision {
        HeadDecision::Ask {
            question,
            body_format,
            silent,
        } => ask(alloc, keeper, question, *body_format, *silent),
        HeadDecision::Refuse {
            status,
            allow,
            silent,
        } => error_answer(*status, *allow, *silent),
        HeadDecision::Operator { operator, silent } => operator_answer(operator, *silent),
        HeadDecision::Health {
            presentation,
            figures,
            silent,
        } => report_health(keeper, presentation, figures, *silent),
        HeadDecision::Resource {
            resource,
            is_current,
            silent,
        } => resource_answer(*resource, *is_current, *silent),
    }
}

/// Does a task under no condition, and gives its answer.
fn perform_task<K: Keeper>(alloc: Global, keeper: &mut K, task: &RequestTask) -> Response
    ensures same { IsSameDesk K.honest K.schema K.foreign_tables keeper.old keeper.new }
    ensures performs { K.honest keeper.new → K.shut keeper.old ≡ false → (s : State) → K.represents keeper.old s
        → PerformsTask (K.schema keeper.old) s task.now (rendered result)
        (K.represents keeper.new) (K.shut keeper.new) (K.crash_states keeper.new) }
    ensures unchanged { K.shut keeper.old ≡ true → keeper.new ≡ keeper.old }
    ensures shut { K.shut keeper.old ≡ true → TaskDoneWhenShut task.now (rendered result) }
    ensures silence { result.silent ≡ is_silent_task task.now }
{
    match task {
        RequestTask::Decided(decision) => perform_decision(alloc, keeper, decision),
        RequestTask::Command(envelope) => execute(keeper, envelope),
        RequestTask::Check(to_check) => check(alloc, keeper, to_check),
        RequestTask::OtherOperator => error_answer(Status::Forbidden, Allow::NoHeader, false),
        RequestTask::NoReference => reference_answer(),
        RequestTask::Ahead(most) => ahead_answer(*most),
        RequestTask::BadForm => reply_answer(&Reply::Refused(Refusal::BadForm)),
        RequestTask::BadFile(fault) => csv_answer(*fault),
        RequestTask::MemoryError => fault_answer(DeskFault::Memory, false),
    }
}

/// Whether the body of the answer to what a head decides is left out.
fn is_silent_decision(decision: &HeadDecision) -> bool
    ensures { result ≡ is_silent_decision decision.now }
{
    match decision {
        HeadDecision::Refuse { silent, .. }
        | HeadDecision::Ask { silent, .. }
        | HeadDecision::Operator { silent, .. }
        | HeadDecision::Health { silent, .. } => *silent,
        HeadDecision::Resource {
            is_current,
            silent,
            ..
        } => *is_current || *silent,
    }
}

/// Whether the body of the answer to a task is left out.
fn is_silent_task(task: &RequestTask) -> bool
    ensures { result ≡ is_silent_task task.now }
{
    match task {
        RequestTask::Decided(decision) => is_silent_decision(decision),
        _ => false,
    }
}

/// The number of accepted commands that an answer says. One that says none comes of a keeper that isn't honest, and counts as a fault of its store.
fn seq_in_answer(answer: &DeskAnswer) -> Result<u64, DeskFault>
    ensures { result ≡ seq_in_answer answer.now }
{
    match answer {
        DeskAnswer::Desk { seq, .. } => Ok(*seq),
        _ => Err(DeskFault::Store),
    }
}

/// Asks a keeper for the number of its accepted commands.
fn ask_seq<K: Keeper>(keeper: &mut K) -> Result<u64, DeskFault>
    ensures same { IsSameDesk K.honest K.schema K.foreign_tables keeper.old keeper.new }
    ensures tells { K.honest keeper.new → K.shut keeper.old ≡ false → (s : State) → K.represents keeper.old s
        → TellsSeq s (K.represents keeper.new) result }
    ensures open { K.shut keeper.new ≡ K.shut keeper.old }
    ensures unchanged { K.shut keeper.old ≡ true → keeper.new ≡ keeper.old }
    ensures shut { K.shut keeper.old ≡ true → IsErrOf result DeskFault.Shut }
{
    match keeper.ask(&Question::Desk) {
        Ok(answer) => seq_in_answer(&answer),
        Err(fault) => Err(fault),
    }
}

/// Does a task where the keeper has accepted so many commands, and gives its answer; else it answers how many there are.
fn perform_at<K: Keeper>(alloc: Global, keeper: &mut K, wanted: u64, task: &RequestTask) -> Response
    ensures same { IsSameDesk K.honest K.schema K.foreign_tables keeper.old keeper.new }
    ensures performs { K.honest keeper.new → K.shut keeper.old ≡ false → (s : State) → K.represents keeper.old s
        → Performs (K.schema keeper.old) s (under (Some wanted) task.now) (rendered result)
        (K.represents keeper.new) (K.shut keeper.new) (K.crash_states keeper.new) }
    ensures unchanged { K.shut keeper.old ≡ true → keeper.new ≡ keeper.old }
    ensures shut { K.shut keeper.old ≡ true → rendered result ≡ fault_out DeskFault.Shut }
    ensures silence { result.silent ≡ is_silent_task task.now }
{
    match ask_seq(keeper) {
        Ok(seq) if seq == wanted => perform_task(alloc, keeper, task),
        Ok(seq) => seq_answer(seq, is_silent_task(task)),
        Err(fault) => fault_answer(fault, is_silent_task(task)),
    }
}

/// Does a task under its condition, and gives its answer.
pub(crate) fn perform<K: Keeper>(alloc: Global, keeper: &mut K, task: &ConditionalTask) -> Response
    ensures same { IsSameDesk K.honest K.schema K.foreign_tables keeper.old keeper.new }
    ensures performs { K.honest keeper.new → K.shut keeper.old ≡ false → (s : State) → K.represents keeper.old s
        → Performs (K.schema keeper.old) s task.now (rendered result)
        (K.represents keeper.new) (K.shut keeper.new) (K.crash_states keeper.new) }
    ensures unchanged { K.shut keeper.old ≡ true → keeper.new ≡ keeper.old }
    ensures shut { K.shut keeper.old ≡ true → DoneWhenShut task.now (rendered result) }
    ensures silence { result.silent ≡ is_silent task.now }
{
    match task.condition {
        None => perform_task(alloc, keeper, &task.task),
        Some(wanted) => perform_at(alloc, keeper, wanted, &task.task),
    }
}
