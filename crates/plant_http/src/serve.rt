//! One request, served.
ghost use Rattle.std.specs.Prelude.{◌≡◌, ℕ, true, false, List};
ghost use Rattle.plant_base.specs.{State};
ghost use Rattle.plant_keeper.specs.{IsSameDesk};
ghost use Rattle.plant_http_requests.specs.{Agrees};
ghost use Rattle.plant_http.specs.Serving.{Serves, ServesShut, IfUnasked, Answers, AnswersTaskShut};
ghost use Rattle.plant_http.specs.Answers.{dated};
ghost use Rattle.plant_http.specs.Serving.{end_of};

use crate::perform::perform;
use crate::send::send;
use crate::status::code_of;
use httpdate::HttpDate;
use plant_http_requests::{ConditionalTask, InputFault, Profile, Routes, Terms, read_task};
use plant_keeper::Keeper;
use std::alloc::Global;
use std::io::{Read, Write};
use thiserror::Error;

/// What became of a request.
#[derive(Clone, Copy, Debug, PartialEq, Eq)]
pub enum Served {
    /// It was answered by this status, and the answer was written whole.
    Answered(u16),
    /// The input ended without a byte. Nothing was written.
    Nothing,
}

/// Why a request wasn't answered.
#[derive(Clone, Copy, Debug, PartialEq, Eq, Error)]
pub enum ServeFault {
    /// A read failed, or was interrupted. Nothing was executed and nothing written.
    #[error("the reader failed")]
    Read,
    /// The request has taken its 4,096 reads. Nothing was executed and nothing written.
    #[error("too many reads")]
    Endless,
    /// A write failed, was interrupted, or took no byte. A prefix of the answer was written, and not all of it; what was
    /// executed stays.
    #[error("the writer takes no more")]
    Write,
    /// Memory was refused for the request's bytes. Nothing was executed and nothing written.
    #[error("out of memory")]
    Memory,
}

fn end_of(fault: InputFault) -> ServeFault
    ensures { result ≡ end_of fault }
{
    match fault {
        InputFault::Read => ServeFault::Read,
        InputFault::Endless => ServeFault::Endless,
        InputFault::Memory => ServeFault::Memory,
    }
}

/// The time that an answer carries: with the page, that of the machine.
fn dated(terms: Terms<'_>) -> Option<HttpDate>
    ensures { result ≡ dated terms.entry }
{
    match terms.profile {
        Profile::Open => None,
        Profile::Page { .. } => terms.now.time,
    }
}

/// Does a task, and writes its answer.
fn answer_task<W: Write, K: Keeper>(
    alloc: Global,
    date: Option<HttpDate>,
    writer: &mut W,
    keeper: &mut K,
    task: &ConditionalTask,
) -> Result<Served, ServeFault>
    ensures same { IsSameDesk K.honest K.schema K.foreign_tables keeper.old keeper.new }
    ensures answers { K.honest keeper.new → K.shut keeper.old ≡ false → (s : State) → K.represents keeper.old s
        → Answers date (K.schema keeper.old) s task.now (W.contents writer.old) (W.contents writer.new)
        (K.represents keeper.new) (K.shut keeper.new) (K.crash_states keeper.new) result }
    ensures unchanged { K.shut keeper.old ≡ true → keeper.new ≡ keeper.old }
    ensures shut { K.shut keeper.old ≡ true → AnswersTaskShut date task.now
        (W.contents writer.old) (W.contents writer.new) result }
    ensures asked { IfUnasked result ⊥ }
{
    let answer = perform(alloc, keeper, task);
    match send(writer, date, &answer) {
        Ok(()) => Ok(Served::Answered(code_of(answer.status))),
        Err(_) => Err(ServeFault::Write),
    }
}

/// Serves one request: reads it, has the keeper execute or answer what it asks for, and writes the answer.
///
/// The request is read and judged whole before the keeper is asked, and where the head alone decides the answer no read follows the one that ended it. A
/// command whose body ended early isn't executed. The answer is written after the keeper's reply, and between an executed command and the end of its answer no memory is
/// taken. Only a keeper's fault and want of memory for what a body says or for an answer's text are answered 503.
///
/// The terms say which requests are served, whether the page is, whose commands a request may bring, whether they need references, and how far they
/// may be ahead of the machine's clock: another one is answered 403 or 400 before the keeper executes it, and where its head says a number of accepted
/// commands, after the keeper was asked for it: at another one nothing is executed, and the answer is 412. No keeper is asked for a resource of the page: one that is shut serves it too.
///
/// What is written depends on the bytes of the input and not on the pieces in which they come, but for `Endless`.
///
/// `Read`, `Endless` and `Memory`: the request wasn't read whole; nothing was executed and nothing written. `Write`: a prefix
/// of the answer was written, and not all of it; what was executed stays.
///
/// In the clauses, `whole` are the bytes of the input: those that the reader has left, where it knows them, and some bytes where
/// it knows none, as with a socket: also then the keeper does the task of one request, once, and nothing else. `s` is a state
/// that the keeper represented; nothing is said of what the keeper represents, and of what a stop leaves, if it doesn't end
/// honest. A keeper that is shut stays as it is, and each answer that it would be asked for is its fault 3.
pub fn serve_one<R: Read, W: Write, K: Keeper>(
    alloc: Global,
    routes: &Routes,
    terms: Terms<'_>,
    reader: &mut R,
    writer: &mut W,
    keeper: &mut K,
) -> Result<Served, ServeFault>
    ensures same { IsSameDesk K.honest K.schema K.foreign_tables keeper.old keeper.new }

    // How the request ended, what the keeper represents then, and what a stop leaves.
    ensures serves { (whole : List ℕ) × Agrees (R.remaining reader.old) whole
        × (K.honest keeper.new → K.shut keeper.old ≡ false → (s : State) → K.represents keeper.old s
        → Serves terms.entry (K.schema keeper.old) s whole (W.contents writer.old) (W.contents writer.new)
        (K.represents keeper.new) (K.shut keeper.new) (K.crash_states keeper.new) result)
        × (K.shut keeper.old ≡ true → ServesShut terms.entry whole
        (W.contents writer.old) (W.contents writer.new) result) }
    ensures unasked { IfUnasked result ((keeper.new ≡ keeper.old) × (writer.new ≡ writer.old)) }
    ensures unchanged { K.shut keeper.old ≡ true → keeper.new ≡ keeper.old }
{
    match read_task(alloc, routes, terms, reader) {
        Ok(None) => Ok(Served::Nothing),
        Ok(Some(task)) => answer_task(alloc, dated(terms), writer, keeper, &task),
        Err(fault) => Err(end_of(fault)),
    }
}
