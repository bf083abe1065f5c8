//! A store that is opened anew: it holds what its desk answered.
use crate::commands::command_of;
use crate::stores::{desk_over, in_memory, run_ten};
use plant_desk::{Answer, Checked, Question, Reply};
use plant_desk_store::{Desk, ask_with_outcome, check_with_outcome, execute_with_outcome};
use sql_queries::reopen;
use sqlite::Alter;
use std::process::Abort;
use std::test::Fail;

/// A command after the first ten.
const RECEIVE: &[u8] =
    b"{\"at\":0,\"by\":\"ben\",\"do\":\"receive\",\"lot\":\"F-2\",\"def\":\"FLOUR\",\"amount\":7,\"place\":\"\"}";

/// How many commands a desk that isn't shut has accepted.
fn accepted<S: Alter>(desk: &mut Desk<S>) -> Result<u64, Fail> {
    if desk.is_shut() {
        return Err(Fail::from("the desk is shut"));
    }
    match &ask_with_outcome(desk, &Question::Desk)? {
        Answer::Desk { seq, .. } => Ok(*seq),
        _ => Err(Fail::from("another answer")),
    }
}

#[test]
fn reopened_store_holds_what_was_answered(rt: HostRuntime) -> Result<(), Fail> {
    let mut desk = run_ten(&rt, in_memory(rt.alloc())?)?;
    let command = command_of(rt.alloc(), RECEIVE)?;
    if desk.is_shut() {
        return Err(Fail::from("the desk is shut"));
    }
    assert!(rt; check_with_outcome(&mut desk, &command)? == Checked::Accepted);
    assert!(rt; execute_with_outcome(&mut desk, &command)? == Reply::Accepted(11));
    assert_eq!(rt; accepted(&mut desk)?, 11);
    match reopen(rt.alloc(), desk.close()) {
        Ok(connection) => assert_eq!(rt; accepted(&mut desk_over(rt.alloc(), connection)?)?, 11),
        Err(_) => return Err(Fail::from("the store doesn't open")),
    }
    Ok(())
}
