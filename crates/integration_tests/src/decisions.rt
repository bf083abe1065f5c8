//! Each of twenty commands decided by lookups over a store and over lists of the same state: the decisions are equal.
use crate::commands::first_commands;
use crate::stores::{desk_over, in_memory};
use plant_base::Envelope;
use plant_desk::{Keeper, ListKeeper, Reply};
use plant_desk_store::Desk;
use plant_keyed::{Keyed, LookupCache};
use plant_rules::decide;
use plant_view::{Decision, RowChange, RowParts, ViewFault};
use sql_tables::StoreFault;
use sqlite::{Alter, Connection, MemStore};
use std::alloc::{AllocGlobal, Global};
use std::process::Abort;
use std::test::Fail;

/// Decides a command by lookups.
fn decided_by_key<S: Alter>(
    alloc: Global,
    connection: &mut Connection<S>,
    envelope: &Envelope,
) -> Result<Decision, ViewFault<StoreFault>> {
    let mut cache = LookupCache::unread(alloc);
    let mut view = Keyed::new(alloc, connection, &mut cache);
    decide(alloc, &mut view, envelope)
}

/// Whether two changes of rows are the same. Those of a receipt, a recall and its marks, which none of the twenty commands makes, are not.
fn is_same_change(one: &RowChange, other: &RowChange) -> bool {
    match (one, other) {
        (RowChange::Meta(a), RowChange::Meta(b)) => a == b,
        (RowChange::Class(a), RowChange::Class(b)) => a == b,
        (RowChange::Definition(a), RowChange::Definition(b)) => a == b,
        (RowChange::Recipe(a), RowChange::Recipe(b)) => a == b,
        (RowChange::MasterLine(a), RowChange::MasterLine(b)) => a == b,
        (RowChange::Job(a), RowChange::Job(b)) => a == b,
        (RowChange::Batch(a), RowChange::Batch(b)) => a == b,
        (RowChange::ControlLine(a), RowChange::ControlLine(b)) => a == b,
        (RowChange::Event(a), RowChange::Event(b)) => a == b,
        (RowChange::Lot(a), RowChange::Lot(b)) => a == b,
        (RowChange::Sublot(a), RowChange::Sublot(b)) => a == b,
        (RowChange::Movement(a), RowChange::Movement(b)) => a == b,
        (RowChange::Hold(a), RowChange::Hold(b)) => a == b,
        (RowChange::Edge(a), RowChange::Edge(b)) => a == b,
        (RowChange::Unhold { lot: a, hold: c }, RowChange::Unhold { lot: b, hold: d }) => {
            a == b && c == d
        }
        _ => false,
    }
}

/// Whether two decisions are the same.
fn is_same(one: &Decision, other: &Decision) -> bool {
    let _: Option<RowParts> = None;
    match (one, other) {
        (Decision::Change(a), Decision::Change(b)) => are_same(a.as_slice(), b.as_slice()),
        (Decision::Refused(a), Decision::Refused(b)) => a == b,
        (Decision::Repeat(a), Decision::Repeat(b)) => a == b,
        _ => false,
    }
}

fn are_same(some: &[RowChange], others: &[RowChange]) -> bool {
    if some.len() != others.len() {
        return false;
    }
    for (one, other) in some.iter().zip(others) {
        if !is_same_change(one, other) {
            return false;
        }
    }
    true
}

/// Checks that a command is decided alike by lookups and over lists.
fn check_alike(
    rt: &(impl Abort + AllocGlobal),
    connection: &mut Connection<MemStore>,
    lists: &ListKeeper,
    envelope: &Envelope,
) -> Result<Decision, Fail> {
    let by_key = decided_by_key(rt.alloc(), connection, envelope);
    let over_lists = lists.decide(envelope)?;
    match by_key {
        Ok(decision) => assert!(rt; is_same(&decision, &over_lists)),
        Err(_) => return Err(Fail::from("a lookup fails")),
    }
    Ok(over_lists)
}

/// Has both keepers accept a command as this number, and gives the store of the desk back.
fn accepted_by_both(
    rt: &(impl Abort + AllocGlobal),
    connection: Connection<MemStore>,
    lists: &mut ListKeeper,
    envelope: &Envelope,
    seq: u64,
) -> Result<Connection<MemStore>, Fail> {
    let mut desk: Desk<MemStore> = desk_over(rt.alloc(), connection)?;
    assert!(rt; desk.execute(envelope)? == Reply::Accepted(seq));
    assert!(rt; lists.execute(envelope)? == Reply::Accepted(seq));
    Ok(desk.close())
}

/// Each command is a change before it is executed, and refused or changed alike after.
#[test]
fn twenty_commands_are_decided_alike_by_key_and_over_lists(rt: HostRuntime) -> Result<(), Fail> {
    let commands = first_commands(rt.alloc(), 20)?;
    let mut connection = desk_over(rt.alloc(), in_memory(rt.alloc())?)?.close();
    let mut lists = ListKeeper::new(rt.alloc());
    for (command, seq) in commands.iter().zip(1..=20) {
        // Also those whose turn hasn't come, or is past.
        for other in &commands {
            check_alike(&rt, &mut connection, &lists, other)?;
        }
        let decision = check_alike(&rt, &mut connection, &lists, command)?;
        assert!(rt; matches!(decision, Decision::Change(_)));
        connection = accepted_by_both(&rt, connection, &mut lists, command, seq)?;
    }
    Ok(())
}
