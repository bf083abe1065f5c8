//! The first rule that loaded tables break, as `check` names it: after ten commands none, and after a change by hand the one that it breaks.
use crate::stores::{in_memory, run_ten};
use plant_base::NEWEST_SCHEMA;
use plant_check::{Rule, check};
use plant_tables::Loaded;
use sqlite::{Connection, MemStore};
use std::alloc::AllocGlobal;
use std::process::Abort;
use std::test::Fail;

/// Changes of the tables of ten commands, each with the first rule that it breaks; the last breaks two.
const CHANGES: [(&str, Rule); 15] = [
    ("DELETE FROM meta", Rule::Tables),
    ("UPDATE sublot SET stock = -1", Rule::Values),
    (
        "UPDATE definition SET class = 'TOOL' WHERE id = 'FLOUR'",
        Rule::Classes,
    ),
    (
        "INSERT INTO recipe_line VALUES ('CAKE', 1, 7, 3, NULL, 0, 'TIME', '5 min', '')",
        Rule::Recipes,
    ),
    ("UPDATE job SET size = 901", Rule::Orders),
    (
        "UPDATE control_line SET qty = 168 WHERE no = 1",
        Rule::Batches,
    ),
    ("UPDATE sublot SET stock = 834", Rule::Stocks),
    ("INSERT INTO sublot VALUES ('F-1', 2, 'A1', 0)", Rule::Lots),
    ("UPDATE lot SET def = 'DOUGH'", Rule::Movements),
    ("UPDATE batch SET attempt = 2", Rule::Events),
    ("UPDATE meta SET seq = 9", Rule::Numbers),
    ("DELETE FROM edge", Rule::Descent),
    (
        "INSERT INTO receipt VALUES ('K-1', 11, 'x')",
        Rule::Receipts,
    ),
    (
        "INSERT INTO recall VALUES ('RC-1', 'F-9', 'open', 0, '', '', NULL, NULL, NULL)",
        Rule::Recalls,
    ),
    (
        "DELETE FROM edge; UPDATE sublot SET stock = 834",
        Rule::Stocks,
    ),
];

/// The first rule that the tables of a store break.
fn broken(
    rt: &impl AllocGlobal,
    connection: &mut Connection<MemStore>,
) -> Result<Option<Rule>, Fail> {
    match Loaded::read(rt.alloc(), connection, NEWEST_SCHEMA)? {
        Some(loaded) => Ok(check(rt.alloc(), &loaded)?),
        None => Err(Fail::from("a table is missing")),
    }
}

#[test]
fn tables_of_commands_break_no_rule(rt: HostRuntime) -> Result<(), Fail> {
    let mut connection = run_ten(&rt, in_memory(rt.alloc())?)?.close();
    assert!(rt; broken(&rt, &mut connection)?.is_none());
    Ok(())
}

#[test]
fn first_rule_that_a_change_breaks_is_named(rt: HostRuntime) -> Result<(), Fail> {
    for (statements, rule) in &CHANGES {
        let mut connection = run_ten(&rt, in_memory(rt.alloc())?)?.close();
        connection.execute_batch(statements)?;
        assert!(rt; broken(&rt, &mut connection)? == Some(*rule));
    }
    Ok(())
}
