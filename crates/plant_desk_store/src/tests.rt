// What `Desk::verify` says of a desk that is open: its tables are changed by hand, as no public call can.
use crate::stored::Desk;
use plant_check_rules::Rule;
use sqlite::{Connection, MemStore};
use std::alloc::Global;
use std::process::Abort;
use std::test::Fail;

/// What is changed in the tables of a new desk, and the rule that the change breaks.
const CHANGES: [(&str, Rule); 3] = [
    (
        "INSERT INTO definition VALUES ('SUGAR', 'RAW', '', 'g')",
        Rule::Classes,
    ),
    (
        "INSERT INTO sublot VALUES ('L-1', 0, 'A1', 5)",
        Rule::Stocks,
    ),
    ("INSERT INTO edge VALUES (3, 'L-1', 'L-2')", Rule::Descent),
];

/// A new desk in memory.
fn new_desk(alloc: Global) -> Result<Desk<MemStore>, Fail> {
    let connection = Connection::open_in_memory(alloc)?;
    if !connection.is_autocommit() {
        return Err(Fail::from("a transaction is open"));
    }
    match Desk::adopt(alloc, connection) {
        Ok(desk) => Ok(desk),
        Err(_) => Err(Fail::from("the store is refused")),
    }
}

/// The desk after a statement on its tables.
fn changed(desk: Desk<MemStore>, statement: &str) -> Result<Desk<MemStore>, Fail> {
    let (alloc, digest) = (desk.alloc, desk.digest);
    let mut connection = desk.close();
    connection.execute_batch(statement)?;
    if !connection.is_autocommit() {
        return Err(Fail::from("a transaction is open"));
    }
    Ok(Desk {
        alloc,
        connection,
        is_shut: false,
        digest,
    })
}

#[test]
fn verify_names_the_rule_that_a_change_by_hand_breaks(rt: HostRuntime) -> Result<(), Fail> {
    for (statement, rule) in &CHANGES {
        let mut desk = new_desk(rt.alloc())?;
        assert!(rt; desk.verify() == Ok(None));
        assert!(rt; desk.verify() == Ok(None));
        let mut broken = changed(desk, statement)?;
        assert!(rt; broken.verify() == Ok(Some(*rule)));
        assert!(rt; !broken.is_shut());
    }
    Ok(())
}
