//! The rows that break the rules of the tables: of each rule the first of them, with what it has and what the rule wants.
#![tactic(auto)]

mod column_rules;
mod edges;
mod events;
mod finding;
mod lots;
mod marks;
mod movements;
mod numbers;
mod recalls;
mod recipes;
mod stocks;
mod stored;
mod table_rules;
mod value_rule;
mod values;

pub use finding::{
    Finding, Findings, Tested, check, check_rows, findings_law, rule_text, test_loaded, test_rows,
};
pub use plant_check_rules::Rule;
pub use plant_requirements::{
    Column, Found, RowFault, RowKey, Table, ValueRule, Wanted, all_tables,
};
