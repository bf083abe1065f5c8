//! The shapes of what a line of JSON (RFC 8259) may say, as data: which members an object of each kind has, what each of them may be, and
//! one reading that gives their values or reports the first problem; and the question that an object or a path is.
//! Commands as JSON (RFC 8259): which objects are commands, and with what values, or what is wrong with one; and which ask what would become
//! of a command.
#![tactic(auto)]

mod checks;
mod command_tables;
mod commands;
mod fields;
mod format_errors;
mod listing;
mod lists;
mod members;
mod plain;
mod question_tables;
mod question_values;
mod questions;
mod tables;
mod words;

pub use checks::{ToCheck, check_of, to_check_of};
pub use command_tables::{CommandKind, command_kind, own_of};
pub use commands::command_of;
pub use fields::{Field, Fields, exactly, field_of_part, fields_of, none_other};
pub use format_errors::{FormatError, LineFault, ReadFault, ShapeError, object, or_malformed};
pub use members::{Member, MemberRule};
pub use question_tables::{
    Around, AskedKind, ListKind, NodeKind, QuestionKind, Topic, asked_kind, question_members,
};
pub use questions::{node_in, question_of, question_of_parts};
pub use tables::{check_members, row_own, shared_members};
pub use words::{RowKind, line_kind, order_state, recipe_state};
