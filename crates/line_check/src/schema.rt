//! The JSON Schema (draft 2020-12) of lines. Its members and their rules are those of the tables by which lines are read, so that a further
//! command, question or member is in it without being named here.

use crate::command_words::command_words;
use crate::question_words::question_words;
use crate::rules::{DEFINED, name_of, rule_value};
use plant_base::{GREATEST_ORDERS, GREATEST_PARTS};
use plant_json_in::{
    AskedKind, Member, MemberRule, NodeKind, QuestionKind, RowKind, asked_kind, check_members,
    command_kind, own_of, question_members, row_own, shared_members,
};
use plant_recipe::GREATEST_LINES;
use serde_json::{Map, Value, json};
use std::alloc::{AllocError, Global};

/// Which draft of JSON Schema it is.
const DRAFT: &str = "https://json-schema.org/draft/2020-12/schema";

/// The rows of lists, each with its name in the JSON Schema and the word of its kind, where it has one.
const ROWS: [(RowKind, &str, &str); 6] = [
    (RowKind::Part, "part", ""),
    (RowKind::Order, "import_order", ""),
    (RowKind::In, "line_in", "in"),
    (RowKind::Out, "line_out", "out"),
    (RowKind::Parameter, "line_par", "par"),
    (RowKind::Phase, "line_phase", "phase"),
];

/// The definitions of the JSON Schema, by their names.
type SchemaDefinitions = Map<String, Value>;

/// A reference to a definition.
fn reference(alloc: Global, name: &str) -> Result<Value, AllocError> {
    let place = format!(in alloc; "#/$defs/{name}")?;
    json!(in alloc; {"$ref": (place.as_str())})
}

/// Adds a definition.
fn define(
    alloc: Global,
    definitions: &mut SchemaDefinitions,
    name: &str,
    value: Value,
) -> Result<(), AllocError> {
    drop(definitions.insert(String::from_str(alloc, name)?, value)?);
    Ok(())
}

/// What is one of these definitions.
fn one_of(alloc: Global, names: &[String]) -> Result<Value, AllocError> {
    let mut list = Vec::new(alloc);
    for name in names {
        list.push(reference(alloc, name.as_str())?)?;
    }
    json!(in alloc; {"oneOf": (Value::Array(list))})
}

/// A list of rows of this name, from the least number of them to the greatest.
fn rows_value(alloc: Global, name: &str, least: u64, greatest: usize) -> Result<Value, AllocError> {
    let row = reference(alloc, name)?;
    json!(in alloc; {"type": "array", "items": row, "minItems": least, "maxItems": (greatest as u64)})
}

/// The list of rows that a member holds.
fn list_value(alloc: Global, member: Member) -> Result<Value, AllocError> {
    match member {
        Member::Parts => rows_value(alloc, "part", 1, GREATEST_PARTS),
        Member::Orders => rows_value(alloc, "import_order", 0, GREATEST_ORDERS),
        Member::Lines => rows_value(alloc, "recipe_line", 1, GREATEST_LINES),
        _ => rule_value(alloc, member.rule()),
    }
}

/// The value of a member of an object that has this word.
fn member_value(alloc: Global, member: Member, word: &str) -> Result<Value, AllocError> {
    let rule = member.rule();
    match (rule, name_of(rule)) {
        (MemberRule::Command | MemberRule::Question | MemberRule::Kind, _) =>
            json!(in alloc; {"const": word}),
        (MemberRule::List, _) => list_value(alloc, member),
        (_, Some(name)) => reference(alloc, name),
        (_, None) => rule_value(alloc, rule),
    }
}

/// Adds members to the properties of an object that has this word, and to those that it needs.
fn add_members(
    alloc: Global,
    properties: &mut SchemaDefinitions,
    needed: &mut Vec<Value>,
    members: &[Member],
    word: &str,
) -> Result<(), AllocError> {
    for member in members {
        let name = member.name();
        define(alloc, properties, name, member_value(alloc, *member, word)?)?;
        if member.is_needed() {
            needed.push(json!(in alloc; name)?)?;
        }
    }
    Ok(())
}

/// An object of this word that has members of both lists and no others.
fn object_value(
    alloc: Global,
    some: &[Member],
    more: &[Member],
    word: &str,
) -> Result<Value, AllocError> {
    let mut properties = Map::new(alloc);
    let mut needed = Vec::new(alloc);
    add_members(alloc, &mut properties, &mut needed, some, word)?;
    add_members(alloc, &mut properties, &mut needed, more, word)?;
    json!(in alloc; {
        "type": "object",
        "properties": (Value::Object(properties)),
        "required": (Value::Array(needed)),
        "additionalProperties": false
    })
}

/// A question of a kind.
fn question_value(alloc: Global, kind: QuestionKind, word: &str) -> Result<Value, AllocError> {
    object_value(alloc, &[Member::Ask], question_members(kind), word)
}

/// What a word asks for.
fn asked_value(alloc: Global, kind: AskedKind, word: &str) -> Result<Value, AllocError> {
    match kind {
        AskedKind::Check => object_value(alloc, check_members(), &[], word),
        AskedKind::About(topic) => question_value(alloc, QuestionKind::About(topic), word),
        AskedKind::List(list) => question_value(alloc, QuestionKind::List(list), word),
        AskedKind::Around(around) => {
            let lot = QuestionKind::Around(around, NodeKind::Lot);
            let batch = QuestionKind::Around(around, NodeKind::Batch);
            let lot = question_value(alloc, lot, word)?;
            let batch = question_value(alloc, batch, word)?;
            json!(in alloc; {"oneOf": [lot, batch]})
        }
    }
}

/// Adds each command, and what is one of them.
fn define_commands(alloc: Global, definitions: &mut SchemaDefinitions) -> Result<(), AllocError> {
    let mut names = Vec::new(alloc);
    for word in command_words() {
        if let Some(kind) = command_kind(*word) {
            let name = format!(in alloc; "do_{word}")?;
            let value = object_value(alloc, shared_members(), own_of(kind), *word)?;
            define(alloc, definitions, name.as_str(), value)?;
            names.push(name)?;
        }
    }
    define(alloc, definitions, "command", one_of(alloc, &names)?)
}

/// Adds each question, and what is one of them.
fn define_questions(alloc: Global, definitions: &mut SchemaDefinitions) -> Result<(), AllocError> {
    let mut names = Vec::new(alloc);
    for word in question_words() {
        if let Some(kind) = asked_kind(*word) {
            let name = format!(in alloc; "ask_{word}")?;
            define(
                alloc,
                definitions,
                name.as_str(),
                asked_value(alloc, kind, *word)?,
            )?;
            names.push(name)?;
        }
    }
    define(alloc, definitions, "question", one_of(alloc, &names)?)
}

/// Adds the rows of lists, and what is a line of a recipe.
fn define_rows(alloc: Global, definitions: &mut SchemaDefinitions) -> Result<(), AllocError> {
    let mut lines = Vec::new(alloc);
    for (row, name, word) in ROWS {
        let value = object_value(alloc, row_own(row), &[], word)?;
        define(alloc, definitions, name, value)?;
        if !word.is_empty() {
            lines.push(String::from_str(alloc, name)?)?;
        }
    }
    define(alloc, definitions, "recipe_line", one_of(alloc, &lines)?)
}

/// Adds the rules of values.
fn define_rules(alloc: Global, definitions: &mut SchemaDefinitions) -> Result<(), AllocError> {
    for rule in DEFINED {
        if let Some(name) = name_of(rule) {
            define(alloc, definitions, name, rule_value(alloc, rule)?)?;
        }
    }
    Ok(())
}

/// The JSON Schema of a line: a command or a question. What several members have to obey together isn't said by it.
pub(crate) fn schema_of_lines(alloc: Global) -> Result<Value, AllocError> {
    let mut definitions = Map::new(alloc);
    define_rules(alloc, &mut definitions)?;
    define_rows(alloc, &mut definitions)?;
    define_commands(alloc, &mut definitions)?;
    define_questions(alloc, &mut definitions)?;
    let command = reference(alloc, "command")?;
    let question = reference(alloc, "question")?;
    json!(in alloc; {
        "$schema": DRAFT,
        "title": "A line for the desk",
        "oneOf": [command, question],
        "$defs": (Value::Object(definitions))
    })
}
