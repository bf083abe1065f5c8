//! What a line reports: the nodes and the edges of an answer.
ghost use Rattle.std.specs.Prelude.{◌≡◌, Some, false, true, option_map};
ghost use Rattle.serde_json.specs.Errors.{IsMemory};
ghost use Rattle.serde_json.specs.View.{view, items_view};
ghost use Rattle.genealogy_picture.specs.Answers.{Reports, line_error_text, node_into, nodes_into};
ghost use Rattle.genealogy_picture.specs.Answers.{edge_into, edges_into, parts_into, answer_into};
ghost use Rattle.genealogy_picture.specs.Answers.{is_blank, line_into, list_at};

use crate::gathered::Gathered;
use crate::members::{edge_of, has_members, node_of};
use plant_trace::Node;
use serde_json::Value;
use std::alloc::{AllocError, Global};
use std::fmt;

/// Why a line is no answer with edges.
#[derive(Clone, Copy, Debug, PartialEq, Eq)]
pub(crate) enum LineError {
    /// It is no JSON text.
    NoJson,
    /// It is a refusal of the desk.
    Refused,
    /// It hasn't exactly the members of such an answer.
    NoAnswer,
    /// The node of this number, counted from 1, has another shape.
    Node(usize),
    /// The edge of this number, counted from 1, has another shape.
    Edge(usize),
}

impl fmt::Display for LineError {
    ghost output = { λ line_error. Some (line_error_text line_error) };

    fn fmt<W: fmt::Write>(&self, f: &mut fmt::Formatter<W>) -> fmt::Result {
        match self {
            LineError::NoJson => f.write_str("not a JSON text"),
            LineError::Refused => f.write_str("the desk refused the question"),
            LineError::NoAnswer => f.write_str(
                "not an answer with edges and nodes, and these alone",
            ),
            LineError::Node(number) => write!(
                f,
                "nodes {number}: neither a lot with def, held, lot, recalled, stock and unit nor a batch"
            ),
            LineError::Edge(number) => {
                write!(
                    f,
                    "edges {number}: not an amount with from and to, each a lot or a batch"
                )
            }
        }
    }
}

/// Why a line isn't taken.
#[derive(Clone, Copy, Debug, PartialEq, Eq)]
pub(crate) enum AnswerLineFault {
    /// It is no answer with edges.
    Reported(LineError),
    /// Memory was refused.
    Memory,
}

impl From<AllocError> for AnswerLineFault {
    ghost use Rattle.genealogy_picture.specs.declared.answers.AnswerLineFault.TheVariants as fault;

    ghost from_gives = { λ _ made. made ≡ fault.Memory };

    fn from(_error: AllocError) -> Self {
        AnswerLineFault::Memory
    }
}

/// Takes the node of a number.
fn node_into(gathered: &mut Gathered, number: usize, value: &Value) -> Result<(), AnswerLineFault>
    ensures { Reports gathered.new result (node_into gathered.old number (view value.now)) }
{
    match node_of(value) {
        Some(node) => Ok(gathered.add_node(&node)?),
        None => Err(AnswerLineFault::Reported(LineError::Node(number))),
    }
}

/// Takes the nodes of an answer.
fn nodes_into(gathered: &mut Gathered, values: &[Value]) -> Result<(), AnswerLineFault>
    ensures { Reports gathered.new result (nodes_into gathered.old 1 (items_view values.now)) }
{
    for (index, value) in values.iter().enumerate() {
        node_into(gathered, index + 1, value)?;
    }
    Ok(())
}

/// Takes the edge of a number.
fn edge_into(gathered: &mut Gathered, number: usize, value: &Value) -> Result<(), AnswerLineFault>
    ensures { Reports gathered.new result (edge_into gathered.old number (view value.now)) }
{
    match edge_of(value) {
        Some(edge) => {
            let from: Node = edge.from;
            let to: Node = edge.to;
            Ok(gathered.add_edge(from, to, edge.amount)?)
        }
        None => Err(AnswerLineFault::Reported(LineError::Edge(number))),
    }
}

/// Takes the edges of an answer.
fn edges_into(gathered: &mut Gathered, values: &[Value]) -> Result<(), AnswerLineFault>
    ensures { Reports gathered.new result (edges_into gathered.old 1 (items_view values.now)) }
{
    for (index, value) in values.iter().enumerate() {
        edge_into(gathered, index + 1, value)?;
    }
    Ok(())
}

fn list_at<'a>(value: &'a Value, name: &str) -> Option<&'a Vec<Value>>
    ensures { option_map (λ v. items_view v.now.items) result ≡ list_at name.now (view value.now) }
{
    value.get(name)?.as_array()
}

/// Takes the nodes and the edges of an object, where both are there.
fn parts_into(gathered: &mut Gathered, value: &Value) -> Result<(), AnswerLineFault>
    ensures { Reports gathered.new result (parts_into gathered.old (view value.now)) }
{
    match (list_at(value, "nodes"), list_at(value, "edges")) {
        (Some(nodes), Some(edges)) => {
            nodes_into(gathered, nodes)?;
            edges_into(gathered, edges)
        }
        _ => Err(AnswerLineFault::Reported(LineError::NoAnswer)),
    }
}

/// Takes the answer that a value is.
fn answer_into(gathered: &mut Gathered, value: &Value) -> Result<(), AnswerLineFault>
    ensures { Reports gathered.new result (answer_into gathered.old (view value.now)) }
{
    if value.get("refused").is_some() {
        Err(AnswerLineFault::Reported(LineError::Refused))
    } else if has_members(value, 2) {
        parts_into(gathered, value)
    } else {
        Err(AnswerLineFault::Reported(LineError::NoAnswer))
    }
}

/// Whether a read failed for its text, and not for want of memory.
fn is_refusal(error: &serde_json::Error) -> bool
    ensures refusal { result ≡ true → ¬ IsMemory error.now }
    ensures memory { result ≡ false → IsMemory error.now }
{
    if error.is_memory() { false } else { true }
}

fn is_blank(line: &[u8]) -> bool
    ensures { result ≡ is_blank line.now }
{
    line.is_empty() || line == b"\r".as_slice()
}

/// Takes a line, which is given without its LF: an answer with edges. An empty one is passed over.
///
/// The line is a JSON text (RFC 8259) in UTF-8: an object with exactly `edges` and `nodes`, lists of objects. Of members with one name the last counts.
///
/// - `Reported`: it is no such answer, and this is the first thing that is wrong with it, nodes before edges. What comes
///   before it may have been taken.
/// - `Memory`: memory was refused.
#[tactic(auto, unfolding(crate::specs::Answers::line_into))]
pub(crate) fn line_into(
    alloc: Global,
    gathered: &mut Gathered,
    line: &[u8],
) -> Result<(), AnswerLineFault>
    ensures { Reports gathered.new result (line_into gathered.old line.now) }
{
    if is_blank(line) {
        return Ok(());
    }
    match Value::from_slice(alloc, line) {
        Ok(value) => answer_into(gathered, &value),
        Err(error) => {
            if is_refusal(&error) {
                Err(AnswerLineFault::Reported(LineError::NoJson))
            } else {
                Err(AnswerLineFault::Memory)
            }
        }
    }
}
