//! The nodes and the edges of an answer, as JSON values.
ghost use Rattle.std.specs.Prelude.{◌≡◌};
ghost use Rattle.serde_json.specs.View.{view};
ghost use Rattle.plant_base.specs.{is_id, is_unit, only};
ghost use Rattle.genealogy_picture.specs.Members.{has_members, id_at, unit_at, number_at, flag_at};
ghost use Rattle.genealogy_picture.specs.Members.{lot_in, lot_of, batch_of, node_of, end_in};
ghost use Rattle.genealogy_picture.specs.Members.{end_of, end_at, edge_in, edge_of};

use genealogy_svg::{PictureLot, ReportedEdge};
use plant_base::{Id, Unit};
use plant_trace::Node;
use serde_json::Value;

/// A node, as an answer reports it.
#[derive(Clone, Copy, Debug, PartialEq, Eq)]
pub(crate) enum ReportedNode {
    /// A lot.
    Lot(PictureLot),
    /// A batch.
    Batch(Id),
}

/// Whether a value is an object of so many members.
#[tactic(auto, using(crate::proofs::MembersCounted::members_counted))]
pub(crate) fn has_members(value: &Value, count: usize) -> bool
    ensures { result ≡ has_members count (view value.now) }
{
    match value.as_object() {
        Some(map) => map.len() == count,
        None => false,
    }
}

fn read_id(bytes: &[u8]) -> Option<Id>
    ensures { result ≡ only is_id bytes.now }
{
    Id::read(bytes)
}

fn read_unit(bytes: &[u8]) -> Option<Unit>
    ensures { result ≡ only is_unit bytes.now }
{
    Unit::read(bytes)
}

fn id_at(value: &Value, name: &str) -> Option<Id>
    ensures { result ≡ id_at name.now (view value.now) }
{
    read_id(value.get(name)?.as_str()?.as_bytes())
}

fn unit_at(value: &Value, name: &str) -> Option<Unit>
    ensures { result ≡ unit_at name.now (view value.now) }
{
    read_unit(value.get(name)?.as_str()?.as_bytes())
}

fn number_at(value: &Value, name: &str) -> Option<u64>
    ensures { result ≡ number_at name.now (view value.now) }
{
    value.get(name)?.as_u64()
}

fn flag_at(value: &Value, name: &str) -> Option<bool>
    ensures { result ≡ flag_at name.now (view value.now) }
{
    value.get(name)?.as_bool()
}

// ---- nodes

fn lot_in(value: &Value) -> Option<PictureLot>
    ensures { result ≡ lot_in (view value.now) }
{
    Some(PictureLot {
        id: id_at(value, "lot")?,
        definition: id_at(value, "def")?,
        unit: unit_at(value, "unit")?,
        stock: number_at(value, "stock")?,
        is_held: flag_at(value, "held")?,
        is_recalled: flag_at(value, "recalled")?,
    })
}

/// The lot that an object is: exactly `{"def":ID,"held":BOOL,"lot":ID,"recalled":BOOL,"stock":N,"unit":UNIT}`, in any order.
fn lot_of(value: &Value) -> Option<PictureLot>
    ensures { result ≡ lot_of (view value.now) }
{
    if has_members(value, 6) {
        lot_in(value)
    } else {
        None
    }
}

/// The batch that an object is: exactly `{"batch":ID}`.
fn batch_of(value: &Value) -> Option<Id>
    ensures { result ≡ batch_of (view value.now) }
{
    if has_members(value, 1) {
        id_at(value, "batch")
    } else {
        None
    }
}

/// The node that an object is.
pub(crate) fn node_of(value: &Value) -> Option<ReportedNode>
    ensures { result ≡ node_of (view value.now) }
{
    if value.get("lot").is_some() {
        Some(ReportedNode::Lot(lot_of(value)?))
    } else {
        Some(ReportedNode::Batch(batch_of(value)?))
    }
}

// ---- edges

/// The lot or the batch that an object names.
fn end_in(value: &Value) -> Option<Node>
    ensures { result ≡ end_in (view value.now) }
{
    if value.get("lot").is_some() {
        Some(Node::Lot(id_at(value, "lot")?))
    } else {
        Some(Node::Batch(id_at(value, "batch")?))
    }
}

/// The end of an edge that an object is: exactly `{"lot":ID}` or `{"batch":ID}`.
fn end_of(value: &Value) -> Option<Node>
    ensures { result ≡ end_of (view value.now) }
{
    if has_members(value, 1) {
        end_in(value)
    } else {
        None
    }
}

fn end_at(value: &Value, name: &str) -> Option<Node>
    ensures { result ≡ end_at name.now (view value.now) }
{
    end_of(value.get(name)?)
}

fn edge_in(value: &Value) -> Option<ReportedEdge>
    ensures { result ≡ edge_in (view value.now) }
{
    Some(ReportedEdge {
        from: end_at(value, "from")?,
        to: end_at(value, "to")?,
        amount: number_at(value, "amount")?,
    })
}

/// The edge that an object is: exactly `{"amount":N,"from":END,"to":END}`, in any order.
pub(crate) fn edge_of(value: &Value) -> Option<ReportedEdge>
    ensures { result ≡ edge_of (view value.now) }
{
    if has_members(value, 3) {
        edge_in(value)
    } else {
        None
    }
}
