//! Edges that no movement makes, and edges that are missing.
ghost use Rattle.std.specs.Prelude.{◌≡◌, IfOk, Option};
ghost use Rattle.plant_check_rules.specs.{movements_in};
ghost use Rattle.plant_check.specs.Edges.{edge_fault_in, is_edge_among, missing_edge};
ghost use Rattle.plant_check.specs.Edges.{missing_edge_fault, stray_edge_fault};
ghost use Rattle.plant_requirements.specs.{first_reported};

use grouped_rows::{Grouped, Grouping};
use plant_base::{EdgeRow, Movement};
use plant_check_rules::edges::edges_in;
use plant_check_rules::history::movements_in;
use plant_requirements::first::{RowRule, as_a_whole, fault_unless, first_fault, or_fault};
use plant_requirements::keys::edge_key;
use plant_requirements::{Found, RowFault, Table, Wanted};
use plant_tables::DeskRows;
use plant_view::edge_row;
use std::alloc::{AllocError, Global};

/// Edges, each under itself.
#[derive(Clone, Copy)]
struct EdgesByKey;

impl Grouping for EdgesByKey {
    ghost use Rattle.std.specs.Prelude.{Some};

    type Row = EdgeRow;

    type Key = EdgeRow;

    ghost key_of = { λ e. Some e };

    fn key(row: &EdgeRow) -> Option<EdgeRow> {
        Some(*row)
    }
}

fn has_edge(edges: &Grouped<EdgesByKey>, edge: EdgeRow) -> bool
    ensures { result ≡ is_edge_among edges.now.rows.now edge }
{
    edges.has(edge)
}

/// That an edge is one that a movement makes.
#[derive(Drop)]
struct Made<'a> {
    made: Grouped<'a, EdgesByKey>,
}

impl<'a> RowRule<EdgeRow> for Made<'a> {
    ghost fault_of = { λ t e. stray_edge_fault t.made.rows.now e };

    fn fault(&self, _alloc: Global, row: &EdgeRow) -> Result<Option<RowFault>, AllocError> {
        let fault = as_a_whole((Table::Edge, edge_key(row)), Wanted::NoRow);
        Ok(fault_unless(has_edge(&self.made, *row), fault))
    }
}

/// That the edge that a movement makes is there, in a schema that keeps edges.
#[derive(Drop)]
struct Keeping<'a> {
    schema: u64,
    edges: Grouped<'a, EdgesByKey>,
}

impl<'a> Keeping<'a> {
    fn missing_edge(&self, movement: &Movement, edge: Option<EdgeRow>) -> Option<RowFault>
        ensures { result ≡ missing_edge self.now.schema self.now.edges.rows.now movement.now edge }
    {
        match edge {
            None => None,
            Some(edge) => {
                let fault = RowFault {
                    table: Table::Edge,
                    key: edge_key(&edge),
                    column: None,
                    found: Found::Nothing,
                    wanted: Wanted::EdgeOf {
                        seq: movement.seq,
                        line: movement.line,
                    },
                };
                fault_unless(self.schema < 2 || has_edge(&self.edges, edge), fault)
            }
        }
    }
}

impl<'a> RowRule<Movement> for Keeping<'a> {
    ghost fault_of = { λ t m. missing_edge_fault t.schema t.edges.rows.now m };

    fn fault(&self, _alloc: Global, row: &Movement) -> Result<Option<RowFault>, AllocError> {
        Ok(self.missing_edge(row, edge_row(row)))
    }
}

fn stray_edge(
    alloc: Global,
    made: &[EdgeRow],
    rows: &[EdgeRow],
) -> Result<Option<RowFault>, AllocError>
    ensures { IfOk result (λ reported. reported ≡ first_reported (stray_edge_fault made.now) rows.now) }
{
    let made = Grouped::<EdgesByKey>::new(alloc, made)?;
    first_fault(alloc, &Made { made }, rows)
}

fn unkept_edge(
    alloc: Global,
    schema: u64,
    rows: &[EdgeRow],
    movements: &[Movement],
) -> Result<Option<RowFault>, AllocError>
    ensures { IfOk result (λ reported. reported ≡ first_reported (missing_edge_fault schema rows.now) movements.now) }
{
    let edges = Grouped::<EdgesByKey>::new(alloc, rows)?;
    first_fault(alloc, &Keeping { schema, edges }, movements)
}

/// The first edge that no movement makes, or else the first that a movement makes and that isn't there, in a schema that keeps
/// edges. The only error is that memory was refused.
pub(crate) fn edge_fault(alloc: Global, rows: &DeskRows) -> Result<Option<RowFault>, AllocError>
    ensures { IfOk result (λ reported. reported
        ≡ edge_fault_in rows.now.meta.schema rows.now.edges.items (movements_in rows.now.movements.items)) }
{
    let movements = movements_in(alloc, rows.movements.as_slice())?;
    let (schema, edges) = (rows.meta.schema, rows.edges.as_slice());
    let made = edges_in(alloc, schema, movements.as_slice())?;
    let stray = stray_edge(alloc, made.as_slice(), edges)?;
    let missing = unkept_edge(alloc, schema, edges, movements.as_slice())?;
    Ok(or_fault(stray, missing))
}
