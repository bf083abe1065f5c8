//! A drawing in SVG.
ghost use Rattle.std.specs.Prelude.{◌≡◌, ◌<◌, ◌^◌, IfOk, Some, string_bytes};
ghost use Rattle.genealogy_svg.specs.Svg.{level, edge_line, amount_text, edge_amount, right_end};
ghost use Rattle.genealogy_svg.specs.Svg.{lower_end, row_end, width_of, boxes_end, height_of, head};
ghost use Rattle.genealogy_svg.specs.Svg.{heading, ground, leaves_out, note_of, edge_texts};
ghost use Rattle.genealogy_svg.specs.Svg.{svg_text};

use crate::boxes::{BatchBox, LotBox};
use crate::drawing::{BoxPosition, Drawing, DrawnEdge};
use crate::points::{Point, Size, WayPoint, left_of, row_line, top_of};
use plant_base::{DisplayItem, Joined};
use plant_trace::Node;
use std::alloc::{AllocError, Global};
use std::fmt;

// ---- edges

/// The level part of a line, below the amount of a row; nothing where there is none.
#[derive(Clone, Copy)]
struct Level {
    to: BoxPosition,
    row: Option<u32>,
}

impl fmt::Display for Level {
    ghost output = { λ l. Some (level l.to l.row) };

    fn fmt<W: fmt::Write>(&self, f: &mut fmt::Formatter<W>) -> fmt::Result {
        let Some(row) = self.row else {
            return Ok(());
        };
        let left = left_of(self.to);
        let first = WayPoint {
            x: left.saturating_sub(230),
            y: row_line(row),
        };
        let last = left.saturating_sub(30);
        write!(f, "L{first}H{last}")
    }
}

#[derive(Clone, Copy)]
struct EdgeLine;

impl DisplayItem<DrawnEdge> for EdgeLine {
    ghost text = { λ _. edge_line };

    #[tactic(auto, unfolding(crate::specs::Svg::edge_line))]
    fn show<W: fmt::Write>(&self, edge: &DrawnEdge, f: &mut fmt::Formatter<W>) -> fmt::Result {
        let first = WayPoint {
            x: left_of(edge.from) + 180,
            y: top_of(edge.from) + 28,
        };
        let level = Level {
            to: edge.to,
            row: edge.row,
        };
        let last = WayPoint {
            x: left_of(edge.to),
            y: top_of(edge.to) + 28,
        };
        write!(f, "<path d=\"M{first}{level}L{last}\"/>\n")
    }
}

/// The amount of an edge in a row.
#[derive(Clone, Copy)]
struct AmountText {
    edge: DrawnEdge,
    row: u32,
}

impl fmt::Display for AmountText {
    ghost output = { λ a. Some (amount_text a.edge a.row) };

    fn fmt<W: fmt::Write>(&self, f: &mut fmt::Formatter<W>) -> fmt::Result {
        let point = Point {
            x: left_of(self.edge.to).saturating_sub(130),
            y: row_line(self.row) - 4,
        };
        let amount = self.edge.amount;
        let unit = self.edge.unit.as_str();
        write!(f, "<text{point}>{amount} {unit}</text>\n")
    }
}

/// The amount of an edge, where it has a row.
#[derive(Clone, Copy)]
struct EdgeAmount;

impl DisplayItem<DrawnEdge> for EdgeAmount {
    ghost text = { λ _. edge_amount };

    #[tactic(auto, unfolding(crate::specs::Svg::edge_amount))]
    fn show<W: fmt::Write>(&self, edge: &DrawnEdge, f: &mut fmt::Formatter<W>) -> fmt::Result {
        let Some(row) = edge.row else {
            return Ok(());
        };
        let text = AmountText { edge: *edge, row };
        write!(f, "{text}")
    }
}

/// The lines of the edges, and their amounts above them.
#[derive(Clone, Copy)]
struct EdgeTexts<'a>(&'a [DrawnEdge]);

impl fmt::Display for EdgeTexts<'_> {
    ghost output = { λ e. Some (edge_texts e.0.now) };

    #[tactic(auto, unfolding(crate::specs::Svg::edge_texts))]
    fn fmt<W: fmt::Write>(&self, f: &mut fmt::Formatter<W>) -> fmt::Result {
        let lines = Joined(self.0, EdgeLine);
        let amounts = Joined(self.0, EdgeAmount);
        write!(
            f,
            "<defs><marker id=\"arrow\" viewBox=\"0 0 10 10\" refX=\"10\" refY=\"5\" markerWidth=\"9\" markerHeight=\"9\" orient=\"auto\"><path d=\"M0 1L10 5L0 9z\" fill=\"#666666\"/></marker></defs>\n<g fill=\"none\" stroke=\"#888888\" marker-end=\"url(#arrow)\">\n{lines}</g>\n<g stroke=\"#ffffff\" stroke-width=\"3\" paint-order=\"stroke\">\n{amounts}</g>\n"
        )
    }
}

// ---- the whole

fn right_end(position: BoxPosition) -> u64
    ensures { result ≡ right_end position }
{
    left_of(position) + 200
}

fn lower_end(position: BoxPosition) -> u64
    ensures { result ≡ lower_end position }
{
    top_of(position) + 76
}

fn row_end(row: Option<u32>) -> u64
    ensures { result ≡ row_end row }
{
    match row {
        Some(row) => row_line(row) + 20,
        None => 0,
    }
}

fn width_of(drawing: &Drawing) -> u64
    ensures { result ≡ width_of drawing.now }
{
    let mut width = 480u64;
    for lot in drawing.lots.as_slice() {
        width = width.max(right_end(lot.position));
    }
    for batch in drawing.batches.as_slice() {
        width = width.max(right_end(batch.position));
    }
    width
}

fn boxes_end(drawing: &Drawing) -> u64
    ensures { result ≡ boxes_end drawing.now }
{
    let mut height = 136u64;
    for lot in drawing.lots.as_slice() {
        height = height.max(lower_end(lot.position));
    }
    for batch in drawing.batches.as_slice() {
        height = height.max(lower_end(batch.position));
    }
    height
}

fn height_of(drawing: &Drawing) -> u64
    ensures { result ≡ height_of drawing.now }
{
    let mut height = boxes_end(drawing);
    for edge in drawing.edges.as_slice() {
        height = height.max(row_end(edge.row));
    }
    height
}

/// The element that holds all others begins.
#[derive(Clone, Copy)]
struct SvgHead(Size);

impl fmt::Display for SvgHead {
    ghost output = { λ h. Some (head h.0.width h.0.height) };

    #[tactic(auto, unfolding(crate::specs::Svg::head))]
    fn fmt<W: fmt::Write>(&self, f: &mut fmt::Formatter<W>) -> fmt::Result {
        let size = self.0;
        let width = size.width;
        let height = size.height;
        write!(
            f,
            "<svg xmlns=\"http://www.w3.org/2000/svg\"{size} viewBox=\"0 0 {width} {height}\" font-family=\"sans-serif\" font-size=\"12\" text-anchor=\"middle\">\n"
        )
    }
}

/// What the picture is of.
#[derive(Clone, Copy)]
struct Heading(Option<Node>);

impl fmt::Display for Heading {
    ghost output = { λ h. Some (heading h.0) };

    fn fmt<W: fmt::Write>(&self, f: &mut fmt::Formatter<W>) -> fmt::Result {
        match self.0 {
            Some(node) => {
                let asked: Node = node;
                write!(f, "genealogy of {asked}")
            }
            None => f.write_str("genealogy"),
        }
    }
}

/// The title of the whole, the white on which it is drawn, and the heading.
#[derive(Clone, Copy)]
struct Ground {
    asked: Option<Node>,
    size: Size,
}

impl fmt::Display for Ground {
    ghost output = { λ g. Some (ground g.asked g.size.width g.size.height) };

    #[tactic(auto, unfolding(crate::specs::Svg::ground))]
    fn fmt<W: fmt::Write>(&self, f: &mut fmt::Formatter<W>) -> fmt::Result {
        let size = self.size;
        let heading = Heading(self.asked);
        write!(
            f,
            "<title>{heading}</title>\n<rect{size} fill=\"#ffffff\"/>\n<text x=\"20\" y=\"26\" font-size=\"15\" text-anchor=\"start\">{heading}</text>\n"
        )
    }
}

/// Whether some amount is left out.
fn leaves_out(edges: &[DrawnEdge]) -> bool
    ensures { result ≡ leaves_out edges.now }
{
    edges.iter().any(|edge| edge.row.is_none())
}

/// What the drawing says of that.
fn note_of(leaves_out: bool) -> &'static str
    ensures { result.now ≡ note_of leaves_out }
{
    if leaves_out {
        "<text x=\"20\" y=\"46\" text-anchor=\"start\">Amounts are left out in a picture of more than 80 lots and batches.</text>\n"
    } else {
        ""
    }
}

#[derive(Clone, Copy)]
struct WholeDrawing<'a> {
    asked: Option<Node>,
    drawing: &'a Drawing,
}

impl fmt::Display for WholeDrawing<'_> {
    ghost output = { λ d. Some (svg_text d.asked d.drawing.now) };

    #[tactic(auto, unfolding(crate::specs::Svg::svg_text))]
    fn fmt<W: fmt::Write>(&self, f: &mut fmt::Formatter<W>) -> fmt::Result {
        let drawing = self.drawing;
        let size = Size {
            width: width_of(drawing),
            height: height_of(drawing),
        };
        let head = SvgHead(size);
        let ground = Ground {
            asked: self.asked,
            size,
        };
        let note = note_of(leaves_out(drawing.edges.as_slice()));
        let edges = EdgeTexts(drawing.edges.as_slice());
        let lots = Joined(drawing.lots.as_slice(), LotBox(self.asked));
        let batches = Joined(drawing.batches.as_slice(), BatchBox(self.asked));
        write!(f, "{head}{ground}{note}{edges}{lots}{batches}</svg>\n")
    }
}

/// A drawing in SVG, which a browser shows: a box for each lot and each batch at its position, and an arrow for each edge
/// from the right side of one box to the left side of the other. An amount is on a level part of its arrow in the gap in
/// front of the column where it ends; where amounts are left out the drawing says so. A lot that is held or recalled is
/// filled and says so. The heading names the node that was asked for, where one is given, and its box has a thick border.
/// All numbers are whole.
///
/// It is meant for some 300 nodes; a bigger one is drawn too. The only error is that memory was refused.
pub fn svg(alloc: Global, drawing: &Drawing, asked: Option<Node>) -> Result<String, AllocError>
    ensures { IfOk result (λ text. string_bytes text ≡ svg_text asked drawing.now) }
{
    WholeDrawing { asked, drawing }.to_string(alloc)
}
